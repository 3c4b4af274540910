//! The requests that the program makes itself.
ghost use Rattle.std.specs.Prelude.{◌≡◌, ◌≢◌, ◌-◌, ◌<◌, ◌≤◌, ◌∷◌, ◌++◌, length, map, replicate, All, IfOk, OnOk};
ghost use Rattle.tumbler.specs.Places.{most_places, place, IsTumbler};
ghost use Rattle.febe_data.specs.Generator.{state_after};
ghost use Rattle.febe_data.specs.Plain.{plain_request, plain_spec, create, set_account};
ghost use Rattle.febe_data.specs.Validity.{IsText, IsSpan, IsSpecSet, IsRequest};
ghost use Rattle.session_generator.specs.Generated.{account, document_at, byte_at, bytes_from, first_bytes, document_of, size_of, other_of, kind_of, letters, request_of, length_after, MakerState, drawn_in, request_at, maker_after, maker_at, drawn_requests, generated_requests};

use febe_data::{Generator, List, Memory, Request, Span, Spec, Text, Tumbler};
use std::alloc::Global;
use std::marker::Model;

/// How many documents they are about.
const DOCUMENTS: u32 = 8;

/// How many requests are drawn.
const DRAWN: u32 = 2_000;

/// The address of an account, or a V-address.
fn address(alloc: Global, places: &[u32]) -> Tumbler
    requires few { length places.now ≤ most_places }
    requires ends { place places.now (length places.now - 1) ≢ 0 }
    ensures value { result ≡ places.now }
    ensures tumbler { IsTumbler result }
{
    let address = Tumbler::from_places(alloc, places).unwrap();
    let _places = address.places();
    address
}

/// The address of a document, which is counted from 0.
fn document_at(alloc: Global, j: u32) -> Tumbler
    requires { j < 8 }
    ensures value { result ≡ document_at j }
    ensures tumbler { IsTumbler result }
{
    address(alloc, &[1, 1, 0, 1, 0, 1 + j])
}

/// The V-address of a byte, which is counted from 1.
fn byte_at(alloc: Global, n: u32) -> Tumbler
    requires { 0 < n }
    ensures value { result ≡ byte_at n }
    ensures tumbler { IsTumbler result }
{
    address(alloc, &[1, n])
}

/// So many bytes, from the `n`-th on.
fn bytes_from(alloc: Global, n: u32, many: u32) -> Span
    requires from_one { 0 < n }
    requires some { 0 < many }
    ensures value { result ≡ bytes_from n many }
    ensures valid { IsSpan result }
{
    Span {
        start: byte_at(alloc, n),
        width: address(alloc, &[0, many]),
    }
}

/// The first so many bytes of a document, as a spec set.
fn first_bytes(alloc: Global, j: u32, many: u32) -> Result<List<Spec>, Memory>
    requires document { j < 8 }
    requires some { 0 < many }
    ensures value { IfOk result (λ specs. map plain_spec specs.items ≡ first_bytes j many) }
    ensures valid { IfOk result (λ specs. IsSpecSet (map plain_spec specs.items)) }
{
    let mut spans = List::new(alloc);
    spans.push(bytes_from(alloc, 1, many))?;
    let mut specs = List::new(alloc);
    specs.push(Spec {
        document: document_at(alloc, j),
        spans,
    })?;
    Ok(specs)
}

/// Small letters as the alphabet goes on, the first of them `k` behind a.
#[tactic(auto, using(crate::proofs::Drawn::letters_more))]
fn letters(alloc: Global, k: u32, many: u32) -> Result<Text, Memory>
    requires few { many ≤ 16 }
    requires small { k ≤ 2000 }
    ensures value { IfOk result (λ text. text.items ≡ letters k many) }
    ensures valid { IfOk result (λ text. IsText text.items) }
{
    let mut text = Text::new(alloc);
    for m in 0..many {
        text.push(b'a' + ((k + m) % 26) as u8)?;
    }
    Ok(text)
}

/// What a request does.
#[derive(Clone, Copy)]
enum Kind {
    Insert,
    Delete,
    Copy,
    Rearrange,
    Version,
    Link,
    Find,
}

/// The three numbers that one request is made of.
#[derive(Clone, Copy)]
struct Draw {
    first: u32,
    second: u32,
    third: u32,
}

impl Draw {
    /// The document that the request is about, counted from 0.
    fn document(self) -> u32
        ensures value { result ≡ document_of self }
        ensures below { result < 8 }
    {
        self.first % 8
    }

    /// A number of bytes.
    fn size(self) -> u32
        ensures value { result ≡ size_of self }
        ensures some { 0 < result }
        ensures few { result ≤ 16 }
    {
        1 + self.first / 8 % 16
    }

    /// Another document, or the same.
    fn other(self) -> u32
        ensures value { result ≡ other_of self }
        ensures below { result < 8 }
    {
        self.first / 64 % 8
    }

    /// What the request does, where its document has so many bytes.
    fn kind(self, long: u32) -> Kind
        ensures value { result ≡ kind_of self long }
        ensures filled { result ≡ Kind.Delete → 0 < long }
    {
        match self.second % 8 {
            4 if long > 0 => Kind::Delete,
            5 => Kind::Copy,
            6 if long >= 3 => Kind::Rearrange,
            7 if self.other() == 0 => Kind::Version,
            7 if self.other() < 4 => Kind::Link,
            7 => Kind::Find,
            _ => Kind::Insert,
        }
    }

    /// How many bytes its document has after the request, where the other one has so many.
    fn length_after(self, kind: Kind, long: u32, other: u32) -> u32
        requires filled { kind ≡ Kind.Delete → 0 < long }
        requires room { long ≤ 65536 }
        ensures { result ≡ length_after kind self long other }
    {
        match kind {
            Kind::Insert => long + self.size(),
            Kind::Delete => long - self.size().min(long - self.third % long),
            Kind::Copy => long + other.min(8),
            _ => long,
        }
    }
}

impl Draw {
    /// Text for its document.
    fn insertion(self, alloc: Global, k: u32, long: u32) -> Result<Request, Memory>
        requires room { long ≤ 65536 }
        requires small { k ≤ 2000 }
        ensures value { IfOk result (λ request. plain_request request ≡ request_of Kind.Insert k self long) }
        ensures valid { IfOk result (λ request. IsRequest (plain_request request)) }
    {
        Ok(Request::Insert {
            document: document_at(alloc, self.document()),
            at: byte_at(alloc, 1 + self.third % (long + 1)),
            text: letters(alloc, k, self.size())?,
        })
    }

    /// A copy of the other document's first bytes into its own.
    fn copying(self, alloc: Global, long: u32) -> Result<Request, Memory>
        requires room { long ≤ 65536 }
        ensures value { IfOk result (λ request. plain_request request ≡ request_of Kind.Copy 0 self long) }
        ensures valid { IfOk result (λ request. IsRequest (plain_request request)) }
    {
        Ok(Request::Copy {
            document: document_at(alloc, self.document()),
            at: byte_at(alloc, 1 + self.third % (long + 1)),
            specs: first_bytes(alloc, self.other(), 8)?,
        })
    }

    /// A swap of the first and the second third of its document.
    fn swapping(self, alloc: Global, long: u32) -> Result<Request, Memory>
        requires room { long ≤ 65536 }
        ensures value { IfOk result (λ request. plain_request request ≡ request_of Kind.Rearrange 0 self long) }
        ensures valid { IfOk result (λ request. IsRequest (plain_request request)) }
    {
        let third = long / 3;
        let mut cuts = List::new(alloc);
        cuts.push(byte_at(alloc, 1))?;
        cuts.push(byte_at(alloc, 1 + third))?;
        cuts.push(byte_at(alloc, 1 + 2 * third))?;
        Ok(Request::Rearrange {
            document: document_at(alloc, self.document()),
            cuts,
        })
    }

    /// A link from its document to the other one.
    fn linking(self, alloc: Global) -> Result<Request, Memory>
        ensures value { IfOk result (λ request. plain_request request ≡ request_of Kind.Link 0 self 0) }
        ensures valid { IfOk result (λ request. IsRequest (plain_request request)) }
    {
        Ok(Request::CreateLink {
            home: document_at(alloc, self.document()),
            from: first_bytes(alloc, self.document(), 4)?,
            to: first_bytes(alloc, self.other(), 4)?,
            three: List::new(alloc),
        })
    }

    /// The `k`-th request, where its document has so many bytes.
    fn request(self, alloc: Global, kind: Kind, k: u32, long: u32) -> Result<Request, Memory>
        requires filled { kind ≡ Kind.Delete → 0 < long }
        requires room { long ≤ 65536 }
        requires small { k ≤ 2000 }
        ensures value { IfOk result (λ request. plain_request request ≡ request_of kind k self long) }
        ensures valid { IfOk result (λ request. IsRequest (plain_request request)) }
    {
        let document = document_at(alloc, self.document());
        match kind {
            Kind::Insert => self.insertion(alloc, k, long),
            Kind::Delete => Ok(Request::Delete {
                document,
                span: bytes_from(alloc, 1 + self.third % long, self.size()),
            }),
            Kind::Copy => self.copying(alloc, long),
            Kind::Rearrange => self.swapping(alloc, long),
            Kind::Version => Ok(Request::Version { document }),
            Kind::Link => self.linking(alloc),
            Kind::Find => Ok(Request::FindDocuments {
                specs: first_bytes(alloc, self.document(), 4)?,
            }),
        }
    }
}

/// The generator, and how many bytes each document has.
#[derive(Drop)]
struct Maker {
    generator: Generator,
    lengths: [u32; 8],
}

impl Model for Maker {
    ghost use Rattle.session_generator.specs.Generated.{MakerState};

    ghost Value = { MakerState };

    ghost view = { λ maker. record { state = maker.generator; lengths = maker.lengths } };
}

impl Maker {
    /// Before the first request.
    #[tactic(auto, unfolding(crate::specs::Generated::maker_at))]
    fn new(start: u32) -> Maker
        ensures { result ≡ maker_at start 0 }
    {
        Maker {
            generator: Generator::new(u64::from(start)),
            lengths: [0; 8],
        }
    }

    /// The next three numbers.
    #[tactic(auto, unfolding(crate::specs::Generated::drawn_in))]
    fn draw(&mut self) -> Draw
        ensures drawn { result ≡ drawn_in self.old }
        ensures state { self.new.state ≡ state_after (state_after (state_after self.old.state)) }
        ensures lengths { self.new.lengths ≡ self.old.lengths }
    {
        Draw {
            first: self.generator.next(),
            second: self.generator.next(),
            third: self.generator.next(),
        }
    }

    /// The next request, which is the `k`-th.
    #[tactic(auto, unfolding(crate::specs::Generated::request_at, crate::specs::Generated::lengths_after))]
    fn next(&mut self, alloc: Global, k: u32) -> Result<Request, Memory>
        requires room { All (λ long. long ≤ 65536) self.old.lengths }
        requires small { k ≤ 2000 }
        ensures value { IfOk result (λ request. plain_request request ≡ request_at k self.old) }
        ensures valid { IfOk result (λ request. IsRequest (plain_request request)) }
        ensures after { self.new ≡ maker_after self.old }
    {
        let draw = self.draw();
        let document = draw.document() as usize;
        let long = self.lengths[document];
        let other = self.lengths[draw.other() as usize];
        let kind = draw.kind(long);
        self.lengths[document] = draw.length_after(kind, long, other);
        draw.request(alloc, kind, k, long)
    }
}

/// The account, and the documents.
#[tactic(auto, using(crate::proofs::Drawn::one_made, crate::proofs::Drawn::one_valid, std::proofs::lemmas::Grind::replicate_next))]
fn opening(alloc: Global) -> Result<List<Request>, Memory>
    ensures value { IfOk result (λ made. map plain_request made.items ≡ set_account account ∷ replicate 8 create) }
    ensures valid { IfOk result (λ made. All (λ request. IsRequest (plain_request request)) made.items) }
{
    let mut made = List::new(alloc);
    made.push(Request::Account {
        account: address(alloc, &[1, 1, 0, 1]),
    })?;
    for _ in 0..DOCUMENTS {
        made.push(Request::Create)?;
    }
    Ok(made)
}

/// Adds the requests that are drawn.
#[tactic(auto, using(crate::proofs::Drawn::drawn_more, crate::proofs::Drawn::drawn_none, crate::proofs::Drawn::maker_more, crate::proofs::Drawn::lengths_fit))]
fn push_drawn(alloc: Global, start: u32, made: &mut List<Request>) -> Result<(), Memory>
    requires valid { All (λ request. IsRequest (plain_request request)) made.old.items }
    ensures value { OnOk result (map plain_request made.new.items ≡ map plain_request made.old.items ++ drawn_requests start 2000) }
    ensures valid { OnOk result (All (λ request. IsRequest (plain_request request)) made.new.items) }
{
    let mut maker = Maker::new(start);
    for n in 0..DRAWN {
        let request = maker.next(alloc, n + 1)?;
        made.push(request)?;
    }
    Ok(())
}

/// An account, eight documents, 2,000 requests about them that depend on the start alone, and a quit.
#[tactic(auto, unfolding(crate::specs::Generated::generated_requests))]
pub fn generated(alloc: Global, start: u32) -> Result<List<Request>, Memory>
    ensures value { IfOk result (λ made. map plain_request made.items ≡ generated_requests start) }
    ensures valid { IfOk result (λ made. All (λ request. IsRequest (plain_request request)) made.items) }
{
    let mut made = opening(alloc)?;
    push_drawn(alloc, start, &mut made)?;
    made.push(Request::Quit)?;
    Ok(made)
}
