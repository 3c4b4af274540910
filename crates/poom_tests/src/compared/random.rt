//! Random documents with repeats are compared, and their plain lists beside them by a look at each pair of positions.
//!
//! The documents' bytes are those of up to three others, `1.1.0.1.0.h` for h from 1 to 3.
ghost use Rattle.tumbler.specs.Address.{IsDocument};
ghost use Rattle.enfilade_core.specs.Edits.{KeepsRows};
ghost use Rattle.enfilade_core.specs.Exchange.{Grows};
ghost use Rattle.poom.specs.Laid.{IsRoot};

use super::{Picked, ask_position, compare, runs_in, span};
use enfilade_core::Node;
use febe_data::Diagonal;
use poom::Poom;
use poom_compare::Compared;
use std::alloc::Global;
use std::process::Abort;
use std::test::Fail;
use tumbler::{List, Tumbler};

/// Numbers that look random.
#[derive(Drop)]
struct Random {
    state: u32,
}

impl Random {
    /// A number from 1 up to a most one, which is not 0.
    fn up_to(&mut self, most: u32) -> u32 {
        self.state = self
            .state
            .wrapping_mul(1_664_525)
            .wrapping_add(1_013_904_223);
        if most == 0 {
            return 1;
        }
        (self.state / 256) % most + 1
    }
}

/// A byte of a document's content: which document of the three, and the byte's number.
#[derive(Clone, Copy, Debug, PartialEq, Eq)]
struct Byte {
    home: u32,
    number: u32,
}

/// A document's root, and the bytes that it shows.
#[derive(Drop)]
struct Document {
    root: Node,
    bytes: List<Byte>,
}

impl Document {
    fn len(&self) -> u32 {
        self.bytes.len().min(1_000_000) as u32
    }
}

fn home(rt: &impl Abort, alloc: Global, number: u32) -> Tumbler
    ensures { IsDocument result }
{
    let home = Tumbler::from_places(alloc, &[1, 1, 0, 1, 0, number]).expect(rt, "a tumbler");
    let is_document = home.is_document();
    assert!(rt; is_document);
    home
}

// ---- plain lists

/// The bytes up to a position, which is counted from 1.
fn front(bytes: &[Byte], position: u32) -> &[Byte] {
    let count = position.saturating_sub(1) as usize;
    bytes.split_at(count.min(bytes.len())).0
}

/// The bytes from a position on.
fn back(bytes: &[Byte], position: u32) -> &[Byte] {
    let count = position.saturating_sub(1) as usize;
    bytes.split_at(count.min(bytes.len())).1
}

/// The bytes from one position up to another.
fn middle(bytes: &[Byte], from: u32, to: u32) -> &[Byte] {
    back(front(bytes, to), from)
}

fn append(rt: &impl Abort, bytes: &mut List<Byte>, more: &[Byte]) {
    bytes.extend_from_slice(more).expect(rt, "memory");
}

fn copied(rt: &impl Abort, alloc: Global, bytes: &[Byte]) -> List<Byte> {
    List::from_slice(alloc, bytes).expect(rt, "memory")
}

/// The bytes with others put in at a position.
fn with_new(rt: &impl Abort, alloc: Global, bytes: &[Byte], n: u32, new: &[Byte]) -> List<Byte> {
    let mut made = copied(rt, alloc, front(bytes, n));
    append(rt, &mut made, new);
    append(rt, &mut made, back(bytes, n));
    made
}

/// So many bytes of a document from one on.
fn numbered(rt: &impl Abort, alloc: Global, first: Byte, count: u32) -> List<Byte> {
    let mut made = List::new(alloc);
    for k in 0..count {
        let number = first.number.saturating_add(k);
        made.push(Byte {
            home: first.home,
            number,
        })
        .expect(rt, "memory");
    }
    made
}

// ---- documents

/// Puts up to six bytes in, which are of one content of so many.
fn insert(
    rt: &impl Abort,
    poom: &mut Poom,
    random: &mut Random,
    contents: u32,
    one: &Document,
) -> Document
    requires root { IsRoot poom.old one.now.root.0 }
    ensures kept { KeepsRows poom.old poom.new }
    ensures grows { Grows poom.old poom.new }
    ensures root { IsRoot poom.new result.root.0 }
{
    let alloc = poom.allocator();
    let n = random.up_to(one.len().saturating_add(1));
    let first = Byte {
        home: random.up_to(contents),
        number: random.up_to(4),
    };
    let count = random.up_to(6);
    assert!(rt; 1 <= first.number);
    assert!(rt; first.number <= 1_000_000);
    assert!(rt; count <= 6);
    ask_position(rt, poom, one.root, n);
    let home = home(rt, alloc, first.home);
    let root = poom
        .insert(one.root, n, &home, first.number, count)
        .expect(rt, "memory");
    let new = numbered(rt, alloc, first, count);
    let bytes = with_new(rt, alloc, one.bytes.as_slice(), n, new.as_slice());
    Document { root, bytes }
}

/// Copies up to eight positions of another document in.
fn copy(
    rt: &impl Abort,
    poom: &mut Poom,
    random: &mut Random,
    one: &Document,
    other: &Document,
) -> Document
    requires root { IsRoot poom.old one.now.root.0 }
    requires other { IsRoot poom.old other.now.root.0 }
    ensures kept { KeepsRows poom.old poom.new }
    ensures grows { Grows poom.old poom.new }
    ensures root { IsRoot poom.new result.root.0 }
{
    let alloc = poom.allocator();
    let from = random.up_to(other.len());
    let to = from.saturating_add(random.up_to(8));
    let span = span(rt, alloc, from, to.saturating_sub(from));
    let runs = runs_in(rt, poom, other.root, &span);
    let n = random.up_to(one.len().saturating_add(1));
    ask_position(rt, poom, one.root, n);
    let root = poom.copy_in(one.root, n, &runs).expect(rt, "memory");
    let new = middle(other.bytes.as_slice(), from, to);
    let bytes = with_new(rt, alloc, one.bytes.as_slice(), n, new);
    Document { root, bytes }
}

fn version(rt: &impl Abort, poom: &Poom, of: &Document) -> Document
    requires root { IsRoot poom.now of.now.root.0 }
    ensures root { IsRoot poom.now result.root.0 }
{
    Document {
        root: poom.version(of.root),
        bytes: copied(rt, poom.allocator(), of.bytes.as_slice()),
    }
}

/// The first document with more bytes. One that has over 32 stays as it is.
#[tactic(auto, using(poom::proofs::Trials::staying, poom::proofs::Roots::grown))]
fn edit(
    rt: &impl Abort,
    poom: &mut Poom,
    random: &mut Random,
    contents: u32,
    one: &Document,
    other: &Document,
) -> Document
    requires root { IsRoot poom.old one.now.root.0 }
    requires other { IsRoot poom.old other.now.root.0 }
    ensures kept { KeepsRows poom.old poom.new }
    ensures grows { Grows poom.old poom.new }
    ensures root { IsRoot poom.new result.root.0 }
{
    if 32 < one.len() {
        return version(rt, poom, one);
    }
    match random.up_to(6) {
        1 => copy(rt, poom, random, one, other),
        2 => copy(rt, poom, random, one, one),
        _ => insert(rt, poom, random, contents, one),
    }
}

/// Two documents. The left one is edited next.
#[derive(Drop)]
struct Pair {
    left: Document,
    right: Document,
}

/// One edit. The documents change sides.
#[tactic(auto, using(poom::proofs::Trials::staying))]
fn step(rt: &impl Abort, poom: &mut Poom, random: &mut Random, contents: u32, pair: Pair) -> Pair
    requires left { IsRoot poom.old pair.left.root.0 }
    requires right { IsRoot poom.old pair.right.root.0 }
    ensures left { IsRoot poom.new result.left.root.0 }
    ensures right { IsRoot poom.new result.right.root.0 }
{
    let Pair { left, right } = pair;
    let made = edit(rt, poom, random, contents, &left, &right);
    Pair {
        left: right,
        right: made,
    }
}

fn empty(rt: &impl Abort, poom: &mut Poom) -> Document
    ensures { IsRoot poom.new result.root.0 }
{
    Document {
        root: poom.empty().expect(rt, "memory"),
        bytes: List::new(poom.allocator()),
    }
}

// ---- spans

/// A span of a text that is so long. It may have no position, and positions past the end. One in four has all.
fn any_span(random: &mut Random, long: u32) -> (u32, u32) {
    let most = long.saturating_add(3);
    let from = random.up_to(most);
    let count = random.up_to(most).saturating_sub(1);
    if random.up_to(4) == 1 {
        return (1, most);
    }
    (from, count)
}

/// One to three spans, each from a position on, so many positions.
fn any_spans(rt: &impl Abort, alloc: Global, random: &mut Random, long: u32) -> Vec<(u32, u32)> {
    let mut made = Vec::new(alloc);
    for _ in 0..random.up_to(3) {
        let span = any_span(random, long);
        made.push(span).expect(rt, "memory");
    }
    made
}

// ---- each pair of positions

/// The bytes of a text, and spans of it: each from a position on, so many positions.
#[derive(Clone, Copy)]
struct Plain<'a> {
    bytes: &'a [Byte],
    spans: &'a [(u32, u32)],
}

fn length_of(text: &Plain<'_>) -> u32 {
    text.bytes.len().min(1_000_000) as u32
}

/// Whether some span has the position.
fn is_in_some(spans: &[(u32, u32)], n: u32) -> bool {
    for span in spans {
        if span.0 <= n && n.saturating_sub(span.0) < span.1 {
            return true;
        }
    }
    false
}

/// The byte at a position, where there is one and some span has it.
fn byte_at(text: &Plain<'_>, n: u32) -> Option<Byte> {
    if n == 0 || !is_in_some(text.spans, n) {
        return None;
    }
    let byte = text.bytes.get(n.saturating_sub(1) as usize)?;
    Some(*byte)
}

/// Whether both texts show the same byte at these positions, where spans have them.
fn is_shared(left: &Plain<'_>, right: &Plain<'_>, i: u32, j: u32) -> bool {
    let Some(one) = byte_at(left, i) else {
        return false;
    };
    let Some(other) = byte_at(right, j) else {
        return false;
    };
    one == other
}

/// How long the diagonal is that begins at these positions, or 0 where none does.
fn length_from(left: &Plain<'_>, right: &Plain<'_>, i: u32, j: u32) -> u32 {
    if is_shared(left, right, i.saturating_sub(1), j.saturating_sub(1)) {
        return 0;
    }
    let most = length_of(left);
    for k in 0..most {
        if !is_shared(left, right, i.saturating_add(k), j.saturating_add(k)) {
            return k;
        }
    }
    most
}

/// Adds the diagonals that begin at a position on the left, by the right one.
fn push_from(
    rt: &impl Abort,
    made: &mut List<Diagonal>,
    left: &Plain<'_>,
    right: &Plain<'_>,
    i: u32,
) {
    for k in 0..length_of(right) {
        let j = k.saturating_add(1);
        let length = length_from(left, right, i, j);
        if length != 0 {
            made.push(Diagonal {
                left: i,
                right: j,
                length,
            })
            .expect(rt, "memory");
        }
    }
}

/// All diagonals that can be made longer at neither end, by left and then by right.
fn expected(rt: &impl Abort, alloc: Global, left: &Plain<'_>, right: &Plain<'_>) -> List<Diagonal> {
    let mut made = List::new(alloc);
    for k in 0..length_of(left) {
        push_from(rt, &mut made, left, right, k.saturating_add(1));
    }
    made
}

// ---- the same in both

/// Whether these are the diagonals.
fn has(found: &Compared, expected: &[Diagonal]) -> bool {
    let Compared::Diagonals(found) = found else {
        return false;
    };
    if found.len() != expected.len() {
        return false;
    }
    for (one, other) in found.as_slice().iter().zip(expected) {
        if *one != *other {
            return false;
        }
    }
    true
}

/// Asserts that what some spans pick of two documents shares what it does in the plain lists.
fn is_right(rt: &impl Abort, poom: &Poom, random: &mut Random, left: &Document, right: &Document)
    requires left { IsRoot poom.now left.now.root.0 }
    requires right { IsRoot poom.now right.now.root.0 }
{
    let alloc = poom.allocator();
    let left_spans = any_spans(rt, alloc, random, left.len());
    let right_spans = any_spans(rt, alloc, random, right.len());
    let picked_left = Picked {
        root: left.root,
        spans: left_spans.as_slice(),
    };
    let picked_right = Picked {
        root: right.root,
        spans: right_spans.as_slice(),
    };
    let found = compare(rt, poom, picked_left, picked_right);
    let plain_left = Plain {
        bytes: left.bytes.as_slice(),
        spans: left_spans.as_slice(),
    };
    let plain_right = Plain {
        bytes: right.bytes.as_slice(),
        spans: right_spans.as_slice(),
    };
    let expected = expected(rt, alloc, &plain_left, &plain_right);
    assert!(rt; has(&found, expected.as_slice()));
}

/// Asserts it of both documents either way round, and of one and itself.
fn are_right(rt: &impl Abort, poom: &Poom, random: &mut Random, pair: Pair)
    requires left { IsRoot poom.now pair.left.root.0 }
    requires right { IsRoot poom.now pair.right.root.0 }
{
    let Pair { left, right } = pair;
    is_right(rt, poom, random, &left, &right);
    is_right(rt, poom, random, &right, &left);
    is_right(rt, poom, random, &left, &left);
}

/// Two documents of up to 40 bytes each, of one to three contents, are compared.
fn round(rt: &impl Abort, alloc: Global, random: &mut Random) {
    let mut poom = Poom::new(alloc);
    let contents = random.up_to(3);
    let left = empty(rt, &mut poom);
    let right = version(rt, &poom, &left);
    let mut pair = Pair { left, right };
    let edits = random.up_to(30).saturating_sub(1);
    for _ in 0..edits {
        pair = step(rt, &mut poom, random, contents, pair);
    }
    are_right(rt, &poom, random, pair);
}

/// A hundred rounds, one after another.
fn rounds(rt: &impl Abort, alloc: Global, seed: u32) {
    let mut random = Random { state: seed };
    for _ in 0..100u32 {
        round(rt, alloc, &mut random);
    }
}

#[test]
fn three_hundred_pairs_of_documents(rt: HostRuntime) -> Result<(), Fail> {
    for seed in [3u32, 14, 159] {
        rounds(&rt, rt.alloc(), seed);
    }
    Ok(())
}
