//! Edits at random of three documents that share nodes, beside the same edits of plain lists.
//!
//! Only text is edited. The documents' bytes are those of three others, `1.1.0.1.0.h` for h from 1 to 3.
ghost use Rattle.std.specs.Prelude.{◌≡◌, ◌+◌, ◌≤◌, length, All};
ghost use Rattle.tumbler.specs.Address.{IsDocument};
ghost use Rattle.tumbler.specs.Span.{SpanFits};
ghost use Rattle.enfilade_core.specs.Rows.{rows_of};
ghost use Rattle.enfilade_core.specs.Edits.{KeepsRows};
ghost use Rattle.enfilade_core.specs.Exchange.{Grows};
ghost use Rattle.enfilade_balance.specs.Steps.{root_after};
ghost use Rattle.poom.specs.Laid.{IsRoot, texts};
ghost use Rattle.poom.specs.Edited.{IsContentRun, run_addresses};

use enfilade_balance::Balance;
use enfilade_core::Node;
use febe_data::Run;
use poom::Poom;
use std::alloc::Global;
use std::process::Abort;
use std::test::Fail;
use tumbler::{List, Span, Tumbler};

/// Numbers that look random.
#[derive(Drop)]
struct Random {
    state: u32,
}

impl Random {
    /// A number from 1 up to a most one, which is not 0.
    fn up_to(&mut self, most: u32) -> u32 {
        self.state = self
            .state
            .wrapping_mul(1_664_525)
            .wrapping_add(1_013_904_223);
        if most == 0 {
            return 1;
        }
        (self.state / 256) % most + 1
    }
}

/// A byte of a document's content: which document of the three, and the byte's number.
#[derive(Clone, Copy, Debug, PartialEq, Eq)]
struct Byte {
    home: u32,
    number: u32,
}

/// A document's root, and the bytes that it shows.
#[derive(Drop)]
struct Document {
    root: Node,
    bytes: List<Byte>,
}

impl Document {
    fn len(&self) -> u32 {
        self.bytes.len().min(1_000_000) as u32
    }
}

fn home(rt: &impl Abort, alloc: Global, number: u32) -> Tumbler
    ensures { IsDocument result }
{
    let home = Tumbler::from_places(alloc, &[1, 1, 0, 1, 0, number]).expect(rt, "a tumbler");
    let is_document = home.is_document();
    assert!(rt; is_document);
    home
}

/// The span of so many positions of a text from one on.
fn span(rt: &impl Abort, alloc: Global, from: u32, count: u32) -> Span
    ensures { SpanFits result }
{
    let span = Span {
        start: Tumbler::from_places(alloc, &[1, from]).expect(rt, "a tumbler"),
        width: Tumbler::from_places(alloc, &[0, count]).expect(rt, "a tumbler"),
    };
    let fits = span.fits();
    assert!(rt; fits);
    span
}

// ---- plain lists

/// The bytes up to a position, which is counted from 1.
fn front(bytes: &[Byte], position: u32) -> &[Byte] {
    let count = position.saturating_sub(1) as usize;
    bytes.split_at(count.min(bytes.len())).0
}

/// The bytes from a position on.
fn back(bytes: &[Byte], position: u32) -> &[Byte] {
    let count = position.saturating_sub(1) as usize;
    bytes.split_at(count.min(bytes.len())).1
}

/// The bytes from one position up to another.
fn middle(bytes: &[Byte], from: u32, to: u32) -> &[Byte] {
    back(front(bytes, to), from)
}

fn append(rt: &impl Abort, bytes: &mut List<Byte>, more: &[Byte]) {
    bytes.extend_from_slice(more).expect(rt, "memory");
}

fn copied(rt: &impl Abort, alloc: Global, bytes: &[Byte]) -> List<Byte> {
    List::from_slice(alloc, bytes).expect(rt, "memory")
}

/// The bytes with those from one position up to another exchanged for others.
fn exchanged(
    rt: &impl Abort,
    alloc: Global,
    bytes: &[Byte],
    from: u32,
    to: u32,
    new: &[Byte],
) -> List<Byte> {
    let mut made = copied(rt, alloc, front(bytes, from));
    append(rt, &mut made, new);
    append(rt, &mut made, back(bytes, to));
    made
}

/// So many bytes of a document from one on.
fn numbered(rt: &impl Abort, alloc: Global, first: Byte, count: u32) -> List<Byte> {
    let mut made = List::new(alloc);
    for k in 0..count {
        let number = first.number.saturating_add(k);
        made.push(Byte {
            home: first.home,
            number,
        })
        .expect(rt, "memory");
    }
    made
}

// ---- the same in both

/// The bytes of runs, one by one.
fn bytes_of(rt: &impl Abort, alloc: Global, runs: &[Run]) -> List<Byte> {
    let mut bytes = List::new(alloc);
    for run in runs {
        let home = *run.content.places().last().expect(rt, "a place");
        let number = run.first;
        let more = numbered(rt, alloc, Byte { home, number }, run.length);
        append(rt, &mut bytes, more.as_slice());
    }
    bytes
}

/// Asserts that a position shows what it does in the plain list, and that each level of nodes was visited once for it.
fn shows(rt: &impl Abort, poom: &Poom, document: &Document, n: u32)
    requires { IsRoot poom.now document.now.root.0 }
{
    let found = poom.i_of(document.root, n);
    let expected = middle(document.bytes.as_slice(), n, n.saturating_add(1));
    let Some(found) = found else {
        let is_outside = n == 0 || document.len() < n;
        assert!(rt; is_outside);
        return;
    };
    assert!(rt; n != 0);
    let byte = expected.first().expect(rt, "no byte past the end");
    assert!(rt; found.number == byte.number);
    assert!(rt; found.document.places().last() == Some(&byte.home));
    let depth = poom.arena().depth(document.root);
    assert!(rt; found.visits == depth);
}

/// Asserts that so many positions from one on show what they do in the plain list.
fn picks(rt: &impl Abort, poom: &Poom, document: &Document, from: u32, count: u32)
    requires { IsRoot poom.now document.now.root.0 }
{
    let alloc = poom.allocator();
    let span = span(rt, alloc, from, count);
    let runs = poom
        .picked(document.root, &home(rt, alloc, 9), &span)
        .expect(rt, "memory");
    let found = bytes_of(rt, alloc, runs.as_slice());
    let expected = middle(document.bytes.as_slice(), from, from.saturating_add(count));
    assert!(rt; found.len() == expected.len());
    for (one, other) in found.as_slice().iter().zip(expected) {
        assert!(rt; *one == *other);
    }
}

/// Asserts that a document shows what the plain list does.
fn is_right(rt: &impl Abort, poom: &Poom, random: &mut Random, document: &Document)
    requires { IsRoot poom.now document.now.root.0 }
{
    let long = document.len();
    assert!(rt; poom.length(document.root) == long);
    shows(rt, poom, document, 0);
    shows(rt, poom, document, random.up_to(long));
    shows(rt, poom, document, random.up_to(long));
    shows(rt, poom, document, long);
    shows(rt, poom, document, long.saturating_add(1));
    let from = random.up_to(long);
    let count = random.up_to(12);
    picks(rt, poom, document, from, count);
}

// ---- edits

/// Asserts that a position is one of a document's, or the one behind them.
fn ask_position(rt: &impl Abort, poom: &Poom, root: Node, n: u32)
    requires root { IsRoot poom.now root.0 }
    ensures from_one { 1 ≤ n }
    ensures to_end { n ≤ 1 + length (texts (rows_of poom.now root.0)) }
    ensures room { length (texts (rows_of poom.now root.0)) ≤ 100000000 }
{
    let long = poom.length(root);
    assert!(rt; long <= 100_000_000);
    assert!(rt; 1 <= n);
    assert!(rt; n <= long + 1);
}

/// A byte that is the next one behind a position, or any.
fn next_byte(random: &mut Random, document: &Document, n: u32) -> Byte {
    let before = front(document.bytes.as_slice(), n);
    let any = Byte {
        home: random.up_to(3),
        number: random.up_to(90),
    };
    let Some(last) = before.last() else {
        return any;
    };
    if random.up_to(3) != 1 {
        return any;
    }
    Byte {
        home: last.home,
        number: last.number.saturating_add(1),
    }
}

/// Puts up to five bytes in.
fn insert(rt: &impl Abort, poom: &mut Poom, random: &mut Random, one: &Document) -> Document
    requires root { IsRoot poom.old one.now.root.0 }
    ensures kept { KeepsRows poom.old poom.new }
    ensures grows { Grows poom.old poom.new }
    ensures root { IsRoot poom.new result.root.0 }
{
    let alloc = poom.allocator();
    let n = random.up_to(one.len().saturating_add(1));
    let first = next_byte(random, one, n);
    let count = random.up_to(5);
    assert!(rt; 1 <= first.number);
    assert!(rt; first.number <= 1_000_000);
    assert!(rt; count <= 5);
    ask_position(rt, poom, one.root, n);
    let home = home(rt, alloc, first.home);
    let root = poom
        .insert(one.root, n, &home, first.number, count)
        .expect(rt, "memory");
    let new = numbered(rt, alloc, first, count);
    let bytes = exchanged(rt, alloc, one.bytes.as_slice(), n, n, new.as_slice());
    Document { root, bytes }
}

/// Takes some positions out: up to eight, or up to half where there are many.
fn delete(rt: &impl Abort, poom: &mut Poom, random: &mut Random, one: &Document) -> Document
    requires root { IsRoot poom.old one.now.root.0 }
    ensures kept { KeepsRows poom.old poom.new }
    ensures grows { Grows poom.old poom.new }
    ensures root { IsRoot poom.new result.root.0 }
{
    let alloc = poom.allocator();
    let from = random.up_to(one.len());
    let most = if one.len() < 150 { 8 } else { one.len() / 2 };
    let count = random.up_to(most);
    let root = poom
        .delete(one.root, &span(rt, alloc, from, count))
        .expect(rt, "memory");
    let to = from.saturating_add(count);
    let bytes = exchanged(rt, alloc, one.bytes.as_slice(), from, to, &[]);
    Document { root, bytes }
}

/// A position from one on, up to the one behind a text.
fn position_from(random: &mut Random, document: &Document, from: u32) -> u32 {
    let left = document.len().saturating_add(2).saturating_sub(from);
    from.saturating_add(random.up_to(left)).saturating_sub(1)
}

/// Between three cuts the two blocks change places, between four the first one and the last.
fn rearrange(rt: &impl Abort, poom: &mut Poom, random: &mut Random, one: &Document) -> Document
    requires root { IsRoot poom.old one.now.root.0 }
    ensures kept { KeepsRows poom.old poom.new }
    ensures grows { Grows poom.old poom.new }
    ensures root { IsRoot poom.new result.root.0 }
{
    let a = position_from(random, one, 1);
    let b = position_from(random, one, a);
    let c = position_from(random, one, b);
    let d = position_from(random, one, c);
    if random.up_to(2) == 1 {
        return swap_two(rt, poom, one, a, b, d);
    }
    swap_outer(rt, poom, one, [a, b, c, d])
}

#[tactic(auto, using(poom::proofs::Trials::cutting))]
fn swap_two(rt: &impl Abort, poom: &mut Poom, one: &Document, a: u32, b: u32, c: u32) -> Document
    requires root { IsRoot poom.old one.now.root.0 }
    ensures kept { KeepsRows poom.old poom.new }
    ensures grows { Grows poom.old poom.new }
    ensures root { IsRoot poom.new result.root.0 }
{
    let alloc = poom.allocator();
    ask_position(rt, poom, one.root, c);
    assert!(rt; 1 <= a);
    assert!(rt; a <= b);
    assert!(rt; b <= c);
    let cuts = List::from_slice(alloc, &[a, b, c]).expect(rt, "memory");
    let root = poom.rearrange(one.root, &cuts).expect(rt, "memory");
    let old = one.bytes.as_slice();
    let mut new = copied(rt, alloc, middle(old, b, c));
    append(rt, &mut new, middle(old, a, b));
    let bytes = exchanged(rt, alloc, old, a, c, new.as_slice());
    Document { root, bytes }
}

#[tactic(auto, using(poom::proofs::Trials::cutting))]
fn swap_outer(rt: &impl Abort, poom: &mut Poom, one: &Document, at: [u32; 4]) -> Document
    requires root { IsRoot poom.old one.now.root.0 }
    ensures kept { KeepsRows poom.old poom.new }
    ensures grows { Grows poom.old poom.new }
    ensures root { IsRoot poom.new result.root.0 }
{
    let alloc = poom.allocator();
    let [a, b, c, d] = at;
    ask_position(rt, poom, one.root, d);
    assert!(rt; 1 <= a);
    assert!(rt; a <= b);
    assert!(rt; b <= c);
    assert!(rt; c <= d);
    let cuts = List::from_slice(alloc, &[a, b, c, d]).expect(rt, "memory");
    let root = poom.rearrange(one.root, &cuts).expect(rt, "memory");
    let old = one.bytes.as_slice();
    let mut new = copied(rt, alloc, middle(old, c, d));
    append(rt, &mut new, middle(old, b, c));
    append(rt, &mut new, middle(old, a, b));
    let bytes = exchanged(rt, alloc, old, a, d, new.as_slice());
    Document { root, bytes }
}

/// What a span picks from a document.
fn picked(rt: &impl Abort, poom: &Poom, root: Node, span: &Span) -> List<Run>
    requires root { IsRoot poom.now root.0 }
    requires fits { SpanFits span.now }
    ensures content { All IsContentRun result.items }
    ensures few { length (run_addresses result.items) ≤ 100000000 }
{
    let long = poom.length(root);
    assert!(rt; long <= 100_000_000);
    let home = home(rt, poom.allocator(), 9);
    let Ok(runs) = poom.picked(root, &home, span) else {
        panic!(rt; "no memory");
    };
    runs
}

/// Copies up to twelve positions of another document in.
fn copy(
    rt: &impl Abort,
    poom: &mut Poom,
    random: &mut Random,
    one: &Document,
    other: &Document,
) -> Document
    requires root { IsRoot poom.old one.now.root.0 }
    requires other { IsRoot poom.old other.now.root.0 }
    ensures kept { KeepsRows poom.old poom.new }
    ensures grows { Grows poom.old poom.new }
    ensures root { IsRoot poom.new result.root.0 }
{
    let alloc = poom.allocator();
    let from = random.up_to(other.len());
    let to = from.saturating_add(random.up_to(12));
    let span = span(rt, alloc, from, to.saturating_sub(from));
    let runs = picked(rt, poom, other.root, &span);
    let n = random.up_to(one.len().saturating_add(1));
    ask_position(rt, poom, one.root, n);
    let root = poom.copy_in(one.root, n, &runs).expect(rt, "memory");
    let new = middle(other.bytes.as_slice(), from, to);
    let bytes = exchanged(rt, alloc, one.bytes.as_slice(), n, n, new);
    Document { root, bytes }
}

fn version(rt: &impl Abort, poom: &Poom, of: &Document) -> Document
    requires root { IsRoot poom.now of.now.root.0 }
    ensures root { IsRoot poom.now result.root.0 }
{
    Document {
        root: poom.version(of.root),
        bytes: copied(rt, poom.allocator(), of.bytes.as_slice()),
    }
}

/// The root after a step.
fn root_after(root: Node, made: Balance) -> Node
    ensures { result ≡ root_after root made }
{
    match made {
        Balance::Idle => root,
        Balance::Split(made) | Balance::Merged(made) | Balance::Dropped(made) => made,
    }
}

fn balance(rt: &impl Abort, poom: &mut Poom, one: &Document) -> Document
    requires root { IsRoot poom.old one.now.root.0 }
    ensures kept { KeepsRows poom.old poom.new }
    ensures grows { Grows poom.old poom.new }
    ensures root { IsRoot poom.new result.root.0 }
{
    let Ok(made) = poom.balance(one.root) else {
        panic!(rt; "no memory");
    };
    Document {
        root: root_after(one.root, made),
        bytes: copied(rt, poom.allocator(), one.bytes.as_slice()),
    }
}

/// One edit at random of the first document.
#[tactic(auto, using(poom::proofs::Trials::staying, poom::proofs::Roots::grown))]
fn edit(
    rt: &impl Abort,
    poom: &mut Poom,
    random: &mut Random,
    one: &Document,
    other: &Document,
) -> Document
    requires root { IsRoot poom.old one.now.root.0 }
    requires other { IsRoot poom.old other.now.root.0 }
    ensures kept { KeepsRows poom.old poom.new }
    ensures grows { Grows poom.old poom.new }
    ensures root { IsRoot poom.new result.root.0 }
{
    match random.up_to(16) {
        1 => version(rt, poom, other),
        2 | 3 => delete(rt, poom, random, one),
        4 | 5 => rearrange(rt, poom, random, one),
        6 | 7 => copy(rt, poom, random, one, other),
        8 => copy(rt, poom, random, one, one),
        9 | 10 | 11 | 12 => balance(rt, poom, one),
        _ => insert(rt, poom, random, one),
    }
}

/// Three documents. The first is the one that is edited next.
#[derive(Drop)]
struct Three {
    one: Document,
    other: Document,
    third: Document,
}

/// The documents in another order, or in the same.
fn turned(poom: &Poom, random: &mut Random, three: Three) -> Three
    requires one { IsRoot poom.now three.one.root.0 }
    requires other { IsRoot poom.now three.other.root.0 }
    requires third { IsRoot poom.now three.third.root.0 }
    ensures one { IsRoot poom.now result.one.root.0 }
    ensures other { IsRoot poom.now result.other.root.0 }
    ensures third { IsRoot poom.now result.third.root.0 }
{
    let Three { one, other, third } = three;
    match random.up_to(3) {
        1 => Three { one, other, third },
        2 => Three {
            one: other,
            other: third,
            third: one,
        },
        _ => Three {
            one: third,
            other: one,
            third: other,
        },
    }
}

/// One edit, after which the other documents show what they did before it.
#[tactic(auto, using(poom::proofs::Trials::staying))]
fn step(rt: &impl Abort, poom: &mut Poom, random: &mut Random, three: Three) -> Three
    requires one { IsRoot poom.old three.one.root.0 }
    requires other { IsRoot poom.old three.other.root.0 }
    requires third { IsRoot poom.old three.third.root.0 }
    ensures one { IsRoot poom.new result.one.root.0 }
    ensures other { IsRoot poom.new result.other.root.0 }
    ensures third { IsRoot poom.new result.third.root.0 }
{
    let Three { one, other, third } = three;
    let made = edit(rt, poom, random, &one, &other);
    is_right(rt, poom, random, &made);
    is_right(rt, poom, random, &other);
    is_right(rt, poom, random, &third);
    let three = Three {
        one: made,
        other,
        third,
    };
    turned(poom, random, three)
}

fn empty(rt: &impl Abort, poom: &mut Poom) -> Document
    ensures { IsRoot poom.new result.root.0 }
{
    Document {
        root: poom.empty().expect(rt, "memory"),
        bytes: List::new(poom.allocator()),
    }
}

/// Three hundred edits, one after another.
fn edits(rt: &impl Abort, alloc: Global, seed: u32) {
    let mut poom = Poom::new(alloc);
    let mut random = Random { state: seed };
    let one = empty(rt, &mut poom);
    let other = version(rt, &poom, &one);
    let third = version(rt, &poom, &other);
    let mut three = Three { one, other, third };
    for _ in 0..300u32 {
        three = step(rt, &mut poom, &mut random, three);
    }
    let depth = poom.arena().depth(three.one.root);
    assert!(rt; 2 <= depth);
}

#[test]
fn three_documents_of_shared_nodes(rt: HostRuntime) -> Result<(), Fail> {
    for seed in [3u32, 14, 159] {
        edits(&rt, rt.alloc(), seed);
    }
    Ok(())
}
