//! Bytes are put, read, and taken back.
ghost use Rattle.std.specs.Prelude.{◌≡◌, ◌+◌, ◌<◌, ◌∷◌, [], map, All};
ghost use Rattle.tumbler.specs.Places.{place_bound, IsBefore, IsUpTo};
ghost use Rattle.enfilade_core.specs.Plain.{plain_row};
ghost use Rattle.enfilade_core.specs.Axes.{IsWellFormedRow};
ghost use Rattle.enfilade_core.specs.Planes.{content_widths, plain_text};
ghost use Rattle.granfilade.specs.Content.{content, laid_row, laid_out, so_far_on};
ghost use Rattle.granfilade.specs.Steps.{last_of};

use enfilade_balance::{Balance, debt};
use enfilade_core::{Row, TreeMark};
use granfilade::Granfilade;
use std::alloc::Global;
use std::process::Abort;
use std::test::Fail;
use tumbler::{List, Span, Text, Tumbler};

/// The address of a byte of the document 1.1.0.1.0.1.
fn byte(rt: &impl Abort, alloc: Global, number: u32) -> Tumbler
    requires { 0 < number }
    ensures { result ≡ 1 ∷ 1 ∷ 0 ∷ 1 ∷ 0 ∷ 1 ∷ 0 ∷ 1 ∷ number ∷ [] }
{
    Tumbler::from_places(alloc, &[1, 1, 0, 1, 0, 1, 0, 1, number]).expect(rt, "a tumbler")
}

#[tactic(auto, using(tumbler::proofs::Before::before_tests))]
fn ask_up_to(rt: &impl Abort, end: &Tumbler, start: &Tumbler)
    ensures { IsUpTo end.now start.now }
{
    let is_up_to = !start.is_before(end);
    assert!(rt; is_up_to);
}

/// The address that comes so many after this one.
#[tactic(auto, using(granfilade::proofs::Stepping::stepping))]
fn so_far_on(start: &Tumbler, count: usize) -> Tumbler
    requires { last_of start.now + count < place_bound }
    ensures { result ≡ so_far_on start.now count }
{
    let long = start.places().len();
    start.add(&Tumbler::width(start.allocator(), long, count as u32))
}

/// Asserts that a row ends before a start.
fn ask_row(rt: &impl Abort, row: &Row<Text>, start: &Tumbler)
    requires { IsWellFormedRow content_widths (plain_row plain_text row.now) }
    ensures { All (λ at. IsBefore at.address start.now) (laid_row row.now) }
{
    let end = so_far_on(&row.first, row.leaf.len());
    ask_up_to(rt, &end, start);
}

fn ask_rows(rt: &impl Abort, rows: &[Row<Text>], start: &Tumbler)
    requires { All (IsWellFormedRow content_widths) (map (plain_row plain_text) rows.now) }
    ensures { All (λ at. IsBefore at.address start.now) (laid_out (map (plain_row plain_text) rows.now)) }
{
    for row in rows {
        ask_row(rt, row, start);
    }
}

/// Asserts that all bytes that are there come before a start.
fn ask(rt: &impl Abort, contents: &Granfilade, start: &Tumbler)
    ensures { All (λ at. IsBefore at.address start.now) (content contents.now) }
{
    let (arena, root) = contents.parts();
    let rows = arena.rows(root).expect(rt, "memory");
    let _right = arena.allocator();
    ask_rows(rt, rows.as_slice(), start);
}

fn put(rt: &impl Abort, alloc: Global, contents: &mut Granfilade, number: u32, bytes: &[u8])
    requires { 0 < number }
{
    let start = byte(rt, alloc, number);
    ask(rt, contents, &start);
    let has_room = bytes.len() < 4_294_967_296 - number as usize;
    assert!(rt; has_room);
    contents.put(&start, bytes).expect(rt, "memory");
}

/// So many bytes from a number on.
fn read(rt: &impl Abort, alloc: Global, contents: &Granfilade, number: u32, count: u32) -> Text
    requires { 0 < number }
{
    let span = Span {
        start: byte(rt, alloc, number),
        width: Tumbler::width(alloc, 9, count),
    };
    let fits = span.fits();
    assert!(rt; fits);
    let mut text = List::new(alloc);
    contents.bytes_of(&span, &mut text).expect(rt, "memory");
    text
}

/// Asserts that the bytes are in so many rows.
fn has_leaves(rt: &impl Abort, contents: &Granfilade, count: u64) {
    let (arena, root) = contents.parts();
    assert!(rt; arena.leaves(root) == count);
}

#[test]
fn reads_a_part(rt: HostRuntime) -> Result<(), Fail> {
    let alloc = rt.alloc();
    let mut contents = Granfilade::new(alloc)?;
    put(&rt, alloc, &mut contents, 1, b"hello");
    let text = read(&rt, alloc, &contents, 2, 3);
    assert!(rt; text.as_slice() == b"ell".as_slice());
    Ok(())
}

fn many(rt: &impl Abort, alloc: Global, count: u32) -> Text {
    let mut text = List::new(alloc);
    for k in 0..count {
        text.push((k % 251) as u8).expect(rt, "memory");
    }
    text
}

#[test]
fn lays_many_bytes_in_several_rows(rt: HostRuntime) -> Result<(), Fail> {
    let alloc = rt.alloc();
    let mut contents = Granfilade::new(alloc)?;
    let bytes = many(&rt, alloc, 2_500);
    put(&rt, alloc, &mut contents, 1, bytes.as_slice());
    has_leaves(&rt, &contents, 3);
    let text = read(&rt, alloc, &contents, 1, 2_500);
    assert!(rt; text.as_slice() == bytes.as_slice());
    Ok(())
}

fn go_back(rt: &impl Abort, contents: &mut Granfilade, mark: &TreeMark)
    requires { mark.now.root.0 < mark.now.count }
{
    let (arena, _root) = contents.parts();
    let is_held = mark.count <= arena.count();
    assert!(rt; is_held);
    contents.back(mark);
}

#[test]
fn goes_back_to_a_mark(rt: HostRuntime) -> Result<(), Fail> {
    let alloc = rt.alloc();
    let mut contents = Granfilade::new(alloc)?;
    put(&rt, alloc, &mut contents, 1, b"hello");
    let mark = contents.mark();
    put(&rt, alloc, &mut contents, 6, b" again");
    assert!(rt; read(&rt, alloc, &contents, 1, 99).len() == 11);
    go_back(&rt, &mut contents, &mark);
    let text = read(&rt, alloc, &contents, 1, 99);
    assert!(rt; text.as_slice() == b"hello".as_slice());
    Ok(())
}

#[test]
fn bytes_one_by_one_make_long_rows(rt: HostRuntime) -> Result<(), Fail> {
    let alloc = rt.alloc();
    let mut contents = Granfilade::new(alloc)?;
    for k in 0..1_100u32 {
        put(&rt, alloc, &mut contents, k + 1, b"x");
    }
    has_leaves(&rt, &contents, 2);
    Ok(())
}

fn owed(contents: &Granfilade) -> u64 {
    let (arena, root) = contents.parts();
    debt(arena, root)
}

#[test]
fn seventeen_rows_are_split(rt: HostRuntime) -> Result<(), Fail> {
    let alloc = rt.alloc();
    let mut contents = Granfilade::new(alloc)?;
    for k in 1..18u32 {
        put(&rt, alloc, &mut contents, 2 * k, b"x");
    }
    assert!(rt; owed(&contents) == 5);
    let Balance::Split(_root) = contents.balance()? else {
        panic!(rt; "not a split");
    };
    assert!(rt; owed(&contents) == 0);
    assert!(rt; contents.balance()? == Balance::Idle);
    has_leaves(&rt, &contents, 17);
    assert!(rt; read(&rt, alloc, &contents, 1, 34).len() == 17);
    Ok(())
}
