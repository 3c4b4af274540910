//! Spans come in at random beside a plain list of them, and both are asked for keys.
//!
//! Places are numbered in their order: 5.1, 5.1.1, 5.1.2, 5.2, 5.2.1, and so on from 0. Keys are the places 1 to 6.
ghost use Rattle.std.specs.Prelude.{◌<◌, All};
ghost use Rattle.tumbler.specs.Span.{SpanFits};

use enfilade_core::TreeMark;
use spanfilade::Spanfilade;
use std::alloc::Global;
use std::process::Abort;
use std::test::Fail;
use tumbler::{List, Span, Tumbler};

/// Numbers that look random.
#[derive(Drop)]
struct Random {
    state: u32,
}

impl Random {
    /// A number from 1 up to a most one, which is not 0.
    fn up_to(&mut self, most: u32) -> u32 {
        self.state = self
            .state
            .wrapping_mul(1_664_525)
            .wrapping_add(1_013_904_223);
        if most == 0 {
            return 1;
        }
        (self.state / 256) % most + 1
    }
}

/// The places from one number on and before another. Where the two are the same there is none.
#[derive(Clone, Copy)]
struct Stretch {
    from: u32,
    to: u32,
}

/// A stretch that came in for a key.
#[derive(Clone, Copy)]
struct Plain {
    key: u32,
    at: Stretch,
}

// ---- as tumblers

fn place(rt: &impl Abort, alloc: Global, number: u32) -> Tumbler {
    let first = (number / 3).saturating_add(1);
    let second = number % 3;
    if second == 0 {
        return Tumbler::from_places(alloc, &[5, first]).expect(rt, "a tumbler");
    }
    Tumbler::from_places(alloc, &[5, first, second]).expect(rt, "a tumbler")
}

/// What leads from where a stretch begins to where it ends.
fn width(rt: &impl Abort, alloc: Global, one: Stretch) -> Tumbler {
    let first = (one.to / 3).saturating_sub(one.from / 3);
    let second = one.to % 3;
    if first == 0 {
        return Tumbler::width(alloc, 3, second.saturating_sub(one.from % 3));
    }
    if second == 0 {
        return Tumbler::width(alloc, 2, first);
    }
    Tumbler::from_places(alloc, &[0, first, second]).expect(rt, "a tumbler")
}

fn span(rt: &impl Abort, alloc: Global, one: Stretch) -> Span
    ensures { SpanFits result }
{
    let span = Span {
        start: place(rt, alloc, one.from),
        width: width(rt, alloc, one),
    };
    assert!(rt; span.fits());
    span
}

fn spans(rt: &impl Abort, alloc: Global, plain: &[Stretch]) -> List<Span>
    ensures { All SpanFits result.items }
{
    let mut made = List::new(alloc);
    for one in plain {
        let span = Span {
            start: place(rt, alloc, one.from),
            width: width(rt, alloc, *one),
        };
        assert!(rt; span.fits());
        made.push(span).expect(rt, "memory");
    }
    made
}

// ---- at random

/// What stands for a row where there is none.
const NO_ROW: Plain = Plain {
    key: 1,
    at: Stretch { from: 9, to: 9 },
};

fn any_row(random: &mut Random, plain: &[Plain]) -> Plain {
    let count = plain.len().min(1_000) as u32;
    let k = random.up_to(count).saturating_sub(1) as usize;
    match plain.get(k) {
        Some(row) => *row,
        None => NO_ROW,
    }
}

fn last_row(plain: &[Plain]) -> Plain {
    match plain.last() {
        Some(row) => *row,
        None => NO_ROW,
    }
}

/// Where a row begins or ends, or any place.
fn any_number(random: &mut Random, plain: &[Plain]) -> u32 {
    let row = any_row(random, plain);
    match random.up_to(3) {
        1 => row.at.from,
        2 => row.at.to,
        _ => random.up_to(300),
    }
}

/// A stretch of up to five places, or of none.
fn any_stretch(random: &mut Random, plain: &[Plain]) -> Stretch {
    let number = any_number(random, plain);
    let long = random.up_to(6).saturating_sub(1);
    if random.up_to(2) == 1 {
        return Stretch {
            from: number.saturating_sub(long),
            to: number,
        };
    }
    Stretch {
        from: number,
        to: number.saturating_add(long),
    }
}

/// One to three stretches.
fn stretches(
    rt: &impl Abort,
    alloc: Global,
    random: &mut Random,
    plain: &[Plain],
) -> List<Stretch> {
    let mut made = List::new(alloc);
    for _ in 0..random.up_to(3) {
        made.push(any_stretch(random, plain)).expect(rt, "memory");
    }
    made
}

/// A row to go on behind: the one that came last, any, or one of no places anywhere.
fn row_in_front(random: &mut Random, plain: &[Plain]) -> Plain {
    let number = random.up_to(300);
    let at = Stretch {
        from: number,
        to: number,
    };
    let key = random.up_to(6);
    match random.up_to(4) {
        1 => Plain { key, at },
        2 => any_row(random, plain),
        _ => last_row(plain),
    }
}

/// One to four places, which begin up to two places before a row of the key ends, or up to one behind that.
fn typed(random: &mut Random, plain: &[Plain]) -> Plain {
    let row = row_in_front(random, plain);
    let back = random.up_to(4);
    let from = row.at.to.saturating_add(2).saturating_sub(back);
    let to = from.saturating_add(random.up_to(4));
    Plain {
        key: row.key,
        at: Stretch { from, to },
    }
}

// ---- the plain list

/// Whether some place is in both stretches. A row of no places is where it begins.
fn meets(row: Stretch, asked: Stretch) -> bool {
    if row.from == row.to {
        return asked.from <= row.from && row.from < asked.to;
    }
    row.from.max(asked.from) < row.to.min(asked.to)
}

fn meets_one_of(row: Stretch, asked: &[Stretch]) -> bool {
    for one in asked {
        if meets(row, *one) {
            return true;
        }
    }
    false
}

fn is_met(plain: &[Plain], key: u32, asked: &[Stretch]) -> bool {
    for row in plain {
        if row.key == key && meets_one_of(row.at, asked) {
            return true;
        }
    }
    false
}

fn keys_met(rt: &impl Abort, alloc: Global, plain: &[Plain], asked: &[Stretch]) -> List<u32> {
    let mut keys = List::new(alloc);
    for key in 1..7u32 {
        if is_met(plain, key, asked) {
            keys.push(key).expect(rt, "memory");
        }
    }
    keys
}

// ---- the same in both

/// Asserts that these are the keys.
fn are(rt: &impl Abort, alloc: Global, found: &[Tumbler], expected: &[u32]) {
    assert!(rt; found.len() == expected.len());
    for (key, number) in found.iter().zip(expected) {
        let place = place(rt, alloc, *number);
        assert!(rt; *key == place);
    }
}

/// Asserts that up to three stretches meet the keys that the plain list has there.
fn ask(rt: &impl Abort, alloc: Global, index: &Spanfilade, random: &mut Random, plain: &[Plain]) {
    let asked = stretches(rt, alloc, random, plain);
    let wanted = spans(rt, alloc, asked.as_slice());
    let found = index.keys_meeting(&wanted).expect(rt, "memory");
    let expected = keys_met(rt, alloc, plain, asked.as_slice());
    are(rt, alloc, found.as_slice(), expected.as_slice());
}

// ---- changes

fn add(
    rt: &impl Abort,
    alloc: Global,
    index: &mut Spanfilade,
    random: &mut Random,
    plain: &mut List<Plain>,
) {
    let row = Plain {
        key: random.up_to(6),
        at: any_stretch(random, plain.as_slice()),
    };
    let span = span(rt, alloc, row.at);
    let key = place(rt, alloc, row.key);
    index.add(&span, &key).expect(rt, "memory");
    plain.push(row).expect(rt, "memory");
}

/// Adds one to three spans of a key at once.
fn add_many(
    rt: &impl Abort,
    alloc: Global,
    index: &mut Spanfilade,
    random: &mut Random,
    plain: &mut List<Plain>,
) {
    let key = random.up_to(6);
    let new = stretches(rt, alloc, random, plain.as_slice());
    let spans = spans(rt, alloc, new.as_slice());
    let place = place(rt, alloc, key);
    index.add_all(&spans, &place).expect(rt, "memory");
    for one in new.as_slice() {
        plain.push(Plain { key, at: *one }).expect(rt, "memory");
    }
}

/// Covers some places, which may make a row longer. In the plain list they come in by themselves.
fn cover(
    rt: &impl Abort,
    alloc: Global,
    index: &mut Spanfilade,
    random: &mut Random,
    plain: &mut List<Plain>,
) {
    let row = typed(random, plain.as_slice());
    let span = span(rt, alloc, row.at);
    let key = place(rt, alloc, row.key);
    index.cover(&span, &key).expect(rt, "memory");
    plain.push(row).expect(rt, "memory");
}

fn change(
    rt: &impl Abort,
    alloc: Global,
    index: &mut Spanfilade,
    random: &mut Random,
    plain: &mut List<Plain>,
) {
    match random.up_to(5) {
        1 => add_many(rt, alloc, index, random, plain),
        2 | 3 => cover(rt, alloc, index, random, plain),
        _ => add(rt, alloc, index, random, plain),
    }
}

fn balance(rt: &impl Abort, index: &mut Spanfilade) {
    let _made = index.balance().expect(rt, "memory");
}

/// One to three changes, each with a step of the balancer behind it.
fn changes(
    rt: &impl Abort,
    alloc: Global,
    index: &mut Spanfilade,
    random: &mut Random,
    plain: &mut List<Plain>,
) {
    for _ in 0..random.up_to(3) {
        change(rt, alloc, index, random, plain);
        balance(rt, index);
    }
}

fn go_back(rt: &impl Abort, index: &mut Spanfilade, mark: &TreeMark)
    requires { mark.now.root.0 < mark.now.count }
{
    let (arena, _root) = index.parts();
    let is_held = mark.count <= arena.count();
    assert!(rt; is_held);
    index.back(mark);
}

/// Changes that are taken back.
fn come_and_go(
    rt: &impl Abort,
    alloc: Global,
    index: &mut Spanfilade,
    random: &mut Random,
    plain: &mut List<Plain>,
) {
    let mark = index.mark();
    let count = plain.len();
    changes(rt, alloc, index, random, plain);
    ask(rt, alloc, index, random, plain.as_slice());
    go_back(rt, index, &mark);
    plain.truncate(count);
    ask(rt, alloc, index, random, plain.as_slice());
}

fn step(
    rt: &impl Abort,
    alloc: Global,
    index: &mut Spanfilade,
    random: &mut Random,
    plain: &mut List<Plain>,
) {
    match random.up_to(10) {
        1 | 2 => ask(rt, alloc, index, random, plain.as_slice()),
        3 => come_and_go(rt, alloc, index, random, plain),
        4 | 5 => balance(rt, index),
        _ => change(rt, alloc, index, random, plain),
    }
}

/// Two hundred and fifty steps, one after another.
fn steps(rt: &impl Abort, alloc: Global, seed: u32) {
    let mut index = Spanfilade::new(alloc).expect(rt, "memory");
    let mut random = Random { state: seed };
    let mut plain = List::new(alloc);
    for _ in 0..250u32 {
        step(rt, alloc, &mut index, &mut random, &mut plain);
    }
}

#[test]
fn finds_the_keys_of_a_plain_list(rt: HostRuntime) -> Result<(), Fail> {
    for seed in [14u32, 97] {
        steps(&rt, rt.alloc(), seed);
    }
    Ok(())
}
