//! Spans are added, found by what they meet, and taken back.
ghost use Rattle.std.specs.Prelude.{All, IfOk};
ghost use Rattle.tumbler.specs.Span.{SpanFits};

use enfilade_balance::{Balance, debt};
use spanfilade::{Spanfilade, joined};
use std::alloc::Global;
use std::test::Fail;
use tumbler::{List, Memory, Span, Tumbler};

mod random;

fn at(alloc: Global, places: &[u32]) -> Result<Tumbler, Memory> {
    match Tumbler::from_places(alloc, places) {
        Ok(tumbler) => Ok(tumbler),
        Err(_) => Err(Memory),
    }
}

fn span(alloc: Global, start: &[u32], width: &[u32]) -> Result<Span, Memory>
    ensures { IfOk result (λ made. SpanFits made) }
{
    let span = Span {
        start: at(alloc, start)?,
        width: at(alloc, width)?,
    };
    if !span.fits() {
        return Err(Memory);
    }
    Ok(span)
}

fn both(alloc: Global, one: Span, other: Span) -> Result<List<Span>, Memory>
    requires one { SpanFits one }
    requires other { SpanFits other }
    ensures { IfOk result (λ made. All SpanFits made.items) }
{
    let mut spans = List::new(alloc);
    spans.push(one)?;
    spans.push(other)?;
    Ok(spans)
}

/// The key 1.1 for 5.1 to 5.3 and for 6.1, and the key 1.2 for 5.3 and 5.4.
fn index(alloc: Global) -> Result<Spanfilade, Memory> {
    let mut index = Spanfilade::new(alloc)?;
    let key = at(alloc, &[1, 1])?;
    index.add(&span(alloc, &[6, 1], &[0, 1])?, &key)?;
    index.add(&span(alloc, &[5, 1], &[0, 3])?, &key)?;
    index.add(&span(alloc, &[5, 3], &[0, 2])?, &at(alloc, &[1, 2])?)?;
    Ok(index)
}

/// Whether these are the keys.
fn are(keys: &List<Tumbler>, expected: &[&[u32]]) -> bool {
    if keys.len() != expected.len() {
        return false;
    }
    for (k, places) in expected.iter().enumerate() {
        let Some(key) = keys.get(k) else {
            return false;
        };
        if key.places() != *places {
            return false;
        }
    }
    true
}

#[test]
fn finds_keys(rt: HostRuntime) -> Result<(), Fail> {
    let alloc = rt.alloc();
    let index = index(alloc)?;
    let twice = both(
        alloc,
        span(alloc, &[5, 4], &[0, 1])?,
        span(alloc, &[5, 4], &[0, 1])?,
    )?;
    let met = are(&index.keys_meeting(&twice)?, &[&[1, 2]]);
    assert!(rt; met);
    let apart = both(
        alloc,
        span(alloc, &[6], &[1])?,
        span(alloc, &[5, 3], &[0, 1])?,
    )?;
    let met = are(&index.keys_meeting(&apart)?, &[&[1, 1], &[1, 2]]);
    assert!(rt; met);
    Ok(())
}

#[test]
fn goes_back(rt: HostRuntime) -> Result<(), Fail> {
    let alloc = rt.alloc();
    let mut index = Spanfilade::new(alloc)?;
    let mark = index.mark();
    index.add(&span(alloc, &[5, 1], &[0, 3])?, &at(alloc, &[1, 1])?)?;
    index.back(&mark);
    let (arena, root) = index.parts();
    assert!(rt; arena.leaves(root) == 0);
    Ok(())
}

#[test]
fn gives_up_past_a_limit(rt: HostRuntime) -> Result<(), Fail> {
    let alloc = rt.alloc();
    let index = index(alloc)?;
    let spans = both(
        alloc,
        span(alloc, &[5, 3], &[0, 1])?,
        span(alloc, &[7], &[1])?,
    )?;
    let found = match index.keys_meeting_up_to(&spans, 2)? {
        Some(keys) => are(&keys, &[&[1, 1], &[1, 2]]),
        None => false,
    };
    assert!(rt; found);
    let found = index.keys_meeting_up_to(&spans, 1)?;
    assert!(rt; found.is_none());
    Ok(())
}

#[test]
fn joins_spans(rt: HostRuntime) -> Result<(), Fail> {
    let alloc = rt.alloc();
    let spans = both(
        alloc,
        span(alloc, &[5, 4], &[0, 1])?,
        span(alloc, &[5, 1], &[0, 3])?,
    )?;
    let joined = joined(alloc, spans.as_slice())?;
    let whole = match joined.as_slice() {
        [span] => span.start.places() == [5, 1].as_slice()
            && span.width.places() == [0, 4].as_slice(),
        _ => false,
    };
    assert!(rt; whole);
    Ok(())
}

/// The key 1.1 for 5.2, with the spans 6.1 and 5.1 added at once for the key 1.2.
#[test]
fn adds_many_spans_at_once(rt: HostRuntime) -> Result<(), Fail> {
    let alloc = rt.alloc();
    let mut index = Spanfilade::new(alloc)?;
    index.add(&span(alloc, &[5, 2], &[0, 1])?, &at(alloc, &[1, 1])?)?;
    let spans = both(
        alloc,
        span(alloc, &[6, 1], &[0, 1])?,
        span(alloc, &[5, 1], &[0, 1])?,
    )?;
    index.add_all(&spans, &at(alloc, &[1, 2])?)?;
    let (arena, root) = index.parts();
    assert!(rt; arena.leaves(root) == 3);
    let met = are(&index.keys_meeting(&spans)?, &[&[1, 2]]);
    assert!(rt; met);
    Ok(())
}

/// Text is typed at 5.1, and the span goes on with it; another key has a row of its own.
#[test]
fn covers_what_is_typed(rt: HostRuntime) -> Result<(), Fail> {
    let alloc = rt.alloc();
    let mut index = Spanfilade::new(alloc)?;
    let key = at(alloc, &[1, 1])?;
    index.cover(&span(alloc, &[5, 1], &[0, 2])?, &key)?;
    index.cover(&span(alloc, &[5, 3], &[0, 1])?, &key)?;
    let (arena, root) = index.parts();
    assert!(rt; arena.leaves(root) == 1);
    index.cover(&span(alloc, &[5, 4], &[0, 1])?, &at(alloc, &[1, 2])?)?;
    let (arena, root) = index.parts();
    assert!(rt; arena.leaves(root) == 2);
    Ok(())
}

fn owed(index: &Spanfilade) -> u64 {
    let (arena, root) = index.parts();
    debt(arena, root)
}

#[test]
fn seventeen_spans_are_split(rt: HostRuntime) -> Result<(), Fail> {
    let alloc = rt.alloc();
    let mut index = Spanfilade::new(alloc)?;
    let key = at(alloc, &[1, 1])?;
    for k in 1..18u32 {
        index.add(&span(alloc, &[5, 2 * k], &[0, 1])?, &key)?;
    }
    assert!(rt; owed(&index) == 5);
    let Balance::Split(_root) = index.balance()? else {
        panic!(rt; "not a split");
    };
    assert!(rt; owed(&index) == 0);
    assert!(rt; index.balance()? == Balance::Idle);
    let (arena, root) = index.parts();
    assert!(rt; arena.leaves(root) == 17);
    Ok(())
}
