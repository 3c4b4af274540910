//! Each look-up of the flat world, and of one that stands for views whose lists lie in another order.

use crate::found::check_finds;
use crate::histories::{FIRST, SECOND, history};
use crate::looked::check_lookups;
use crate::turned::TurnedWorld;
use febe_data::{Entry, List, Memory};
use flat_world::FlatWorld;
use std::alloc::Global;
use std::process::Abort;
use std::test::Fail;
use world_rules::{Apply, Find};

/// Applies one entry after the other.
fn apply_all<W: Apply>(alloc: Global, world: &mut W, history: &List<Entry>) -> Result<(), Memory> {
    for entry in history.as_slice() {
        world.apply(alloc, entry)?;
    }
    Ok(())
}

fn check_all<W: Find>(rt: &impl Abort, alloc: Global, world: &W) -> Result<(), Fail> {
    check_lookups(rt, alloc, world)?;
    check_finds(rt, alloc, world)
}

#[test]
fn flat_world_is_asked(rt: HostRuntime) -> Result<(), Fail> {
    let alloc = rt.alloc();
    let mut world = FlatWorld::new(alloc);
    apply_all(alloc, &mut world, &history(alloc, &FIRST, &SECOND)?)?;
    check_all(&rt, alloc, &world)
}

#[test]
fn turned_world_is_asked(rt: HostRuntime) -> Result<(), Fail> {
    let alloc = rt.alloc();
    let held = FlatWorld::new(alloc);
    let mut world = TurnedWorld { held };
    apply_all(alloc, &mut world, &history(alloc, &SECOND, &FIRST)?)?;
    check_all(&rt, alloc, &world)
}
