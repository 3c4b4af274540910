//! Branches and counts: the fields that nodes of all planes have.
ghost use Rattle.std.specs.Prelude.{◌≡◌, ◌++◌, length, All, OnOk};
ghost use Rattle.std.specs.List.{flat_map};
ghost use Rattle.febe_fields.specs.Reading.{Reads, ReadsIfOk, many_at};
ghost use Rattle.disk_fields.specs.Format.{IsU32, AreCounted, u32_bytes, list_bytes};
ghost use Rattle.disk_fields.specs.Reading.{counted_at};
ghost use Rattle.node_pages.specs.NodeBytes.{branch_bytes, IsBranch};
ghost use Rattle.node_pages.specs.NodeReading.{earlier_at, branch_at};

use disk_fields::{append_tumbler, append_u32, append_u64, tumbler_at, u32_at, u64_at};
use enfilade_core::{Arena, Branch, Node, Plane};
use std::alloc::Global;
use tumbler::{List, Memory, Text};

/// A count in four bytes. One that these have no room for is refused, as if memory ran out.
pub(crate) fn append_count(out: &mut Text, count: usize) -> Result<(), Memory>
    ensures spelled { OnOk result (out.new.items ≡ out.old.items ++ u32_bytes count) }
    ensures counted { OnOk result (IsU32 count) }
{
    if count > u32::MAX as usize {
        return Err(Memory);
    }
    append_u32(out, count as u32)
}

fn append_branch<P: Plane>(out: &mut Text, branch: &Branch) -> Result<(), Memory>
    ensures spelled { OnOk result (out.new.items ≡ out.old.items ++ branch_bytes branch.now) }
    ensures right { OnOk result (IsBranch branch.now) }
{
    let _first = branch.first.places();
    let _second = branch.second.places();
    let _first_extent = branch.first_extent.places();
    let _second_extent = branch.second_extent.places();
    append_u64(out, Arena::<P>::number(branch.node))?;
    append_tumbler(out, &branch.first)?;
    append_tumbler(out, &branch.second)?;
    append_tumbler(out, &branch.first_extent)?;
    append_tumbler(out, &branch.second_extent)
}

fn append_each_branch<P: Plane>(out: &mut Text, branches: &[Branch]) -> Result<(), Memory>
    ensures spelled { OnOk result (out.new.items ≡ out.old.items ++ flat_map branch_bytes branches.now) }
    ensures right { OnOk result (All IsBranch branches.now) }
{
    for branch in branches {
        append_branch::<P>(out, branch)?;
    }
    Ok(())
}

/// How many branches there are, and the branches.
pub(crate) fn append_branches<P: Plane>(out: &mut Text, branches: &[Branch]) -> Result<(), Memory>
    ensures spelled { OnOk result (out.new.items ≡ out.old.items ++ list_bytes branch_bytes branches.now) }
    ensures right { OnOk result (AreCounted IsBranch branches.now) }
{
    append_count(out, branches.len())?;
    append_each_branch::<P>(out, branches)
}

/// A node that the arena has, by its number.
#[tactic(auto, unfolding(crate::specs::NodeReading::earlier_at))]
fn earlier_at<'a, P: Plane>(arena: &Arena<P>, bytes: &'a [u8]) -> Option<(Node, &'a [u8])>
    ensures { Reads (λ x. (x.0.0, x.1.now)) result (earlier_at (length arena.now) bytes.now) }
{
    let Some((number, rest)) = u64_at(bytes) else {
        return None;
    };
    let Some(node) = arena.at_number(number) else {
        return None;
    };
    Some((node, rest))
}

#[tactic(auto, unfolding(crate::specs::NodeReading::branch_at, disk_fields::specs::Reading::made_at, disk_fields::specs::Reading::both_at))]
fn branch_at<'a, P: Plane>(
    alloc: Global,
    arena: &Arena<P>,
    bytes: &'a [u8],
) -> Option<(Branch, &'a [u8])>
    ensures { Reads (λ x. (x.0, x.1.now)) result (branch_at (length arena.now) bytes.now) }
{
    let Some((node, rest)) = earlier_at(arena, bytes) else {
        return None;
    };
    let Some((first, rest)) = tumbler_at(alloc, rest) else {
        return None;
    };
    let Some((second, rest)) = tumbler_at(alloc, rest) else {
        return None;
    };
    let Some((first_extent, rest)) = tumbler_at(alloc, rest) else {
        return None;
    };
    let Some((second_extent, rest)) = tumbler_at(alloc, rest) else {
        return None;
    };
    Some((
        Branch {
            node,
            first,
            second,
            first_extent,
            second_extent,
        },
        rest,
    ))
}

/// This many branches. Memory is taken for those that are there, whatever number was asked for.
fn many_branches_at<'a, P: Plane>(
    alloc: Global,
    arena: &Arena<P>,
    count: u32,
    bytes: &'a [u8],
) -> Result<Option<(List<Branch>, &'a [u8])>, Memory>
    ensures { ReadsIfOk (λ x. (x.0.items, x.1.now)) result (many_at (branch_at (length arena.now)) count bytes.now) }
{
    let mut branches = List::new(alloc);
    let mut rest = bytes;
    for _ in 0..count {
        let Some((branch, behind)) = branch_at(alloc, arena, rest) else {
            return Ok(None);
        };
        branches.reserve(1)?;
        branches.push_reserved(branch);
        rest = behind;
    }
    Ok(Some((branches, rest)))
}

/// How many branches there are, and the branches. Each names a node that the arena has.
#[tactic(auto, unfolding(disk_fields::specs::Reading::counted_at))]
pub(crate) fn branches_at<'a, P: Plane>(
    alloc: Global,
    arena: &Arena<P>,
    bytes: &'a [u8],
) -> Result<Option<(List<Branch>, &'a [u8])>, Memory>
    ensures { ReadsIfOk (λ x. (x.0.items, x.1.now)) result (counted_at (branch_at (length arena.now)) bytes.now) }
{
    let Some((count, rest)) = u32_at(bytes) else {
        return Ok(None);
    };
    many_branches_at(alloc, arena, count, rest)
}
