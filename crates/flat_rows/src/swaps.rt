//! The rows of a document once two blocks of its text have changed places.
ghost use Rattle.std.specs.Prelude.{◌≡◌, ◌++◌, map, IfOk, OnOk};
ghost use Rattle.world_rules.specs.Edits.{cuts_of, is_in_block, block, up_by, down_by, rows_swapped};

use crate::edits::{push_moved, push_staying};
use febe_data::{List, Tumbler};
use std::alloc::Global;
use world_rules::{Cuts, Row, WorldError};

/// Adds the rows of a block, each moved up and then down.
#[tactic(auto, using(std::proofs::lemmas::List::Elements::filter_more))]
fn push_block(
    made: &mut List<Row>,
    rows: &[Row],
    document: &Tumbler,
    low: u32,
    high: u32,
    up: u32,
    down: u32,
) -> Result<(), WorldError>
    ensures { OnOk result (made.new.items ≡ made.old.items ++ map (λ row. down_by down (up_by up row)) (block rows.now document.now low high)) }
{
    for row in rows {
        if row.is_in_block(document, low, high) {
            let mut moved = row.copy();
            moved.n = row
                .n
                .checked_add(up)
                .ok_or(WorldError::TooGreat)?
                .saturating_sub(down);
            made.push(moved)?;
        }
    }
    Ok(())
}

/// The rows once the two blocks have changed places.
pub fn rows_swapped(
    alloc: Global,
    rows: &[Row],
    document: &Tumbler,
    cuts: &Cuts,
) -> Result<List<Row>, WorldError>
    ensures { IfOk result (λ made. made.items ≡ rows_swapped rows.now document.now cuts.now) }
{
    let Cuts {
        first,
        second,
        third,
        fourth,
    } = *cuts;
    let (first_length, second_length) = (
        second.saturating_sub(first),
        fourth.saturating_sub(third),
    );
    let (up, down) = (fourth.saturating_sub(second), third.saturating_sub(first));
    let mut made = List::new(alloc);
    push_staying(&mut made, rows, document, first)?;
    push_block(&mut made, rows, document, third, fourth, 0, down)?;
    push_block(
        &mut made,
        rows,
        document,
        second,
        third,
        second_length,
        first_length,
    )?;
    push_block(&mut made, rows, document, first, second, up, 0)?;
    push_moved(&mut made, rows, document, fourth, 0)?;
    Ok(made)
}
