//! How many entries each session has.
ghost use Rattle.std.specs.Prelude.{◌≡◌, ◌+◌, ◌==◌, ◌<◌, ◌^◌, IsOk, OnOk, IfOk, None, length, vec_len, vec_capacity, if◌then◌else◌};
ghost use Rattle.std.specs.List.{position};
ghost use Rattle.febe_data.specs.Plain.{plain_change};
ghost use Rattle.world_rules.specs.History.{is_durable};
ghost use Rattle.world_rules.specs.FlatView.{entries_in, with_entry};
ghost use Rattle.world_rules.specs.InPlace.{DropsOnly, HasRoom};

use febe_data::Change;
use world_rules::{SessionRow, WorldError, is_durable};

/// Where the session's row is, if it has one.
fn place_of(rows: &[SessionRow], session: u64) -> Option<usize>
    ensures { result ≡ position (λ row. row.session == session) rows.now }
{
    rows.iter().position(|row| row.session == session)
}

/// Makes sure that one more entry of the session can be counted. Nothing is counted yet.
#[tactic(auto, using(crate::proofs::Counted::counted))]
pub fn reserve_count(sessions: &mut Vec<SessionRow>, session: u64) -> Result<(), WorldError>
    ensures rows { sessions.new.items ≡ sessions.old.items }
    ensures countable { OnOk result (entries_in sessions.new.items session + 1 < 2 ^ 64) }
    ensures room { OnOk result (position (λ row. row.session == session) sessions.new.items ≡ None → vec_len sessions.new < vec_capacity sessions.new) }
    ensures in_place { HasRoom sessions.old.items session → IsOk result }
{
    match place_of(sessions.as_slice(), session) {
        Some(place) => {
            let entries = sessions[place].entries;
            if entries == u64::MAX {
                return Err(WorldError::TooGreat);
            }
        }
        None => sessions.reserve(1)?,
    }
    Ok(())
}

/// Counts one more entry of the session. It takes no memory.
#[tactic(auto, using(crate::proofs::Counted::counted))]
pub fn count(sessions: &mut Vec<SessionRow>, session: u64)
    requires countable { entries_in sessions.old.items session + 1 < 2 ^ 64 }
    requires room { position (λ row. row.session == session) sessions.old.items ≡ None → vec_len sessions.old < vec_capacity sessions.old }
    ensures { sessions.new.items ≡ with_entry session sessions.old.items }
{
    match place_of(sessions.as_slice(), session) {
        Some(place) => sessions[place].entries += 1,
        None => sessions.push_reserved(SessionRow {
            session,
            entries: 1,
        }),
    }
}

/// How many entries are counted once the change is made, where the type has the number.
pub fn counted_after(counted: u64, change: &Change) -> Result<u64, WorldError>
    ensures number { IfOk result (λ number. number ≡ (if is_durable (plain_change change.now) then counted + 1 else counted)) }
    ensures in_place { DropsOnly change.now → IsOk result }
{
    if is_durable(change) {
        return counted.checked_add(1).ok_or(WorldError::TooGreat);
    }
    Ok(counted)
}

/// How many entries the session has.
pub fn entries_of(sessions: &[SessionRow], session: u64) -> u64
    ensures { result ≡ entries_in sessions.now session }
{
    match sessions.iter().find(|row| row.session == session) {
        Some(row) => row.entries,
        None => 0,
    }
}
