//! Edits of the world's lists. Those that may need memory build what is new before anything changes.
ghost use Rattle.std.specs.Prelude.{◌≡◌, ℕ, ◌+◌, ◌==◌, ◌&&◌, ◌≤◌, not, ◌++◌, length, map, filter, nat_le, IfOk, OnOk, OnErr};
ghost use Rattle.world_rules.specs.World.{is_same, is_text_of, content_address};
ghost use Rattle.world_rules.specs.Edits.{moves_up, up_by, new_rows, new_bytes, rows_with, content_addresses, moved_to, rows_as};
ghost use Rattle.world_rules.specs.Apply.{without_session, accounts_without, without_opening};

use febe_data::{List, Memory, Tumbler};
use std::alloc::Global;
use world_rules::{AccountRow, ByteRow, OpenRow, Part, Row, WorldError, extended};

/// The address of a content byte, where it is a tumbler.
fn content_address(document: &Tumbler, n: u32) -> Result<Tumbler, WorldError>
    ensures { IfOk result (λ address. address ≡ content_address document.now n) }
{
    extended(document, &[0, 1, n])
}

/// The next number, where the type has it.
fn one_more(n: u32) -> Result<u32, WorldError>
    ensures { IfOk result (λ next. next ≡ n + 1) }
{
    n.checked_add(1).ok_or(WorldError::TooGreat)
}

/// The content addresses of so many bytes from `first` on, where they are tumblers.
#[tactic(auto, using(crate::proofs::Edited::edited))]
pub fn content_addresses(
    alloc: Global,
    document: &Tumbler,
    mut first: u32,
    count: usize,
) -> Result<List<Tumbler>, WorldError>
    ensures { IfOk result (λ made. made.items ≡ content_addresses document.now first count) }
{
    let mut made = List::new(alloc);
    for _ in 0..count {
        made.push(content_address(document, first)?)?;
        first = one_more(first)?;
    }
    Ok(made)
}

/// Adds the rows that do not make room at `n`.
#[tactic(auto, using(std::proofs::lemmas::List::Elements::filter_more))]
pub fn push_staying(
    made: &mut List<Row>,
    rows: &[Row],
    document: &Tumbler,
    n: u32,
) -> Result<(), Memory>
    ensures { OnOk result (made.new.items ≡ made.old.items ++ filter (λ row. not (moves_up document.now n row)) rows.now) }
{
    for row in rows {
        if !row.moves_up(document, n) {
            made.push(row.copy())?;
        }
    }
    Ok(())
}

/// Adds the rows that make room at `n`, moved up by `k`.
#[tactic(auto, using(std::proofs::lemmas::List::Elements::filter_more))]
pub fn push_moved(
    made: &mut List<Row>,
    rows: &[Row],
    document: &Tumbler,
    n: u32,
    k: u32,
) -> Result<(), WorldError>
    ensures { OnOk result (made.new.items ≡ made.old.items ++ map (up_by k) (filter (moves_up document.now n) rows.now)) }
{
    for row in rows {
        if row.moves_up(document, n) {
            let mut moved = row.copy();
            moved.n = row.n.checked_add(k).ok_or(WorldError::TooGreat)?;
            made.push(moved)?;
        }
    }
    Ok(())
}

/// Adds one row for each address, at `n` of the document's text and on.
fn push_new(
    made: &mut List<Row>,
    document: &Tumbler,
    mut n: u32,
    addresses: &[Tumbler],
) -> Result<(), WorldError>
    ensures { OnOk result (made.new.items ≡ made.old.items ++ new_rows document.now n addresses.now) }
{
    for address in addresses {
        made.push(Row {
            document: document.copy(),
            part: Part::Text,
            n,
            address: address.copy(),
        })?;
        n = one_more(n)?;
    }
    Ok(())
}

/// The rows that come behind those that stay: one for each address, and those that make room for them.
fn rows_behind(
    alloc: Global,
    rows: &[Row],
    document: &Tumbler,
    n: u32,
    addresses: &[Tumbler],
) -> Result<List<Row>, WorldError>
    ensures { IfOk result (λ made. made.items ≡ new_rows document.now n addresses.now ++ map (up_by (length addresses.now)) (filter (moves_up document.now n) rows.now)) }
{
    let k = u32::try_from(addresses.len()).map_err(|_| WorldError::TooGreat)?;
    let mut made = List::new(alloc);
    push_new(&mut made, document, n, addresses)?;
    push_moved(&mut made, rows, document, n, k)?;
    Ok(made)
}

/// Drops the rows that make room at `n`, in place.
fn keep_staying(rows: &mut List<Row>, document: &Tumbler, n: u32)
    ensures rows { rows.new.items ≡ filter (λ row. not (moves_up document.now n row)) rows.old.items }
    ensures spare { rows.new.spare ≡ rows.old.spare }
{
    rows.retain(|row| !row.moves_up(document, n));
}

/// Puts the addresses in at `n` of the document's text. The rows that stay are not copied.
pub fn put_rows(
    alloc: Global,
    rows: &mut List<Row>,
    document: &Tumbler,
    n: u32,
    addresses: &[Tumbler],
) -> Result<(), WorldError>
    ensures ok { OnOk result (rows.new.items ≡ rows_with rows.old.items document.now n addresses.now) }
    ensures err { OnErr result (rows.new.items ≡ rows.old.items) }
{
    let behind = rows_behind(alloc, rows.as_slice(), document, n, addresses)?;
    rows.reserve(behind.len())?;
    keep_staying(rows, document, n);
    append_rows(rows, behind.as_slice());
    Ok(())
}

/// The content bytes that an insert adds.
pub fn new_bytes(
    alloc: Global,
    document: &Tumbler,
    mut first: u32,
    text: &[u8],
) -> Result<List<ByteRow>, WorldError>
    ensures { IfOk result (λ made. made.items ≡ new_bytes document.now first text.now) }
{
    let mut made = List::new(alloc);
    for byte in text {
        let address = content_address(document, first)?;
        made.push(ByteRow {
            address,
            byte: *byte,
        })?;
        first = one_more(first)?;
    }
    Ok(made)
}

/// Adds these bytes at the end. It takes no memory.
pub fn append_bytes(bytes: &mut List<ByteRow>, fresh: &[ByteRow])
    requires { length fresh.now ≤ bytes.old.spare }
    ensures { bytes.new.items ≡ bytes.old.items ++ fresh.now }
{
    for row in fresh {
        bytes.push_reserved(ByteRow {
            address: row.address.copy(),
            byte: row.byte,
        });
    }
}

/// The rows of the source, as those of the document.
#[tactic(auto, using(std::proofs::lemmas::List::Elements::filter_more))]
pub fn rows_as(
    alloc: Global,
    rows: &[Row],
    source: &Tumbler,
    document: &Tumbler,
) -> Result<List<Row>, Memory>
    ensures { IfOk result (λ made. made.items ≡ rows_as rows.now source.now document.now) }
{
    let mut made = List::new(alloc);
    for row in rows {
        if row.document == *source {
            let mut moved = row.copy();
            moved.document = document.copy();
            made.push(moved)?;
        }
    }
    Ok(made)
}

/// Adds these rows at the end. It takes no memory.
pub fn append_rows(rows: &mut List<Row>, fresh: &[Row])
    requires { length fresh.now ≤ rows.old.spare }
    ensures { rows.new.items ≡ rows.old.items ++ fresh.now }
{
    for row in fresh {
        rows.push_reserved(row.copy());
    }
}

/// Drops what the session had open, in place.
pub fn close_session(rows: &mut List<OpenRow>, session: u64)
    ensures { rows.new.items ≡ without_session session rows.old.items }
{
    rows.retain(|row| row.session != session);
}

/// Drops the session's account, in place.
pub fn drop_account(rows: &mut List<AccountRow>, session: u64)
    ensures rows { rows.new.items ≡ accounts_without session rows.old.items }
    ensures spare { rows.new.spare ≡ rows.old.spare }
{
    rows.retain(|row| row.session != session);
}

/// Drops what the session had the document open for, in place.
pub fn close_opening(rows: &mut List<OpenRow>, session: u64, document: &Tumbler)
    ensures rows { rows.new.items ≡ without_opening session document.now rows.old.items }
    ensures spare { rows.new.spare ≡ rows.old.spare }
{
    rows.retain(|row| !(row.session == session && row.document == *document));
}
