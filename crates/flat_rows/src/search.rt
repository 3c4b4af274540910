//! Look-ups in the world's lists, by scans.
ghost use Rattle.std.specs.Prelude.{◌≡◌, ◌+◌, ◌==◌, ◌&&◌, ◌<◌, ◌^◌, ◌↔◌, ◌∷◌, [], ◌++◌, IsTrue, length, take, count_by, nat_eq, not, map, IfOk, IsOk, ◌-◌, ◌≤◌};
ghost use Rattle.std.specs.List.{list_any, find};
ghost use Rattle.tumbler.specs.Places.{IsTumbler};
ghost use Rattle.tumbler.specs.Address.{most_document_places};
ghost use Rattle.std.specs.Option.{option_map, option_copied};
ghost use Rattle.std.specs.Ordering.{nat_cmp, is_le, is_lt};
ghost use Rattle.std.specs.Cmp.Lexicographic.{slice_cmp};
ghost use Rattle.world_rules.specs.Picking.{is_within, is_between};
ghost use Rattle.world_rules.specs.Holding.{opens_for_writing};
ghost use Rattle.world_rules.specs.Readable.{is_readable_by};
ghost use Rattle.flat_rows.specs.PlainLink.{plain_link};
ghost use Rattle.world_rules.specs.World.{is_same, is_child_of, is_text, is_text_of, is_link_of, opens, is_write, is_of_account, part_number, next_below, content_length_of, LinkRow};

use crate::links::LinkRow;
use febe_data::{Mode, Tumbler};
use world_rules::{
    AccountRow, ByteRow, OpenRow, Row, WorldError, extended, is_owned_by, one_more_than,
};

/// Whether the document is there.
pub fn has_document(documents: &[Tumbler], document: &Tumbler) -> bool
    ensures { result ≡ list_any (λ d. is_same d document.now) documents.now }
{
    documents.contains(document)
}

/// Whether the account reads the document: it is one of the published ones, or the account's own.
pub fn is_readable(published: &[Tumbler], account: &Option<Tumbler>, document: &Tumbler) -> bool
    ensures { result ≡ is_readable_by published.now account.now document.now }
{
    has_document(published, document) || is_owned_by(account, document)
}

/// The account that the session has set, if it has.
pub fn account_of_session(accounts: &[AccountRow], session: u64) -> Option<Tumbler>
    ensures { result ≡ option_map (λ r. r.account) (find (λ r. r.session == session) accounts.now) }
{
    accounts
        .iter()
        .find(|row| row.session == session)
        .map(|row| row.account.copy())
}

/// What the session has the document open for, if it has it open.
pub fn mode_of(rows: &[OpenRow], session: u64, document: &Tumbler) -> Option<Mode>
    ensures { result ≡ option_map (λ r. r.mode) (find (opens session document.now) rows.now) }
{
    rows.iter()
        .find(|row| row.session == session && row.document == *document)
        .map(|row| row.mode)
}

/// The first session that has the document open for writing, if one has.
pub fn holder_of(rows: &[OpenRow], document: &Tumbler) -> Option<u64>
    ensures { result ≡ option_map (λ r. r.session) (find (opens_for_writing document.now) rows.now) }
{
    rows.iter()
        .find(|row| row.document == *document && row.mode == Mode::Write)
        .map(|row| row.session)
}

/// How many positions the document's text has.
pub fn text_length(rows: &[Row], document: &Tumbler) -> usize
    ensures { result ≡ count_by (is_text_of document.now) rows.now }
{
    rows.iter().filter(|row| row.is_text_of(document)).count()
}

/// Whether the address is the front and one place more.
fn is_child_of(address: &[u32], front: &[u32]) -> bool
    requires { length front.now < 2 ^ 32 }
    ensures { result ≡ is_child_of front.now address.now }
{
    address.len() == front.len() + 1 && address.split_at(front.len()).0 == front
}

/// How many documents are the front and one place more.
fn children_among(documents: &[Tumbler], front: &[u32]) -> usize
    requires { length front.now < 2 ^ 32 }
    ensures { result ≡ count_by (is_child_of front.now) documents.now }
{
    documents
        .iter()
        .filter(|document| is_child_of(document.places(), front))
        .count()
}

/// How many content bytes have an address that is the front and one place more.
fn content_children(bytes: &[ByteRow], front: &[u32]) -> usize
    requires { length front.now < 2 ^ 32 }
    ensures { result ≡ count_by (λ b. is_child_of front.now b.address) bytes.now }
{
    bytes
        .iter()
        .filter(|row| is_child_of(row.address.places(), front))
        .count()
}

/// The places of the address but the last.
fn front_of(address: &Tumbler) -> &[u32]
    requires { 0 < length address.now }
    ensures { result.now ≡ take (length address.now - 1) address.now }
{
    let places = address.places();
    places.split_at(places.len() - 1).0
}

/// The address of the account's next document, where it is a tumbler.
#[tactic(auto, using(world_rules::proofs::Fronts::fronts))]
pub fn next_document(documents: &[Tumbler], account: &Tumbler) -> Result<Tumbler, WorldError>
    ensures value { IfOk result (λ document. document ≡ next_below documents.now (account.now ++ 0 ∷ [])) }
    ensures accepted { IsTumbler (next_below documents.now (account.now ++ 0 ∷ [])) → IsOk result }
{
    let first = extended(account, &[0, 1])?;
    let number = one_more_than(children_among(documents, front_of(&first)))?;
    extended(account, &[0, number])
}

/// The address of the document's next version, where it is a tumbler.
pub fn next_version(documents: &[Tumbler], document: &Tumbler) -> Result<Tumbler, WorldError>
    ensures value { IfOk result (λ version. version ≡ next_below documents.now document.now) }
    ensures accepted { IsTumbler (next_below documents.now document.now) → IsOk result }
{
    let number = one_more_than(children_among(documents, document.places()))?;
    extended(document, &[number])
}

/// Whether another session holds the document for writing.
pub fn is_held_against(rows: &[OpenRow], session: u64, document: &Tumbler) -> bool
    ensures { result ≡ list_any (λ r. not (r.session == session) && is_same r.document document.now && is_write r.mode) rows.now }
{
    rows.iter().any(|row| {
        row.session != session && row.document == *document && row.mode == Mode::Write
    })
}

/// How many positions the document's links have.
pub fn link_length(rows: &[Row], document: &Tumbler) -> usize
    ensures { result ≡ count_by (is_link_of document.now) rows.now }
{
    rows.iter().filter(|row| row.is_link_of(document)).count()
}

/// The number of the next link that is made in the document.
pub fn next_link(links: &[LinkRow], home: &Tumbler) -> Result<u32, WorldError>
    ensures value { IfOk result (λ n. n ≡ count_by (λ l. is_same l.home home.now) (map plain_link links.now) + 1) }
    ensures accepted { count_by (λ l. is_same l.home home.now) (map plain_link links.now) + 1 < 2 ^ 32 → IsOk result }
{
    one_more_than(links.iter().filter(|link| link.home == *home).count())
}

/// The number of the document's next content byte.
#[tactic(auto, using(world_rules::proofs::Fronts::fronts))]
pub fn next_content(bytes: &[ByteRow], document: &Tumbler) -> Result<u32, WorldError>
    ensures value { IfOk result (λ n. n ≡ content_length_of bytes.now document.now + 1) }
    ensures accepted { length document.now ≤ most_document_places → content_length_of bytes.now document.now + 1 < 2 ^ 32 → IsOk result }
{
    let first = extended(document, &[0, 1, 1])?;
    one_more_than(content_children(bytes, front_of(&first)))
}
