//! What a request that is not refused changes, and what it is answered then.
ghost use Rattle.std.specs.Prelude.{◌≡◌, ◌≢◌, ◌+◌, ◌-◌, ◌<◌, ◌≤◌, ◌^◌, ◌∷◌, [], length, map, Some, IsOk, IfOk, slice_index, ◌++◌};
ghost use Rattle.tumbler.specs.Places.{most_places, place, IsTumbler};
ghost use Rattle.febe_data.specs.Plain.{plain_spec, plain_reply, create, version, opens, inserted, copied, rearranged, deleted, linked, account_set, closed, account_changed, copy_opened, document_opened, opened, published, document_closed, text_inserted, span_deleted, blocks_swapped, specs_copied, link_made, document_published};
ghost use Rattle.febe_data.specs.Validity.{IsReply};
ghost use Rattle.world_rules.specs.World.{is_of_account, version_for, content_length, links_made_in, link_length, link_address};
ghost use Rattle.world_rules.specs.FlatView.{FlatView};
ghost use Rattle.world_rules.specs.Refusals.{position_of};
ghost use Rattle.world_rules.specs.Effects.{effect, document_to_come, version_to_come};
ghost use Rattle.world_rules.specs.PlainEffect.{plain_effect};

use crate::copies::clone_specs;
use crate::errors::WorldError;
use crate::lookups::LookUp;
use crate::opening::opens_version;
use febe_data::bounds::MOST_DOCUMENT_PLACES;
use febe_data::{Change, List, Memory, Mode, Reply, Rule, Span, Spec, Tumbler};
use std::alloc::Global;

/// A change, and the reply to it.
#[derive(Debug, Drop)]
pub struct Effect {
    pub change: Change,
    pub reply: Reply,
}

/// The n of a V-address `1.n`.
fn position_of(at: &Tumbler) -> u32
    ensures { result ≡ position_of at.now }
{
    let places = at.places();
    if places.len() < 2 {
        return 0;
    }
    places[1]
}

/// The n of each V-address.
pub(crate) fn positions_of(alloc: Global, cuts: &[Tumbler]) -> Result<List<u32>, Memory>
    ensures { IfOk result (λ made. made.items ≡ map position_of cuts.now) }
{
    let mut positions = List::new(alloc);
    for cut in cuts {
        positions.push(position_of(cut))?;
    }
    Ok(positions)
}

/// One more than the count, where a place can hold it.
pub fn one_more_than(count: usize) -> Result<u32, WorldError>
    ensures value { IfOk result (λ number. number ≡ count + 1) }
    ensures accepted { count + 1 < 2 ^ 32 → IsOk result }
{
    let count = u32::try_from(count).map_err(|_| WorldError::TooGreat)?;
    count.checked_add(1).ok_or(WorldError::TooGreat)
}

/// The tumbler of these places and then the tail, where there is one.
pub fn extended(address: &Tumbler, tail: &[u32]) -> Result<Tumbler, WorldError>
    ensures value { IfOk result (λ longer. longer ≡ address.now ++ tail.now) }
    ensures valid { IfOk result IsTumbler }
    ensures accepted { length address.now + length tail.now ≤ most_places → (0 < length tail.now → place tail.now (length tail.now - 1) ≢ 0) → IsOk result }
{
    let longer = address.extended(tail).map_err(|_| WorldError::NoTumbler)?;
    let _ = longer.places();
    Ok(longer)
}

/// Whether the document is one of the account's.
#[tactic(auto, using(crate::proofs::Fronts::accounts))]
pub fn is_of_account(account: &Tumbler, document: &Tumbler) -> bool
    ensures { result ≡ is_of_account account.now document.now }
{
    let account = account.places();
    let document = document.places();
    if document.len() <= account.len() {
        return false;
    }
    let (front, rest) = document.split_at(account.len());
    front == account && rest[0] == 0
}

/// What an insert does.
pub(crate) fn insert_effect<W: LookUp>(
    world: &W,
    alloc: Global,
    document: &Tumbler,
    at: &Tumbler,
    text: &[u8],
) -> Result<Effect, WorldError>
    ensures made { (view : FlatView) → W.stands world.now view → IfOk result (λ made. plain_effect made ≡ record { change = text_inserted document.now (position_of at.now) (content_length view.world document.now + 1) text.now; reply = inserted }) }
    ensures valid { IfOk result (λ made. IsReply (plain_reply made.reply)) }
{
    let first = world.next_content(document)?;
    let text = List::from_slice(alloc, text)?;
    Ok(Effect {
        change: Change::Insert {
            document: document.copy(),
            at: position_of(at),
            first,
            text,
        },
        reply: Reply::Inserted,
    })
}

/// What a copy does.
pub(crate) fn copy_effect(
    alloc: Global,
    document: &Tumbler,
    at: &Tumbler,
    specs: &[Spec],
) -> Result<Effect, WorldError>
    ensures made { IfOk result (λ made. plain_effect made ≡ record { change = specs_copied document.now (position_of at.now) (map plain_spec specs.now); reply = copied }) }
    ensures valid { IfOk result (λ made. IsReply (plain_reply made.reply)) }
{
    let specs = clone_specs(alloc, specs)?;
    Ok(Effect {
        change: Change::Copy {
            document: document.copy(),
            at: position_of(at),
            specs,
        },
        reply: Reply::Copied,
    })
}

/// What a rearrange does.
pub(crate) fn rearrange_effect(
    alloc: Global,
    document: &Tumbler,
    cuts: &[Tumbler],
) -> Result<Effect, WorldError>
    ensures made { IfOk result (λ made. plain_effect made ≡ record { change = blocks_swapped document.now (map position_of cuts.now); reply = rearranged }) }
    ensures valid { IfOk result (λ made. IsReply (plain_reply made.reply)) }
{
    let cuts = positions_of(alloc, cuts)?;
    Ok(Effect {
        change: Change::Rearrange {
            document: document.copy(),
            cuts,
        },
        reply: Reply::Rearranged,
    })
}

/// What a delete does.
pub(crate) fn delete_effect(document: &Tumbler, span: &Span) -> Effect
    ensures made { plain_effect result ≡ record { change = span_deleted document.now span.now; reply = deleted } }
    ensures valid { IsReply (plain_reply result.reply) }
{
    Effect {
        change: Change::Delete {
            document: document.copy(),
            span: span.copy(),
        },
        reply: Reply::Deleted,
    }
}

/// The document that a create of the session makes.
fn document_to_come<W: LookUp>(world: &W, session: u64) -> Result<Tumbler, WorldError>
    ensures value { (view : FlatView) → W.stands world.now view → IfOk result (λ document. document ≡ document_to_come view.world session) }
    ensures valid { IfOk result IsTumbler }
{
    let Some(account) = world.account_of_session(session) else {
        return Err(WorldError::NoAccount);
    };
    world.next_document(&account)
}

/// What a create does.
pub(crate) fn create_effect<W: LookUp>(world: &W, session: u64) -> Result<Effect, WorldError>
    ensures made { (view : FlatView) → W.stands world.now view → IfOk result (λ made. effect view.world session create ≡ Some (plain_effect made)) }
    ensures valid { IfOk result (λ made. IsReply (plain_reply made.reply)) }
{
    let document = document_to_come(world, session)?;
    Ok(Effect {
        reply: Reply::Created(document.copy()),
        change: Change::Create { document },
    })
}

/// The version of the source that a maker of the account makes.
fn version_for<W: LookUp>(
    world: &W,
    source: &Tumbler,
    account: &Tumbler,
) -> Result<Tumbler, WorldError>
    ensures value { (view : FlatView) → W.stands world.now view → IfOk result (λ document. document ≡ version_for view.world source.now account.now) }
    ensures valid { IfOk result IsTumbler }
{
    if is_of_account(account, source) && source.places().len() < MOST_DOCUMENT_PLACES {
        return world.next_version(source);
    }
    world.next_document(account)
}

/// The version of the document that the session makes.
fn version_to_come<W: LookUp>(
    world: &W,
    session: u64,
    source: &Tumbler,
) -> Result<Tumbler, WorldError>
    ensures value { (view : FlatView) → W.stands world.now view → IfOk result (λ document. document ≡ version_to_come view.world session source.now) }
    ensures valid { IfOk result IsTumbler }
{
    let Some(account) = world.account_of_session(session) else {
        return Err(WorldError::NoAccount);
    };
    version_for(world, source, &account)
}

/// What a version does.
pub(crate) fn version_effect<W: LookUp>(
    world: &W,
    session: u64,
    source: &Tumbler,
) -> Result<Effect, WorldError>
    ensures made { (view : FlatView) → W.stands world.now view → IfOk result (λ made. effect view.world session (version source.now) ≡ Some (plain_effect made)) }
    ensures valid { IfOk result (λ made. IsReply (plain_reply made.reply)) }
{
    let document = version_to_come(world, session, source)?;
    Ok(Effect {
        reply: Reply::Versioned(document.copy()),
        change: Change::Version {
            source: source.copy(),
            document,
        },
    })
}

/// What opening a version of the document does.
fn version_opened<W: LookUp>(
    world: &W,
    session: u64,
    source: &Tumbler,
) -> Result<Effect, WorldError>
    ensures made { (view : FlatView) → W.stands world.now view → IfOk result (λ made. plain_effect made ≡ record { change = copy_opened source.now (version_to_come view.world session source.now); reply = opened (version_to_come view.world session source.now) }) }
    ensures valid { IfOk result (λ made. IsReply (plain_reply made.reply)) }
{
    let document = version_to_come(world, session, source)?;
    Ok(Effect {
        reply: Reply::Opened(document.copy()),
        change: Change::OpenCopy {
            source: source.copy(),
            document,
        },
    })
}

/// What opening the document itself does.
fn document_opened(document: &Tumbler, mode: Mode) -> Effect
    ensures made { plain_effect result ≡ record { change = document_opened document.now mode; reply = opened document.now } }
    ensures valid { IsReply (plain_reply result.reply) }
{
    let _ = document.places();
    Effect {
        change: Change::Open {
            document: document.copy(),
            mode,
        },
        reply: Reply::Opened(document.copy()),
    }
}

/// What opening does.
pub(crate) fn open_effect<W: LookUp>(
    world: &W,
    session: u64,
    document: &Tumbler,
    mode: Mode,
    rule: Rule,
) -> Result<Effect, WorldError>
    ensures made { (view : FlatView) → W.stands world.now view → IfOk result (λ made. effect view.world session (opens document.now mode rule) ≡ Some (plain_effect made)) }
    ensures valid { IfOk result (λ made. IsReply (plain_reply made.reply)) }
{
    if opens_version(world, session, document, mode, rule) {
        return version_opened(world, session, document);
    }
    Ok(document_opened(document, mode))
}

/// What closing does.
pub(crate) fn close_effect(document: &Tumbler) -> Effect
    ensures made { plain_effect result ≡ record { change = document_closed document.now; reply = closed } }
    ensures valid { IsReply (plain_reply result.reply) }
{
    Effect {
        change: Change::Close {
            document: document.copy(),
        },
        reply: Reply::Closed,
    }
}

/// What publishing does.
pub(crate) fn publish_effect(document: &Tumbler) -> Effect
    ensures made { plain_effect result ≡ record { change = document_published document.now; reply = published } }
    ensures valid { IsReply (plain_reply result.reply) }
{
    Effect {
        change: Change::Publish {
            document: document.copy(),
        },
        reply: Reply::Published,
    }
}

/// What setting an account does.
pub(crate) fn account_effect(account: &Tumbler) -> Effect
    ensures made { plain_effect result ≡ record { change = account_changed account.now; reply = account_set } }
    ensures valid { IsReply (plain_reply result.reply) }
{
    Effect {
        change: Change::Account {
            account: account.copy(),
        },
        reply: Reply::AccountSet,
    }
}

/// What the making of a link does.
pub(crate) fn link_effect<W: LookUp>(
    world: &W,
    alloc: Global,
    home: &Tumbler,
    from: &[Spec],
    to: &[Spec],
    three: &[Spec],
) -> Result<Effect, WorldError>
    ensures made { (view : FlatView) → W.stands world.now view → IfOk result (λ made. plain_effect made ≡ record { change = link_made home.now (links_made_in view.world home.now + 1) (link_length view.world home.now + 1) (map plain_spec from.now) (map plain_spec to.now) (map plain_spec three.now); reply = linked (link_address home.now (links_made_in view.world home.now + 1)) }) }
    ensures valid { IfOk result (λ made. IsReply (plain_reply made.reply)) }
{
    let number = world.next_link(home)?;
    let place = one_more_than(world.link_length(home))?;
    let id = extended(home, &[0, 2, number])?;
    let from = clone_specs(alloc, from)?;
    let to = clone_specs(alloc, to)?;
    let three = clone_specs(alloc, three)?;
    Ok(Effect {
        change: Change::Link {
            home: home.copy(),
            number,
            place,
            from,
            to,
            three,
        },
        reply: Reply::Linked(id),
    })
}
