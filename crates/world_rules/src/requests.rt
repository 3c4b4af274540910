//! Requests as they come: what each is refused for, changes, or is answered, by any world that answers the look-ups.
ghost use Rattle.std.specs.Prelude.{◌≡◌, ◌+◌, None, true, IsOk, IfOk};
ghost use Rattle.std.specs.Option.{option_map};
ghost use Rattle.febe_data.specs.LimitsView.{LimitsView};
ghost use Rattle.febe_data.specs.Plain.{plain_request, plain_reply, plain_entry};
ghost use Rattle.febe_data.specs.Validity.{IsReply};
ghost use Rattle.world_rules.specs.Effects.{effect};
ghost use Rattle.world_rules.specs.FlatView.{FlatView, entry_for};
ghost use Rattle.world_rules.specs.PlainEffect.{plain_effect};
ghost use Rattle.world_rules.specs.Served.{IsServedAs, IsValidServed, reply_for};
ghost use Rattle.world_rules.specs.Queries.{is_query};

use crate::effects::{
    Effect, account_effect, close_effect, copy_effect, create_effect, delete_effect, insert_effect,
    link_effect, open_effect, publish_effect, rearrange_effect, version_effect,
};
use crate::errors::WorldError;
use crate::finding::{serve_count_links, serve_find_links, serve_next_links};
use crate::lookups::Find;
use crate::making::{serve_create, serve_create_link, serve_version};
use crate::opening::{serve_account, serve_close, serve_open};
use crate::reading::{
    serve_end_sets, serve_find_documents, serve_follow, serve_relate, serve_retrieve,
    serve_span_set, serve_whole_span,
};
use crate::writing::{serve_copy, serve_delete, serve_insert, serve_publish, serve_rearrange};
use febe_data::{Change, Entry, Limits, Memory, Refusal, Reply, Request};
use std::alloc::Global;

/// What comes of a request.
#[derive(Debug, Drop)]
pub enum Served {
    /// It is refused, and nothing changes.
    Refused(Refusal),
    /// It makes this change, and is answered so once the change is made.
    Changed(Effect),
    /// It is a query, and this is its answer.
    Answered(Reply),
}

/// What comes of a request of the session. The world stays as it is. A quit takes no memory.
pub fn serve<W: Find>(
    world: &W,
    alloc: Global,
    session: u64,
    request: &Request,
    limits: &Limits,
) -> Result<Served, Memory>
    ensures served { (view : FlatView) → W.stands world.now view → IfOk result (IsServedAs limits.now view session (plain_request request.now)) }
    ensures valid { (view : FlatView) → W.stands world.now view → IfOk result IsValidServed }
    ensures quit { request.now ≡ Request.Quit → IsOk result }
{
    Ok(serve_request(world, alloc, session, request, limits)?)
}

/// The same, with what stood in the way.
fn serve_request<W: Find>(
    world: &W,
    alloc: Global,
    session: u64,
    request: &Request,
    limits: &Limits,
) -> Result<Served, WorldError>
    ensures served { (view : FlatView) → W.stands world.now view → IfOk result (IsServedAs limits.now view session (plain_request request.now)) }
    ensures valid { (view : FlatView) → W.stands world.now view → IfOk result IsValidServed }
    ensures quit { request.now ≡ Request.Quit → IsOk result }
{
    match request {
        Request::Insert { document, at, text } => {
            serve_insert(world, alloc, session, document, at, text.as_slice(), limits)
        }
        Request::Copy {
            document,
            at,
            specs,
        } => serve_copy(
            world,
            alloc,
            session,
            document,
            at,
            specs.as_slice(),
            limits,
        ),
        Request::Rearrange { document, cuts } => {
            serve_rearrange(world, alloc, session, document, cuts.as_slice(), limits)
        }
        Request::Create => serve_create(world, session, limits),
        Request::Delete { document, span } => {
            Ok(serve_delete(world, session, document, span, limits))
        }
        Request::Version { document } => serve_version(world, session, document, limits),
        Request::Quit => Ok(Served::Changed(Effect {
            change: Change::End,
            reply: Reply::Quit,
        })),
        Request::CreateLink {
            home,
            from,
            to,
            three,
        } => {
            let (from, to, three) = (from.as_slice(), to.as_slice(), three.as_slice());
            serve_create_link(world, alloc, session, home, from, to, three, limits)
        }
        Request::Account { account } => Ok(serve_account(account)),
        Request::Open {
            document,
            mode,
            rule,
        } => serve_open(world, session, document, *mode, *rule, limits),
        Request::Close { document } => Ok(serve_close(world, session, document)),
        Request::Publish { document } => Ok(serve_publish(world, session, document, limits)),
        query => serve_query(world, alloc, session, query),
    }
}

/// What comes of a request that changes nothing.
fn serve_query<W: Find>(
    world: &W,
    alloc: Global,
    session: u64,
    request: &Request,
) -> Result<Served, WorldError>
    requires { is_query (plain_request request.now) ≡ true }
    ensures served { (view : FlatView) (limits : LimitsView) → W.stands world.now view → IfOk result (IsServedAs limits view session (plain_request request.now)) }
    ensures valid { (view : FlatView) → W.stands world.now view → IfOk result IsValidServed }
{
    match request {
        Request::SpanSet { document } => serve_span_set(world, alloc, session, document),
        Request::WholeSpan { document } => serve_whole_span(world, alloc, session, document),
        Request::Retrieve { specs } => serve_retrieve(world, alloc, session, specs.as_slice()),
        Request::Relate { left, right } => serve_relate(world, alloc, session, left, right),
        Request::Follow { link, end } => serve_follow(world, alloc, session, link, *end),
        Request::FindDocuments { specs } => {
            serve_find_documents(world, alloc, session, specs.as_slice())
        }
        Request::EndSets { specs } => serve_end_sets(world, alloc, session, specs.as_slice()),
        Request::CountLinks { want } => serve_count_links(world, alloc, session, want),
        Request::FindLinks { want } => serve_find_links(world, alloc, session, want),
        Request::NextLinks { want, after, limit } => {
            serve_next_links(world, alloc, session, want, after, *limit)
        }
        _ => unreachable!(),
    }
}

/// What a request is told: its refusal, the reply to its change, or its answer. The world stays as it is.
pub fn answer<W: Find>(
    world: &W,
    alloc: Global,
    session: u64,
    request: &Request,
    limits: &Limits,
) -> Result<Reply, Memory>
    ensures reply { (view : FlatView) → W.stands world.now view → IfOk result (λ reply. plain_reply reply ≡ reply_for limits.now view session (plain_request request.now)) }
    ensures valid { (view : FlatView) → W.stands world.now view → IfOk result (λ reply. IsReply (plain_reply reply)) }
    ensures quit { request.now ≡ Request.Quit → IsOk result }
{
    Ok(
        match serve_request(world, alloc, session, request, limits)? {
            Served::Refused(refusal) => Reply::Refused(refusal),
            Served::Changed(made) => made.reply,
            Served::Answered(reply) => reply,
        },
    )
}

/// What a request changes, and how it is answered then; none where it is a query.
fn request_effect<W: Find>(
    world: &W,
    alloc: Global,
    session: u64,
    request: &Request,
) -> Result<Option<Effect>, WorldError>
    ensures { (view : FlatView) → W.stands world.now view → IfOk result (λ made. option_map plain_effect made ≡ effect view.world session (plain_request request.now)) }
{
    Ok(Some(match request {
        Request::Insert { document, at, text } => {
            insert_effect(world, alloc, document, at, text.as_slice())?
        }
        Request::Copy {
            document,
            at,
            specs,
        } => copy_effect(alloc, document, at, specs.as_slice())?,
        Request::Rearrange { document, cuts } => {
            rearrange_effect(alloc, document, cuts.as_slice())?
        }
        Request::Create => create_effect(world, session)?,
        Request::Delete { document, span } => delete_effect(document, span),
        Request::Version { document } => version_effect(world, session, document)?,
        Request::Quit => Effect {
            change: Change::End,
            reply: Reply::Quit,
        },
        Request::CreateLink {
            home,
            from,
            to,
            three,
        } => {
            let (from, to, three) = (from.as_slice(), to.as_slice(), three.as_slice());
            link_effect(world, alloc, home, from, to, three)?
        }
        Request::Account { account } => account_effect(account),
        Request::Open {
            document,
            mode,
            rule,
        } => open_effect(world, session, document, *mode, *rule)?,
        Request::Close { document } => close_effect(document),
        Request::Publish { document } => publish_effect(document),
        _ => return Ok(None),
    }))
}

/// The entry that a request of the session makes where nothing refuses it; none where it is a query. A change that is
/// refused may have an entry here too, which no history gets, or there is no memory for it.
pub fn entry<W: Find>(
    world: &W,
    alloc: Global,
    session: u64,
    request: &Request,
) -> Result<Option<Entry>, Memory>
    ensures { (view : FlatView) → W.stands world.now view → IfOk result (λ entry. option_map plain_entry entry ≡ entry_for view session (plain_request request.now)) }
{
    let Some(made) = request_effect(world, alloc, session, request)? else {
        return Ok(None);
    };
    let serial = world.entries_of(session).checked_add(1).ok_or(Memory)?;
    Ok(Some(Entry {
        session,
        serial,
        change: made.change,
    }))
}
