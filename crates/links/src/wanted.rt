//! What is asked of the ends, with spans that are sorted and joined: each run is then tested by one of them alone.
ghost use Rattle.std.specs.Prelude.{IfOk};
ghost use Rattle.links.specs.Finding.{SpansFit, EndsFit};
ghost use Rattle.links.specs.inside.Joined.{SpansJoined, EndsJoined, AsksTheSame, WantsTheSame};

use crate::row::WantedEnds;
use spanfilade::joined;
use std::alloc::Global;
use tumbler::{List, Memory, Span};

/// The spans that are given for an end, sorted and joined.
fn joined_end(alloc: Global, spans: &Option<List<Span>>) -> Result<Option<List<Span>>, Memory>
    requires { SpansFit spans.now }
    ensures joined { IfOk result SpansJoined }
    ensures same { IfOk result (λ made. AsksTheSame made spans.now) }
{
    let Some(spans) = spans else {
        return Ok(None);
    };
    let made = joined(alloc, spans.as_slice())?;
    Ok(Some(made))
}

/// What is asked of the three ends, with the spans of each sorted and joined.
pub(crate) fn joined_ends(alloc: Global, ends: &WantedEnds) -> Result<WantedEnds, Memory>
    requires { EndsFit ends.now }
    ensures joined { IfOk result EndsJoined }
    ensures same { IfOk result (λ made. WantsTheSame made ends.now) }
{
    let from = joined_end(alloc, &ends.from)?;
    let to = joined_end(alloc, &ends.to)?;
    let three = joined_end(alloc, &ends.three)?;
    Ok(WantedEnds { from, to, three })
}
