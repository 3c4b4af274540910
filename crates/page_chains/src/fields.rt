//! The fields of a header, and of the pages of a chain.
ghost use Rattle.std.specs.Prelude.{◌≡◌, ℕ, ◌<◌, length, take, drop, IfSome, IsNone};
ghost use Rattle.std.specs.Int.{w64, from_be_bytes};
ghost use Rattle.page_chains.specs.Headers.{number_at, header_mark};
ghost use Rattle.page_chains.specs.inside.Fields.{IsMarked};

use crate::spelling::MARK;
use crate::start::Start;

/// Page numbers are below this one, and so many pages may be in use.
pub(crate) const NUMBERS: u64 = 1 << 40;

/// A number in eight bytes, high byte first, and what stands behind it. There is none in fewer bytes.
pub(crate) fn split_number(bytes: &[u8]) -> Option<(u64, &[u8])>
    ensures number { IfSome result (λ split. split.0 ≡ from_be_bytes w64 (take 8 bytes.now)) }
    ensures behind { IfSome result (λ split. split.1.now ≡ drop 8 bytes.now) }
    ensures short { IsNone result → length bytes.now < 8 }
{
    let (number, behind) = bytes.split_first_chunk::<8>()?;
    Some((u64::from_be_bytes(*number), behind))
}

/// What names a chain, and what stands behind it. There is none in fewer than sixteen bytes.
pub(crate) fn split_start(bytes: &[u8]) -> Option<(Start, &[u8])>
    ensures first { IfSome result (λ split. split.0.first ≡ number_at 0 bytes.now) }
    ensures count { IfSome result (λ split. split.0.count ≡ number_at 8 bytes.now) }
    ensures behind { IfSome result (λ split. split.1.now ≡ drop 16 bytes.now) }
    ensures short { IsNone result → length bytes.now < 16 }
{
    let (first, rest) = split_number(bytes)?;
    let (count, behind) = split_number(rest)?;
    Some((Start { first, count }, behind))
}

/// A header's position, and what names its chains.
#[derive(Clone, Copy)]
pub(crate) struct Front<'a> {
    /// The position.
    pub(crate) position: u64,
    /// The starts of the chains, and what stands behind them.
    pub(crate) starts: &'a [u8],
}

/// What stands behind the mark of a header. There is none behind other bytes.
fn split_mark(page: &[u8]) -> Option<&[u8]>
    ensures mark { IfSome result (λ behind. take 8 page.now ≡ header_mark) }
    ensures behind { IfSome result (λ behind. behind.now ≡ drop 8 page.now) }
    ensures none { IsNone result → take 8 page.now ≡ header_mark → ⊥ }
{
    if !page.starts_with(&MARK) {
        return None;
    }
    Some(page.split_at(MARK.len()).1)
}

/// The fields in front of a header. There are none where the bytes don't begin as a header does.
pub(crate) fn split_front(page: &[u8]) -> Option<Front<'_>>
    ensures marked { IfSome result (λ front. IsMarked page.now) }
    ensures position { IfSome result (λ front. front.position ≡ number_at 8 page.now) }
    ensures starts { IfSome result (λ front. front.starts.now ≡ drop 24 page.now) }
    ensures none { IsNone result → IsMarked page.now → length page.now < 24 }
{
    let rest = split_mark(page)?;
    let (position, rest) = split_number(rest)?;
    let (used, starts) = split_number(rest)?;
    if used > NUMBERS {
        return None;
    }
    Some(Front { position, starts })
}
