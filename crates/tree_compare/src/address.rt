//! Addresses that come so many after others.
ghost use Rattle.std.specs.Prelude.{◌≡◌, ◌≢◌, ◌+◌, ◌^◌, ◌<◌, ◌↔◌, [], IsTrue};
ghost use Rattle.granfilade.specs.Content.{so_far_on};

use tumbler::Tumbler;

/// Whether the address that comes so many after one is the one that comes so many after another.
///
/// Such addresses differ from the first one at the last place alone.
pub(crate) fn meet(one: &Tumbler, behind: usize, other: &Tumbler, further: usize) -> bool
    requires one { one.now ≢ [] }
    requires other { other.now ≢ [] }
    requires few { behind < 2 ^ 32 }
    requires also { further < 2 ^ 32 }
    ensures { IsTrue result ↔ so_far_on one.now behind ≡ so_far_on other.now further }
{
    let Some((last, front)) = one.places().split_last() else {
        return false;
    };
    let Some((wanted, beside)) = other.places().split_last() else {
        return false;
    };
    if front != beside {
        return false;
    }
    *last as usize + behind == *wanted as usize + further
}
