//! The laws of tumblers. Each is a function that does nothing, whose contract says the law.
ghost use Rattle.tumbler.specs.Places.{IsTumbler};
ghost use Rattle.tumbler.specs.Laws.{DifferenceAddsBack, DifferenceUndoesSum, SumsAssociate, SumsFitTogether, SumsKeepOrder, SumsCancel, SumComesAfter, SumIsATumbler, OrderByPlaces, SumByPlaces, DifferenceByPlaces, FitsExactly, DifferenceOfSum, ReachIsExact, ReachIsMoved, ReachIsJoined, JustBeforeStands, AccountTested, CoveredFits};

use crate::tumbler::Tumbler;

/// A tumbler has at most 24 places, each below 2^32, of which the last is not 0.
pub fn is_tumbler(tumbler: &Tumbler)
    ensures { IsTumbler tumbler.now }
{
    let _ = tumbler.places();
}

/// For tumblers a and b with a up to b, the difference of b and a is a tumbler, and adding it
/// to a fits and gives b.
pub fn difference_adds_back()
    ensures { DifferenceAddsBack }
{}

/// The difference of a sum and its start is the displacement that was added, if that does not
/// end in 0.
pub fn difference_undoes_sum()
    ensures { DifferenceUndoesSum }
{}

/// Adding one displacement and then another is adding the sum of the two.
pub fn sums_associate()
    ensures { SumsAssociate }
{}

/// Where adding the first of two displacements fits, adding the second one after it fits
/// exactly where the sum of the two fits and so does adding that sum.
pub fn sums_fit_together()
    ensures { SumsFitTogether }
{}

/// Of two displacements from one place the greater leads further, if it does not end in 0.
pub fn sums_keep_order()
    ensures { SumsKeepOrder }
{}

/// Two displacements that lead from one place to one place are the same, if neither ends in 0.
pub fn sums_cancel()
    ensures { SumsCancel }
{}

/// A displacement that is not zero leads further, if it does not end in 0.
pub fn a_sum_comes_after()
    ensures { SumComesAfter }
{}

/// A sum of tumblers that fits is a tumbler.
pub fn sum_is_a_tumbler()
    ensures { SumIsATumbler }
{}

/// One comes before another that does not end in 0 exactly where it has the lesser at the first
/// place where they differ. A missing place counts as 0.
pub fn order_by_places()
    ensures { OrderByPlaces }
{}

/// A sum has the places of its start before the first place of the displacement that is not 0,
/// the sum of both there, and the displacement's after it. It is as long as the displacement.
pub fn sum_by_places()
    ensures { SumByPlaces }
{}

/// The difference of b and a, with a up to b, is 0 before the first place where they differ,
/// the difference of their places there, and has b's places after it. It is as long as b.
pub fn difference_by_places()
    ensures { DifferenceByPlaces }
{}

/// For tumblers, a displacement fits exactly where the sum is a tumbler.
pub fn fits_exactly()
    ensures { FitsExactly }
{}

/// What leads from a to b plus a displacement is what leads from a to b, plus that displacement, if
/// it does not end in 0.
pub fn difference_of_sum()
    ensures { DifferenceOfSum }
{}

/// What comes up to a displacement fits wherever the displacement's lead covers the base, and it fits itself.
pub fn covered_fits()
    ensures { CoveredFits }
{}

/// Several places fit after a base exactly where the base has room for their reach.
pub fn reach_is_exact()
    ensures { ReachIsExact }
{}

/// Places that are moved by a displacement reach, with the displacement itself, as far as they did
/// and the displacement's lead more.
pub fn reach_is_moved()
    ensures { ReachIsMoved }
{}

/// Two lists of places together reach as far as either of them at each index.
pub fn reach_is_joined()
    ensures { ReachIsJoined }
{}

/// The place just before a tumbler is a tumbler, and comes before it unless that is zero.
pub fn just_before_stands()
    ensures { JustBeforeStands }
{}

/// The test of an account, by what stands before and after its first 0, is true exactly of accounts.
pub fn account_tested()
    ensures { AccountTested }
{}
