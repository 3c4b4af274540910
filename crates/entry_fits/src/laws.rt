//! Laws of the entries that a log may hold. Each is a function that does nothing, whose contract says the law.
ghost use Rattle.entry_fits.specs.Laws.{AcceptedFits, FittingAreKept, FittingArePlaced, FittingBegin, OneMoreFits};

/// The entry of an accepted counted change fits after the kept entries of the history before it. The limits allow not
/// more content than any may, the history's changes were placed, and the serials of its sessions count up.
pub fn accepted_fits()
    ensures { AcceptedFits }
{}

/// Entries that fit one after the other are all kept.
pub fn fitting_are_kept()
    ensures { FittingAreKept }
{}

/// Entries that fit one after the other are placed.
pub fn fitting_are_placed()
    ensures { FittingArePlaced }
{}

/// A back end that begins again with entries that fit one after the other has a history of placed changes, in which the
/// serials of sessions count up.
pub fn fitting_begin()
    ensures { FittingBegin }
{}

/// An entry that fits after entries that fit one after the other makes a longer list of such entries.
pub fn one_more_fits()
    ensures { OneMoreFits }
{}
