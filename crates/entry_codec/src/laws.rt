//! Laws of bodies. Each is a function that does nothing, whose contract says the law.
ghost use Rattle.entry_codec.specs.Laws.{OneBody, BodySaysLength, OldHasNew, MomentsAreAsLong};

/// No body begins another of its format, and each is the body of one entry with one moment.
pub fn one_body()
    ensures { OneBody }
{}

/// The first bytes of a body say how many more it has.
pub fn body_says_length()
    ensures { BodySaysLength }
{}

/// What has a body in the old format has one in the new.
pub fn old_has_new()
    ensures { OldHasNew }
{}

/// A body is as long whatever its moment is.
pub fn moments_are_as_long()
    ensures { MomentsAreAsLong }
{}
