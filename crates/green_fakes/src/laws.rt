//! Laws of what a crash may leave. Each is a function that does nothing, whose contract says the law.
ghost use Rattle.green_fakes.specs.DiskModel.{CallsAreModelled, ImagesAreModelled, ModelledAreImages};

/// Amid a write a crash leaves just the contents whose end is between the old one and the greatest, and whose bytes
/// beside the range are the old ones; amid a cut, just the fronts that are no shorter than the cut makes them.
pub fn calls_are_modelled()
    ensures { CallsAreModelled }
{}

/// Since an area was last made stable, a crash leaves its end between the least and the greatest that it had, and each
/// byte that was not written since then as it was.
pub fn images_are_modelled()
    ensures { ImagesAreModelled }
{}

/// Where no cut came since an area was last made stable, a crash may leave all that the law on images allows.
pub fn modelled_are_images()
    ensures { ModelledAreImages }
{}
