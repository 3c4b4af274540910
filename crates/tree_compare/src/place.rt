//! Places in lists that are laid out one after another.
ghost use Rattle.std.specs.Prelude.{◌≡◌, ◌+◌, ◌^◌, ◌<◌, ◌≤◌};
ghost use Rattle.tree_compare.specs.inside.Rests.{IsBehind};

/// A place in items that are laid out one after another, each of them element by element.
#[derive(Clone, Copy)]
pub(crate) struct Place {
    /// Which item it is in, counted from 0.
    pub(crate) item: usize,
    /// How many elements of that item are in front of it.
    pub(crate) within: usize,
}

impl Place {
    /// In front of all.
    pub(crate) fn first() -> Place
        ensures item { result.item ≡ 0 }
        ensures within { result.within ≡ 0 }
    {
        Place { item: 0, within: 0 }
    }

    /// The place so many elements further on, where the item has `long` of them. Behind its last one it is in front of the
    /// next item.
    pub(crate) fn behind(self, count: usize, long: usize) -> Place
        requires inside { self.within + count ≤ long }
        requires next { self.item + 1 < 2 ^ 64 }
        ensures { IsBehind self count long result }
    {
        let within = self.within + count;
        if within < long {
            return Place {
                item: self.item,
                within,
            };
        }
        Place {
            item: self.item + 1,
            within: 0,
        }
    }
}
