//! The bounds of the two blocks that a rearrange makes change places.
ghost use Rattle.std.specs.Prelude.{◌≡◌, ◌≤◌};
ghost use Rattle.world_rules.specs.Edits.{cuts_of};

/// The bounds of two blocks, each not below the one before it: the first two cuts bound one block, the others the other.
#[derive(Clone, Copy, Debug)]
pub struct Cuts {
    pub first: u32,
    pub second: u32,
    pub third: u32,
    pub fourth: u32,
}

/// The bounds of the two blocks, where there are three or four cuts in ascending order.
pub fn cuts_of(cuts: &[u32]) -> Option<Cuts>
    ensures { result ≡ cuts_of cuts.now }
{
    match *cuts {
        [first, second, third] if first <= second && second <= third => Some(Cuts {
            first,
            second,
            third: second,
            fourth: third,
        }),
        [first, second, third, fourth] if first <= second && second <= third && third <= fourth =>
            Some(Cuts {
                first,
                second,
                third,
                fourth,
            }),
        _ => None,
    }
}
