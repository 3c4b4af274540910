//! Segments of texts.
ghost use Rattle.std.specs.Prelude.{◌≡◌, ◌<◌};
ghost use Rattle.poom_compare.specs.Segments.{IsSegment, flipped, flipped_segment};

/// Past the greatest position of a segment. From behind, positions are counted down from here.
pub(crate) const POSITIONS: u32 = 2_147_483_648;

/// Past the greatest number of a byte. From behind, numbers are counted down from here.
pub(crate) const NUMBERS: u64 = 4_611_686_018_427_387_904;

/// Text positions that follow each other and show bytes of content that follow each other.
///
/// Each byte of content has a number, from 1 on, and bytes that follow each other have numbers that do.
#[derive(Clone, Copy, Debug)]
pub struct Segment {
    /// The first position, from 1.
    pub at: u32,
    /// The number of the byte that it shows.
    pub first: u64,
    /// How many positions there are, and never none.
    pub length: u32,
    /// The number of the byte at the position just before, or 0 where none is compared there.
    pub before: u64,
    /// The number of the byte at the position just behind, or 0.
    pub after: u64,
}

/// Which of two texts.
#[derive(Clone, Copy, Debug)]
pub enum Side {
    Left,
    Right,
}

/// A number from behind. What stands for none still does.
fn flipped(number: u64) -> u64
    requires { number < 4611686018427387904 }
    ensures { result ≡ flipped number }
{
    if number == 0 { 0 } else { NUMBERS - number }
}

impl Segment {
    /// The segment, where positions and numbers are counted from behind.
    pub(crate) fn flipped(&self) -> Segment
        requires { IsSegment self.now }
        ensures { result ≡ flipped_segment self.now }
    {
        Segment {
            at: POSITIONS + 1 - (self.at + self.length),
            first: NUMBERS + 1 - (self.first + u64::from(self.length)),
            length: self.length,
            before: flipped(self.after),
            after: flipped(self.before),
        }
    }
}
