//! Why pages were not written or read.
ghost use Rattle.std.specs.Prelude.{◌≡◌};

use febe_data::Memory;
use green_io::DiskFailed;

/// Why pages were not written or read.
#[derive(Clone, Copy, Debug, PartialEq, Eq)]
pub enum PageFault {
    /// The disk failed.
    Disk,
    /// There was no memory. Nothing was written.
    Memory,
}

impl From<DiskFailed> for PageFault {
    ghost use Rattle.page_journal.specs.declared.page_fault.PageFault.TheVariants.{Disk};

    ghost from_gives = { λ _ fault. fault ≡ Disk };

    fn from(_failed: DiskFailed) -> PageFault {
        PageFault::Disk
    }
}

impl From<Memory> for PageFault {
    ghost use Rattle.page_journal.specs.declared.page_fault.PageFault.TheVariants.{Memory};

    ghost from_gives = { λ _ fault. fault ≡ Memory };

    fn from(_want: Memory) -> PageFault {
        PageFault::Memory
    }
}
