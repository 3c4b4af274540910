//! Whether an edit is pending, and how far it came.

/// What became of an append that failed.
#[derive(Clone, Copy, Debug, PartialEq, Eq)]
pub enum Pending {
    /// No append failed, or it was mended.
    Nothing,
    /// It failed before its gate was written. The gate is a stable 0.
    Shut,
    /// It failed when its gate was written, so the gate may be open on the disk.
    Gated,
}
