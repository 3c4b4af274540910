//! How far a commit came that is not finished.

/// Where a commit stopped.
#[derive(Clone, Copy, Debug, PartialEq, Eq)]
pub enum Stage {
    /// No commit is unfinished: none has failed since the last one was finished, or it failed before its gate was
    /// written. The gate is a stable 0.
    Clean,
    /// Its gate was being opened, so it may be open on the disk.
    Gating,
    /// Its pages were being laid over Home. The gate is a stable 1.
    Writing,
    /// Its pages are stable in Home, and its gate was being closed.
    Closing,
}
