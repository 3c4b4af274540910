//! What a scan says of bytes.

/// What a scan says of bytes.
#[derive(Clone, Copy, Debug, PartialEq, Eq)]
pub enum Scanned {
    /// What was looked for begins so, and goes on.
    Incomplete,
    /// It is spelled by so many bytes.
    Complete { used: usize },
    /// So many bytes begin what was looked for, and the byte behind them can't stand there.
    Bad { at: usize },
}
