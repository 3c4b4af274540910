//! What a back end holds at most.
ghost use Rattle.std.specs.Prelude.{◌≡◌, ◌↔◌, IfOk, IsOk};

use crate::bounds::{MOST_CONTENT, MOST_ENTRIES, MOST_FLUSH};
use std::error::Error;
use std::fmt;
use std::marker::Model;

/// How many kept entries and content bytes there may be, and after how many kept entries pages are written.
#[derive(Clone, Copy, Debug, PartialEq, Eq)]
pub struct Limits {
    entries: u32,
    text: u32,
    flush: u32,
}

impl Model for Limits {
    ghost use Rattle.std.specs.Prelude.{◌≤◌};
    ghost use Rattle.febe_data.specs.LimitsView.{LimitsView, AreLimits};

    ghost Value = { LimitsView };

    ghost view = { λ l. record { entries = l.entries; text = l.text; flush = l.flush } };

    ghost invariant = { λ l. AreLimits l.entries l.text l.flush };

    ghost inverse = { λ v. record { entries = v.entries; text = v.text; flush = v.flush } };
}

/// A limit is outside its bounds.
#[derive(Clone, Copy, Debug, PartialEq, Eq)]
pub struct BadLimits;

impl fmt::Display for BadLimits {
    fn fmt<W: fmt::Write>(&self, f: &mut fmt::Formatter<W>) -> fmt::Result {
        f.write_str("a limit is outside its bounds")
    }
}

impl Error for BadLimits {}

impl Limits {
    ghost use Rattle.febe_data.specs.LimitsView.{AreLimits};

    /// Limits of these three numbers, in the order of kept entries, content bytes and kept entries between pages.
    pub fn new(entries: u32, text: u32, flush: u32) -> Result<Limits, BadLimits>
        ensures accepted { IsOk result ↔ AreLimits entries text flush }
        ensures value { IfOk result (λ limits. (limits.entries ≡ entries) × (limits.text ≡ text) × (limits.flush ≡ flush)) }
    {
        if entries > MOST_ENTRIES || text > MOST_CONTENT {
            return Err(BadLimits);
        }
        if flush == 0 || flush > MOST_FLUSH {
            return Err(BadLimits);
        }
        Ok(Limits {
            entries,
            text,
            flush,
        })
    }

    /// The number of kept entries from which on counted changes are refused.
    pub fn entries(&self) -> u32
        ensures value { result ≡ self.now.entries }
        ensures bounds { AreLimits self.now.entries self.now.text self.now.flush }
    {
        self.entries
    }

    /// The number of content bytes that may not be passed.
    pub fn text(&self) -> u32
        ensures value { result ≡ self.now.text }
        ensures bounds { AreLimits self.now.entries self.now.text self.now.flush }
    {
        self.text
    }

    /// The number of kept entries after which pages are written.
    pub fn flush(&self) -> u32
        ensures value { result ≡ self.now.flush }
        ensures bounds { AreLimits self.now.entries self.now.text self.now.flush }
    {
        self.flush
    }

    /// The same limits.
    pub fn copy(&self) -> Limits
        ensures { result ≡ self.now }
    {
        *self
    }
}
