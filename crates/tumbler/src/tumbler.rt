//! Tumblers: addresses of places, with their order, sums and differences.
ghost use Rattle.std.specs.Prelude.{◌≡◌, ◌≢◌, ℕ, ◌+◌, ◌-◌, ◌^◌, ◌<◌, ◌≤◌, ◌↔◌, ◌==◌, ◌⊎◌, List, [], ◌∷◌, ◌++◌, length, take, drop, All, IsTrue, IsOk, IsErr, IfOk, OnErr, IfSome, IfNone, replicate, slice_index, refl};
ghost use Rattle.std.specs.Ordering.{nat_cmp, as_partial_cmp};
ghost use Rattle.std.specs.Cmp.Lexicographic.{slice_cmp, nat_list_cmp_total, texts_ties, texts_po};
ghost use Rattle.tumbler.specs.Places.{most_places, place, IsTumbler, EndsWell, IsBefore, IsUpTo, comes_before, sum, Fits, difference, width_at, trimmed, just_before};
ghost use Rattle.tumbler.specs.Reach.{lead, greater, HasRoom, IsCovered};
ghost use Rattle.tumbler.specs.Address.{IsAccount, IsDocument, IsDocumentOf, IsMadeIn};

use crate::address;
use crate::arithmetic::{last_at, lead_len, room_for, trimmed_len, with_last};
use crate::places::Places;
use std::alloc::Global;
use std::cmp::Ordering;
use std::error::Error;
use std::fmt;
use std::marker::Model;

/// The most places that a tumbler has.
pub const MOST_PLACES: usize = 24;

/// An address: at most 24 places, each below 2^32, of which the last is not 0. The empty one is zero.
///
/// The order is place by place, where a missing place counts as 0. The places lie in the value
/// itself, so nothing here takes memory.
#[derive(Clone, Copy, Debug, PartialEq, Eq)]
pub struct Tumbler {
    held: Places,
}

impl Model for Tumbler {
    ghost use Rattle.std.specs.Prelude.{◌≡◌, ℕ, List};
    ghost use Rattle.std.specs.Coded.{coded_list, coded_ℕ};
    ghost use Rattle.tumbler.specs.Places.{IsTumbler};

    ghost Value = { List ℕ };

    ghost coded = { coded_list coded_ℕ };

    ghost view = { λ t. t.held };

    ghost invariant = { λ t. IsTumbler t.held };

    ghost inverse = { λ places. record { held = places } };
}

/// The list of places is no tumbler: it has over 24 places, or its last place is 0.
#[derive(Clone, Copy, Debug, PartialEq, Eq)]
pub struct BadTumbler;

impl fmt::Display for BadTumbler {
    fn fmt<W: fmt::Write>(&self, f: &mut fmt::Formatter<W>) -> fmt::Result {
        f.write_str("over 24 places, or a last place 0")
    }
}

impl Error for BadTumbler {}

impl Tumbler {
    /// The tumbler of no places.
    pub fn zero(alloc: Global) -> Tumbler
        ensures { result ≡ [] }
    {
        Tumbler {
            held: Places::none(alloc),
        }
    }

    /// The tumbler of these places.
    pub fn from_places(alloc: Global, places: &[u32]) -> Result<Tumbler, BadTumbler>
        ensures value { IfOk result (λ tumbler. tumbler ≡ places.now) }
        ensures refused { IsErr result ↔ ((most_places < length places.now) ⊎ ((0 < length places.now) × (place places.now (length places.now - 1) ≡ 0))) }
    {
        if places.len() > MOST_PLACES {
            return Err(BadTumbler);
        }
        if let Some(0) = places.last() {
            return Err(BadTumbler);
        }
        Ok(Tumbler {
            held: Places::from_slice(alloc, places),
        })
    }

    /// Another with the same places.
    pub fn copy(&self) -> Tumbler
        ensures { result ≡ self.now }
    {
        *self
    }

    /// The width of `n` places in a row that differ at the last of `long` places: zeros, and `n` there. It is
    /// zero where `n` or `long` is 0.
    pub fn width(alloc: Global, long: usize, n: u32) -> Tumbler
        requires { long ≤ most_places }
        ensures { result ≡ width_at long n }
    {
        Tumbler {
            held: last_at(alloc, long, n),
        }
    }

    /// The allocator that this was made with, for what is made of tumblers. A tumbler itself takes no memory.
    pub fn allocator(&self) -> Global {
        *self.held.allocator()
    }

    /// The places, the first one first.
    pub fn places(&self) -> &[u32]
        ensures value { result.now ≡ self.now }
        ensures tumbler { IsTumbler self.now }
    {
        self.held.as_slice()
    }
}

impl Tumbler {
    /// Whether the sum with the displacement `d` is a tumbler: the one place that is added stays below 2^32.
    pub fn fits(&self, d: &Tumbler) -> bool
        ensures { IsTrue result ↔ Fits self.now d.now }
    {
        self.held.fits(&d.held)
    }

    /// The sum with the displacement `d`.
    pub fn add(&self, d: &Tumbler) -> Tumbler
        requires { Fits self.now d.now }
        ensures { result ≡ sum self.now d.now }
    {
        Tumbler {
            held: self.held.plus(&d.held),
        }
    }

    /// The displacement that leads from `a` to this one.
    pub fn minus(&self, a: &Tumbler) -> Tumbler
        requires { IsUpTo a.now self.now }
        ensures { result ≡ difference self.now a.now }
    {
        Tumbler {
            held: self.held.minus(&a.held),
        }
    }

    /// The tumbler with `k` as one place more.
    pub fn child(&self, k: u32) -> Tumbler
        requires room { length self.now < most_places }
        requires counted { 0 < k }
        ensures { result ≡ self.now ++ k ∷ [] }
    {
        Tumbler {
            held: with_last(*self.held.allocator(), self.places(), k),
        }
    }

    /// The tumbler of these places and then `tail`.
    pub fn extended(&self, tail: &[u32]) -> Result<Tumbler, BadTumbler>
        ensures value { IfOk result (λ tumbler. tumbler ≡ self.now ++ tail.now) }
        ensures accepted { length self.now + length tail.now ≤ most_places → (0 < length tail.now → place tail.now (length tail.now - 1) ≢ 0) → IsOk result }
        ensures refused { OnErr result ((most_places < length self.now + length tail.now) ⊎ (place tail.now (length tail.now - 1) ≡ 0)) }
    {
        if tail.len() > MOST_PLACES - self.places().len() {
            return Err(BadTumbler);
        }
        let mut held = self.held;
        held.extend(tail);
        if let Some(0) = held.as_slice().last() {
            return Err(BadTumbler);
        }
        Ok(Tumbler { held })
    }

    /// Whether this is an account's address.
    pub fn is_account(&self) -> bool
        ensures { IsTrue result ↔ IsAccount self.now }
    {
        address::is_account(self.places())
    }

    /// Whether this is a document's address.
    pub fn is_document(&self) -> bool
        ensures { IsTrue result ↔ IsDocument self.now }
    {
        address::account_len(self.places()).is_some()
    }

    /// The account of a document.
    pub fn account_of(&self) -> Tumbler
        requires { IsDocument self.now }
        ensures { IsDocumentOf self.now result }
    {
        let places = self.places();
        match address::account_len(places) {
            Some(n) => self.front(n),
            None => unreachable!(),
        }
    }

    /// The document that a content byte or a link was made in, if this is the address of one.
    pub fn document_of(&self) -> Option<Tumbler>
        ensures found { IfSome result (IsMadeIn self.now) }
        ensures none { IfNone result ((document : List ℕ) → ¬ IsMadeIn self.now document) }
    {
        match address::document_len(self.places()) {
            Some(n) => Some(self.front(n)),
            None => None,
        }
    }

    /// The tumbler of the first `n` places, of which the last is not 0.
    fn front(&self, n: usize) -> Tumbler
        requires within { n ≤ length self.now }
        requires ends { EndsWell (take n self.now) }
        ensures { result ≡ take n self.now }
    {
        Tumbler {
            held: Places::from_slice(*self.held.allocator(), self.places().split_at(n).0),
        }
    }
}

impl Tumbler {
    /// Whether this one comes before the other.
    pub fn is_before(&self, other: &Tumbler) -> bool
        ensures value { result ≡ comes_before self.now other.now }
        ensures before { IsTrue result ↔ IsBefore self.now other.now }
        ensures tumbler { IsTumbler self.now }
    {
        self.held.is_before(&other.held)
    }

    /// The lead: what a sum with this displacement adds to, the places up to and with the first one that is not 0.
    pub fn lead(&self) -> Tumbler
        ensures { result ≡ lead self.now }
    {
        self.front(lead_len(self.places()))
    }

    /// The reach of both: at each index the greater place.
    pub fn greater(&self, other: &Tumbler) -> Tumbler
        ensures { result ≡ greater self.now other.now }
    {
        let mut held = self.held;
        held.raise(&other.held);
        Tumbler { held }
    }

    /// Raises this reach by another: at each index to the greater place.
    pub fn raise(&mut self, other: &Tumbler)
        ensures { self.new ≡ greater self.old other.now }
    {
        self.held.raise(&other.held);
    }

    /// Raises this reach by the lead of a place, so that the place is within it.
    pub fn raise_by_lead(&mut self, place: &Tumbler)
        ensures { self.new ≡ greater self.old (lead place.now) }
    {
        self.held.raise_by_lead(&place.held);
    }

    /// Raises this reach by another one that is moved by `d`.
    pub fn raise_by_moved(&mut self, reach: &Tumbler, d: &Tumbler)
        requires { HasRoom d.now reach.now }
        ensures { self.new ≡ greater self.old (sum reach.now (lead d.now)) }
    {
        self.held.raise_by_moved(&reach.held, &d.held);
    }

    /// Whether all places within a reach fit after this one: at each index the sum stays below 2^32.
    pub fn has_room(&self, reach: &Tumbler) -> bool
        ensures { IsTrue result ↔ HasRoom self.now reach.now }
    {
        room_for(self.places(), reach.places())
    }

    /// Whether no place of this one stands behind the lead of `d`. Then all that comes up to `d` fits after this
    /// one where `d` does.
    pub fn is_covered(&self, d: &Tumbler) -> bool
        ensures covered { IsTrue result ↔ IsCovered self.now d.now }
        ensures tumbler { IsTumbler self.now }
    {
        self.held.is_covered(&d.held)
    }

    /// A place that comes before this one: the last place less 1, without the zeros at the end. Zero stays.
    pub fn just_before(&self) -> Tumbler
        ensures { result ≡ just_before self.now }
    {
        let places = self.places();
        let Some(last) = places.last() else {
            return self.copy();
        };
        let n = places.len() - 1;
        if *last < 2 {
            return self.front(trimmed_len(places.split_at(n).0));
        }
        Tumbler {
            held: with_last(*self.held.allocator(), places.split_at(n).0, *last - 1),
        }
    }
}

impl Ord for Tumbler {
    ghost cmp = { slice_cmp nat_cmp };

    ghost total = { nat_list_cmp_total };

    ghost matches_partial_cmp = { λ a b. refl };

    ghost matches_eq = { texts_ties };

    fn cmp(&self, other: &Tumbler) -> Ordering {
        self.held.as_slice().cmp(&other.held.as_slice())
    }
}

impl PartialOrd for Tumbler {
    ghost partial_cmp = { as_partial_cmp (slice_cmp nat_cmp) };

    ghost laws = { texts_po };

    fn partial_cmp(&self, other: &Tumbler) -> Option<Ordering> {
        Some(self.cmp(other))
    }
}
