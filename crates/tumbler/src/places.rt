//! The places of a tumbler, in the value itself.
ghost use Rattle.std.specs.Prelude.{◌≡◌, ℕ, ◌+◌, ◌-◌, ◌<◌, ◌≤◌, ◌↔◌, nat_eq, List, [], ◌∷◌, ◌++◌, length, replicate, IsTrue};
ghost use Rattle.tumbler.specs.Places.{most_places, EndsWell, fits, Fits, sum, IsUpTo, comes_before, difference};
ghost use Rattle.tumbler.specs.Reach.{lead, greater, HasRoom, IsCovered};
ghost use Rattle.std.specs.Cmp as cmp;
ghost use Rattle.std.specs.Cmp.Lexicographic.{pointwise, nat_list_eq_equiv};

use std::alloc::Global;
use std::fmt;
use std::marker::Model;

/// At most 24 places.
///
/// The cells behind the last place are 0, so that a missing place needs no test. `zeros` is the number of
/// cells before the first one that is not 0, or 24 where all are 0: sums, differences and comparisons begin there.
#[derive(Clone, Copy)]
pub(crate) struct Places {
    cells: [u32; 24],
    len: u8,
    zeros: u8,
    alloc: Global,
}

impl Model for Places {
    ghost use Rattle.std.specs.Prelude.{ℕ, ◌-◌, ◌++◌, List, length, take, replicate};
    ghost use Rattle.std.specs.Coded.{coded_list, coded_ℕ};
    ghost use Rattle.tumbler.specs.Padded.{AreCells, leading_zeros, refilled, recounted};

    ghost Value = { List ℕ };

    ghost coded = { coded_list coded_ℕ };

    ghost view = { λ p. take p.len p.cells };

    ghost invariant = { λ p. AreCells p.len p.zeros p.cells };

    ghost inverse = { λ places. record { cells = places ++ replicate (24 - length places) 0; len = length places; zeros = leading_zeros (places ++ replicate (24 - length places) 0); alloc = record { memory = record { seal = tt } } } };

    ghost inverse_ok = { λ p h i. record { cells = (refilled p.len p.cells h.padded).0 i; len = (refilled p.len p.cells h.padded).1 i; zeros = recounted p.len p.zeros p.cells h i; alloc = p.alloc } };
}

impl Places {
    /// No places.
    pub(crate) fn none(alloc: Global) -> Places
        ensures { result ≡ [] }
    {
        Places {
            cells: [0; 24],
            len: 0,
            zeros: 24,
            alloc,
        }
    }

    /// The places, the first one first.
    pub(crate) fn as_slice(&self) -> &[u32]
        ensures value { result.now ≡ self.now }
        ensures few { length result.now ≤ most_places }
    {
        &self.cells[..self.len as usize]
    }

    /// The allocator that these places were made with.
    pub(crate) fn allocator(&self) -> &Global {
        &self.alloc
    }

    /// Adds a place at the end.
    pub(crate) fn push(&mut self, place: u32)
        requires { length self.old < most_places }
        ensures items { self.new ≡ self.old ++ place ∷ [] }
        ensures len { length self.new ≡ length self.old + 1 }
    {
        let end = self.len;
        self.cells[end as usize] = place;
        self.len = end + 1;
        if place != 0 {
            self.zeros = self.zeros.min(end);
        }
    }

    /// Adds places at the end.
    pub(crate) fn extend(&mut self, places: &[u32])
        requires { length self.old + length places.now ≤ most_places }
        ensures items { self.new ≡ self.old ++ places.now }
    {
        for place in places {
            self.push(*place);
        }
    }

    /// These places.
    pub(crate) fn from_slice(alloc: Global, places: &[u32]) -> Places
        requires { length places.now ≤ most_places }
        ensures { result ≡ places.now }
    {
        let mut held = Places::none(alloc);
        held.extend(places);
        held
    }

    /// Whether the one place that a displacement adds to stays below 2^32.
    pub(crate) fn fits(&self, d: &Places) -> bool
        ensures { result ≡ fits self.now d.now }
    {
        if d.zeros == 24 {
            return true;
        }
        let k = d.zeros as usize;
        self.cells[k].checked_add(d.cells[k]).is_some()
    }

    /// The sum with a displacement, of which the last place is not 0.
    #[tactic(auto, using(crate::proofs::PaddedSteps::adding))]
    pub(crate) fn plus(&self, d: &Places) -> Places
        requires ends { EndsWell d.now }
        requires fits { Fits self.now d.now }
        ensures { result ≡ sum self.now d.now }
    {
        if d.zeros == 24 {
            return *self;
        }
        let mut cells = d.cells;
        let zeros = self.zeros.min(d.zeros);
        let at = d.zeros as usize;
        for k in zeros as usize..at {
            cells[k] = self.cells[k];
        }
        cells[at] = self.cells[at] + d.cells[at];
        Places {
            cells,
            len: d.len,
            zeros,
            alloc: self.alloc,
        }
    }

    /// What leads here from another, where the last place here is not 0.
    #[tactic(auto, using(crate::proofs::PaddedSteps::leading))]
    pub(crate) fn minus(&self, a: &Places) -> Places
        requires ends { EndsWell self.now }
        requires up_to { IsUpTo a.now self.now }
        ensures { result ≡ difference self.now a.now }
    {
        let mut cells = self.cells;
        for k in self.zeros as usize..self.len as usize {
            let step = self.cells[k] - a.cells[k];
            cells[k] = step;
            if step != 0 {
                return Places {
                    cells,
                    len: self.len,
                    zeros: k as u8,
                    alloc: self.alloc,
                };
            }
        }
        Places::none(self.alloc)
    }
}

impl Places {
    /// Whether these come before others.
    #[tactic(auto, using(crate::proofs::PaddedSteps::ordering))]
    pub(crate) fn is_before(&self, other: &Places) -> bool
        ensures { result ≡ comes_before self.now other.now }
    {
        if self.zeros != other.zeros {
            return other.zeros < self.zeros;
        }
        let both = self.len.min(other.len);
        let first = self.zeros.min(both);
        for k in first as usize..both as usize {
            if self.cells[k] != other.cells[k] {
                return self.cells[k] < other.cells[k];
            }
        }
        self.len < other.len
    }

    /// Whether no place here stands behind the lead of a displacement, of which the last place is not 0.
    pub(crate) fn is_covered(&self, d: &Places) -> bool
        requires { EndsWell d.now }
        ensures { IsTrue result ↔ IsCovered self.now d.now }
    {
        self.len <= d.zeros + 1
    }
}

impl Places {
    /// Raises the place at `k` to `least`, where it is less. Missing places before it become 0.
    #[tactic(auto, using(crate::proofs::RaiseSteps::lifting))]
    fn lift(&mut self, k: u8, least: u32)
        requires { k < most_places }
        ensures { self.new ≡ greater self.old (replicate k 0 ++ least ∷ []) }
    {
        let place = self.cells[k as usize].max(least);
        self.cells[k as usize] = place;
        self.len = self.len.max(k + 1);
        if place != 0 {
            self.zeros = self.zeros.min(k);
        }
    }

    /// Raises each place to the other one at its index, where it is less.
    #[tactic(auto, using(crate::proofs::RaiseSteps::raising))]
    pub(crate) fn raise(&mut self, other: &Places)
        ensures { self.new ≡ greater self.old other.now }
    {
        for k in 0..other.len {
            self.lift(k, other.cells[k as usize]);
        }
    }

    /// Raises a reach by the lead of a place, of which the last place is not 0.
    #[tactic(auto, using(crate::proofs::RaiseSteps::leads))]
    pub(crate) fn raise_by_lead(&mut self, place: &Places)
        requires ends { EndsWell place.now }
        ensures { self.new ≡ greater self.old (lead place.now) }
    {
        if place.zeros < 24 {
            self.lift(place.zeros, place.cells[place.zeros as usize]);
        }
    }

    /// Raises a reach by another one that is moved by `d`, of which the last place is not 0.
    #[tactic(auto, using(crate::proofs::RaiseSteps::moving))]
    pub(crate) fn raise_by_moved(&mut self, reach: &Places, d: &Places)
        requires ends { EndsWell d.now }
        requires room { HasRoom d.now reach.now }
        ensures { self.new ≡ greater self.old (sum reach.now (lead d.now)) }
    {
        for k in 0..d.len {
            let here = k as usize;
            self.lift(k, reach.cells[here] + d.cells[here]);
            if d.cells[here] != 0 {
                return;
            }
        }
        self.raise(reach);
    }
}

impl PartialEq for Places {
    ghost eq = { pointwise nat_eq };

    ghost laws = { cmp.partial_equiv_from_equiv nat_list_eq_equiv };

    fn eq(&self, other: &Places) -> bool {
        self.as_slice() == other.as_slice()
    }
}

impl Eq for Places {
    ghost laws = { nat_list_eq_equiv };
}

impl fmt::Debug for Places {
    fn fmt<W: fmt::Write>(&self, f: &mut fmt::Formatter<W>) -> fmt::Result {
        f.debug_list().entries(self.as_slice()).finish()
    }
}
