//! Links as plain values, and scans of a list of them for what look-ups answer.

use tumbler::List;

/// A document with the number of a byte or of a link in it, or with 0 for the document itself.
#[derive(Clone, Copy, Debug, PartialEq, Eq)]
pub(crate) struct Place {
    pub(crate) document: u32,
    pub(crate) number: u32,
}

/// The tumbler zero, before all documents.
pub(crate) const ZERO: Place = Place {
    document: 0,
    number: 0,
};

fn is_before(one: Place, other: Place) -> bool {
    if one.document == other.document {
        return one.number < other.number;
    }
    one.document < other.document
}

/// Whether a place comes before the least one so far, if there is one.
fn is_least(place: Place, least: Option<Place>) -> bool {
    let Some(least) = least else {
        return true;
    };
    is_before(place, least)
}

/// So many bytes of a document from a first one on or, where that is 0, so many documents with all that is in them.
#[derive(Clone, Copy)]
pub(crate) struct Part {
    pub(crate) document: u32,
    pub(crate) first: u32,
    pub(crate) count: u32,
}

/// Before all runs.
pub(crate) const NOTHING: Part = Part {
    document: 0,
    first: 0,
    count: 0,
};

fn start_of(part: Part) -> Place {
    Place {
        document: part.document,
        number: part.first,
    }
}

/// The first place behind it.
fn end_of(part: Part) -> Place {
    if part.first == 0 {
        return Place {
            document: part.document.saturating_add(part.count),
            number: 0,
        };
    }
    Place {
        document: part.document,
        number: part.first.saturating_add(part.count),
    }
}

/// Whether some place is in both: neither is empty, and each starts before the other ends.
fn meet(one: Part, other: Part) -> bool {
    is_before(start_of(one), end_of(one))
        && is_before(start_of(other), end_of(other))
        && is_before(start_of(one), end_of(other))
        && is_before(start_of(other), end_of(one))
}

fn meets_any(run: Part, parts: &[Part]) -> bool {
    for part in parts {
        if meet(*part, run) {
            return true;
        }
    }
    false
}

/// By start, and then by length.
fn is_lower(one: Part, other: Part) -> bool {
    if start_of(one) == start_of(other) {
        return one.count < other.count;
    }
    is_before(start_of(one), start_of(other))
}

fn is_lowest(part: Part, lowest: Option<Part>) -> bool {
    let Some(lowest) = lowest else {
        return true;
    };
    is_lower(part, lowest)
}

// ---- links

/// A link: its home and its number there, and the bytes at its ends.
#[derive(Drop)]
pub(crate) struct Plain {
    pub(crate) name: Place,
    pub(crate) from: List<Part>,
    pub(crate) to: List<Part>,
    pub(crate) three: List<Part>,
}

/// What is asked of `find`.
#[derive(Drop)]
pub(crate) struct Asked {
    pub(crate) homes: List<Part>,
    pub(crate) from: Option<List<Part>>,
    pub(crate) to: Option<List<Part>>,
    pub(crate) three: Option<List<Part>>,
    pub(crate) after: Place,
    pub(crate) limit: u32,
}

fn is_home_wanted(home: u32, parts: &[Part]) -> bool {
    if parts.is_empty() {
        return true;
    }
    let place = Place {
        document: home,
        number: 0,
    };
    for part in parts {
        if !is_before(place, start_of(*part)) && is_before(place, end_of(*part)) {
            return true;
        }
    }
    false
}

fn is_end_wanted(runs: &[Part], parts: &Option<List<Part>>) -> bool {
    let Some(parts) = parts else {
        return true;
    };
    for run in runs {
        if meets_any(*run, parts.as_slice()) {
            return true;
        }
    }
    false
}

fn is_wanted(link: &Plain, asked: &Asked) -> bool {
    is_home_wanted(link.name.document, asked.homes.as_slice())
        && is_end_wanted(link.from.as_slice(), &asked.from)
        && is_end_wanted(link.to.as_slice(), &asked.to)
        && is_end_wanted(link.three.as_slice(), &asked.three)
}

/// The first name above a bound of the links that are wanted.
pub(crate) fn next_wanted(kept: &[Plain], asked: &Asked, after: Place) -> Option<Place> {
    let mut least: Option<Place> = None;
    for link in kept {
        let name = link.name;
        if is_before(after, name) && is_least(name, least) && is_wanted(link, asked) {
            least = Some(name);
        }
    }
    least
}

/// How many names come before one.
pub(crate) fn count_before(kept: &[Plain], name: Place) -> u32 {
    let mut count: u32 = 0;
    for link in kept {
        if is_before(link.name, name) {
            count = count.saturating_add(1);
        }
    }
    count
}

pub(crate) fn count_of_home(kept: &[Plain], home: u32) -> u32 {
    let mut count: u32 = 0;
    for link in kept {
        if link.name.document == home {
            count = count.saturating_add(1);
        }
    }
    count
}

/// The runs of end 1, 2 or 3.
fn runs_at(link: &Plain, end: u32) -> &[Part] {
    match end {
        1 => link.from.as_slice(),
        2 => link.to.as_slice(),
        _ => link.three.as_slice(),
    }
}

/// The lowest of these runs and the one so far that meets a part and is above a bound.
fn lowest_of(runs: &[Part], meeting: Part, after: Part, lowest: Option<Part>) -> Option<Part> {
    let mut lowest = lowest;
    for run in runs {
        if meet(meeting, *run) && is_lower(after, *run) && is_lowest(*run, lowest) {
            lowest = Some(*run);
        }
    }
    lowest
}

/// The lowest run above a bound, of one end over all links, that meets a part.
pub(crate) fn next_run(kept: &[Plain], end: u32, meeting: Part, after: Part) -> Option<Part> {
    let mut lowest: Option<Part> = None;
    for link in kept {
        lowest = lowest_of(runs_at(link, end), meeting, after, lowest);
    }
    lowest
}
