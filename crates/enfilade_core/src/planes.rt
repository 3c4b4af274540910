//! The three kinds of trees: contents, texts and keys.
ghost use Rattle.std.specs.Prelude.{◌≡◌};
ghost use Rattle.enfilade_core.specs.Planes.{content_widths, text_widths, key_widths, plain_text};

use crate::plane::Plane;
use crate::tree::Row;
use std::alloc::Global;
use tumbler::{List, Memory, Text, Tumbler};

/// A row stands for fewer places than this.
const PLACE_BOUND: usize = 4_294_967_296;

/// Bytes by the address of their first one. On the second axis they have no width, and their owner has them
/// stand at zero there.
pub struct ContentPlane;

/// Runs of a text, by where they stand in it and by the address of what they show. A leaf is a run's length.
pub struct TextPlane;

/// Spans by their start, with a key on the second axis. A leaf is a span's width.
pub struct KeyPlane;

impl Plane for ContentPlane {
    type Leaf = Text;

    ghost plain = { plain_text };

    ghost widths = { content_widths };

    fn first_width(row: &Row<Text>) -> Tumbler {
        let long = row.first.places().len();
        let bytes = row.leaf.len();
        if bytes < PLACE_BOUND {
            return Tumbler::width(row.first.allocator(), long, bytes as u32);
        }
        Tumbler::zero(row.first.allocator())
    }

    fn second_width(row: &Row<Text>) -> Tumbler {
        Tumbler::zero(row.second.allocator())
    }

    fn is_proper(row: &Row<Text>) -> bool {
        if row.first.places().is_empty() {
            return false;
        }
        if row.leaf.is_empty() {
            return false;
        }
        row.leaf.len() < PLACE_BOUND
    }

    fn copy_leaf(alloc: Global, leaf: &Text) -> Result<Text, Memory> {
        List::from_slice(alloc, leaf.as_slice())
    }

    ghost use Rattle.enfilade_core.specs.PlaneLaws.{content_widths_stay};

    ghost widths_stay = { content_widths_stay };
}

impl Plane for TextPlane {
    type Leaf = u32;

    ghost plain = { λ n. n };

    ghost widths = { text_widths };

    fn first_width(row: &Row<u32>) -> Tumbler {
        Tumbler::width(row.first.allocator(), 2, row.leaf)
    }

    fn second_width(row: &Row<u32>) -> Tumbler {
        Tumbler::width(row.second.allocator(), row.second.places().len(), row.leaf)
    }

    fn is_proper(row: &Row<u32>) -> bool {
        if row.second.places().is_empty() {
            return false;
        }
        row.leaf != 0
    }

    fn copy_leaf(_alloc: Global, leaf: &u32) -> Result<u32, Memory> {
        Ok(*leaf)
    }

    ghost use Rattle.enfilade_core.specs.PlaneLaws.{text_widths_stay};

    ghost widths_stay = { text_widths_stay };
}

impl Plane for KeyPlane {
    type Leaf = Tumbler;

    ghost plain = { λ width. width };

    ghost widths = { key_widths };

    fn first_width(row: &Row<Tumbler>) -> Tumbler {
        row.leaf.copy()
    }

    fn second_width(row: &Row<Tumbler>) -> Tumbler {
        Tumbler::zero(row.second.allocator())
    }

    fn is_proper(_row: &Row<Tumbler>) -> bool {
        true
    }

    fn copy_leaf(_alloc: Global, leaf: &Tumbler) -> Result<Tumbler, Memory> {
        Ok(leaf.copy())
    }

    ghost use Rattle.enfilade_core.specs.PlaneLaws.{key_widths_stay};

    ghost widths_stay = { key_widths_stay };
}
