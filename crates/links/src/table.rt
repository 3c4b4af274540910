//! The links in order of their ids.
ghost use Rattle.std.specs.Prelude.{◌≡◌, ◌+◌, ◌<◌, ◌≤◌, [], length, slice_get, OnOk, OnErr, false};
ghost use Rattle.std.specs.Option.{option_map, option_copied};
ghost use Rattle.links.specs.LinkLists.{most_links, plain_link, has_in, link_in, count_of_home_in, added, removed};

use crate::place::{find, place};
use crate::row::LinkRow;
use std::alloc::Global;
use std::collections::BTreeMap;
use std::marker::Model;
use tumbler::{Memory, Tumbler};
use world_rules::{count_down, count_of, count_up};

/// Links by id, and how many there are of each home. Only `add` takes memory.
#[derive(Drop)]
pub(crate) struct Table {
    links: Vec<Box<LinkRow>>,
    homes: BTreeMap<Tumbler, u32>,
}

impl Model for Table {
    ghost use Rattle.std.specs.Prelude.{List, length, ◌≤◌};
    ghost use Rattle.world_rules.specs.World.{LinkRow};
    ghost use Rattle.links.specs.LinkLists.{ids_in, most_links};
    ghost use Rattle.links.specs.inside.Kept.{unboxed, IsAscending, HoldsCounts};

    ghost Value = { List LinkRow };

    ghost view = { λ t. unboxed t.links.items };

    ghost invariant = { λ t. (length t.links.items ≤ most_links) × IsAscending (ids_in (unboxed t.links.items)) × HoldsCounts (unboxed t.links.items) t.homes };
}

impl Table {
    ghost use Rattle.std.specs.Prelude.{filter, not};
    ghost use Rattle.tumbler.specs.Places.{comes_before};
    ghost use Rattle.world_rules.specs.World.{LinkRow as PlainLink};
    ghost use Rattle.links.specs.LinkLists.{ids_in};
    ghost use Rattle.links.specs.inside.Kept.{IsAscending, unboxed};

    /// No links. It takes no memory.
    pub(crate) fn new(alloc: Global) -> Table
        ensures { result ≡ [] }
    {
        Table {
            links: Vec::new(alloc),
            homes: BTreeMap::new(alloc),
        }
    }

    /// The links ascend by their ids.
    pub(crate) fn ids_ascend(&self)
        ensures { IsAscending (ids_in self.now) }
    {
        let _ = self.links.as_slice();
    }

    /// The links whose ids do not come before this one.
    pub(crate) fn not_before(&self, id: &Tumbler) -> &[Box<LinkRow>]
        ensures { unboxed result.now ≡ filter (λ (link : PlainLink). not (comes_before link.id id.now)) self.now }
    {
        let links = self.links.as_slice();
        let at = place(links, id);
        links.split_at(at).1
    }

    /// The link of an id, if it is there.
    pub(crate) fn get(&self, id: &Tumbler) -> Option<&LinkRow>
        ensures { option_map plain_link (option_copied result) ≡ link_in self.now id.now }
    {
        let links = self.links.as_slice();
        let Some(at) = find(links, id) else {
            return None;
        };
        let link = &links[at];
        Some(link)
    }

    /// The `k`-th link, counted from 0.
    pub(crate) fn nth(&self, k: u32) -> Option<&LinkRow>
        ensures { option_map plain_link (option_copied result) ≡ slice_get self.now k }
    {
        match self.links.as_slice().get(k as usize) {
            Some(link) => Some(link),
            None => None,
        }
    }

    /// How many links there are.
    pub(crate) fn len(&self) -> usize
        ensures value { result ≡ length self.now }
        ensures few { result ≤ most_links }
    {
        self.links.len()
    }

    /// How many links have the home.
    pub(crate) fn count_of_home(&self, home: &Tumbler) -> u32
        ensures { result ≡ count_of_home_in self.now home.now }
    {
        count_of(&self.homes, home)
    }

    /// Puts a link in.
    pub(crate) fn add(&mut self, alloc: Global, link: LinkRow) -> Result<(), Memory>
        requires absent { has_in self.old link.id ≡ false }
        requires room { length self.old < most_links }
        ensures added { OnOk result (self.new ≡ added self.old (plain_link link)) }
        ensures refused { OnErr result (self.new ≡ self.old) }
    {
        let at = place(self.links.as_slice(), &link.id);
        let home = link.home.copy();
        let boxed = Box::new(alloc, link)?;
        self.links.reserve(1)?;
        count_up(&mut self.homes, home)?;
        let Ok(()) = self.links.insert(at, boxed) else {
            unreachable!()
        };
        Ok(())
    }

    /// Takes the link of an id out, if it is there.
    pub(crate) fn remove(&mut self, id: &Tumbler)
        ensures { self.new ≡ removed self.old id.now }
    {
        let Some(at) = find(self.links.as_slice(), id) else {
            return;
        };
        let link = self.links.remove(at);
        count_down(&mut self.homes, link.home.copy());
    }
}
