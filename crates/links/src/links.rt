//! The table of links and its calls.
ghost use Rattle.std.specs.Prelude.{◌≡◌, ◌<◌, ◌≤◌, ◌⊎◌, List as ListOf, [], ◌∷◌, length, take, slice_get, All, IsOk, IfOk, OnOk, OnErr, IfSome, ◌+◌, not, false};
ghost use Rattle.std.specs.Option.{option_map, option_copied};
ghost use Rattle.std.specs.Ordering.{nat_cmp};
ghost use Rattle.std.specs.Cmp.Lexicographic.{slice_cmp};
ghost use Rattle.std.specs.List.Sorted.{IsStrictlySortedBy};
ghost use Rattle.tumbler.specs.Span.{SpanFits};
ghost use Rattle.enfilade_core.specs.Rows.{node_at};
ghost use Rattle.enfilade_core.specs.BalanceState.{tree_debt, tree_allows, has_lone_child};
ghost use Rattle.enfilade_core.specs.Planes.{key_widths};
ghost use Rattle.enfilade_balance.specs.OneStep.{IsOneStep};
ghost use Rattle.enfilade_balance.specs.Steps.{root_after, is_idle, is_dropped};
ghost use Rattle.enfilade_sweep.specs.Sweep.{IsSweptTree};
ghost use Rattle.enfilade_sweep.specs.Plan.{IsPlanFor};
ghost use Rattle.spanfilade.specs.Index.{rows_in_index, at_mark};
ghost use Rattle.links.specs.LinkLists.{LinkLists, most_links, plain_link, IsLink, HoldsRuns, index_at, with_index, ids_in, has_in, link_in, count_of_home_in, added, removed, marks_of, at_marks, AllGrow};
ghost use Rattle.links.specs.Finding.{found_in, spans_met, EndsFit};
ghost use Rattle.links.specs.Readable.{links_read, ids_read};
ghost use Rattle.world_rules.specs.Readers.{reads_by};
ghost use Rattle.links.specs.inside.Joined.{EndsJoined};
ghost use Rattle.links.specs.inside.Kept.{Hold};

use crate::ends::add_to_all;
use crate::finding::{found_among, found_in_order};
use crate::readable::{count_read, ids_read};
use crate::row::{LinkMarks, LinkRow, WantedEnds};
use crate::runs::run_spans;
use crate::spans::{spans_in_order, spans_read};
use crate::table::Table;
use crate::wanted::joined_ends;
use enfilade_balance::Balance;
use enfilade_search::overlapping;
use enfilade_sweep::SweepPlan;
use spanfilade::Spanfilade;
use std::alloc::Global;
use std::marker::Model;
use tumbler::{List, Memory, Span, Tumbler};
use world_rules::Readers;

/// The links that there are, by id and by the content at their ends.
///
/// A table in ascending order of ids, with the number of links of each home, and for each of the three ends an
/// index of its runs.
#[derive(Drop)]
pub struct Links {
    table: Table,
    from: Spanfilade,
    to: Spanfilade,
    three: Spanfilade,
}

impl Model for Links {
    ghost use Rattle.std.specs.Prelude.{All, ◌≤◌, length};
    ghost use Rattle.links.specs.LinkLists.{LinkLists, IsLink, HoldsRuns, ids_in, most_links};

    ghost Value = { LinkLists };

    ghost view = { λ l. record { links = l.table; from = l.from; to = l.to; three = l.three } };

    ghost invariant = { λ l. All IsLink l.table × HoldsRuns 1 l.table l.from × HoldsRuns 2 l.table l.to × HoldsRuns 3 l.table l.three };
}

impl Links {
    /// A table of no links.
    pub fn new(alloc: Global) -> Result<Links, Memory>
        ensures { IfOk result (λ made. made.links ≡ []) }
    {
        Ok(Links {
            table: Table::new(alloc),
            from: Spanfilade::new(alloc)?,
            to: Spanfilade::new(alloc)?,
            three: Spanfilade::new(alloc)?,
        })
    }

    /// Adds a link.
    ///
    /// Where it is refused all is as before.
    pub fn add(&mut self, alloc: Global, link: LinkRow) -> Result<(), Memory>
        requires absent { has_in self.old.links link.id ≡ false }
        requires room { length self.old.links < most_links }
        requires runs { IsLink (plain_link link) }
        ensures added { OnOk result (self.new.links ≡ added self.old.links (plain_link link)) }
        ensures refused { OnErr result (self.new ≡ self.old) }
        ensures grows { AllGrow self.old self.new }
    {
        let from = run_spans(alloc, link.from.as_slice())?;
        let to = run_spans(alloc, link.to.as_slice())?;
        let three = run_spans(alloc, link.three.as_slice())?;
        let id = link.id.copy();
        self.table.add(alloc, link)?;
        let Ok(()) = add_to_all(
            &mut self.from,
            &mut self.to,
            &mut self.three,
            &from,
            &to,
            &three,
            &id,
        ) else {
            self.table.remove(&id);
            return Err(Memory);
        };
        Ok(())
    }

    /// The link of an id, if it is there. It takes no memory.
    pub fn get(&self, id: &Tumbler) -> Option<&LinkRow>
        ensures { option_map plain_link (option_copied result) ≡ link_in self.now.links id.now }
    {
        self.table.get(id)
    }

    /// The `k`-th link in ascending order of ids, counted from 0. It takes no memory.
    pub fn nth(&self, k: u32) -> Option<&LinkRow>
        ensures { option_map plain_link (option_copied result) ≡ slice_get self.now.links k }
    {
        self.table.nth(k)
    }

    /// How many links there are. It takes no memory.
    pub fn len(&self) -> usize
        ensures value { result ≡ length self.now.links }
        ensures few { result ≤ most_links }
    {
        self.table.len()
    }

    /// The links ascend by their ids, each once, and their ends are runs. It takes no memory.
    pub fn in_order(&self)
        ensures ascends { IsStrictlySortedBy (slice_cmp nat_cmp) (ids_in self.now.links) }
        ensures runs { All IsLink self.now.links }
    {
        self.table.ids_ascend();
    }

    /// How many links have the home. It looks a number up, and takes no memory.
    pub fn count_of_home(&self, home: &Tumbler) -> u32
        ensures { result ≡ count_of_home_in self.now.links home.now }
    {
        self.table.count_of_home(home)
    }

    /// The first `limit` ids above `after`, in ascending order, of the links whose home lies in one of `homes`,
    /// or in any place where that is empty, and whose ends meet what is wanted of them.
    pub fn find(
        &self,
        alloc: Global,
        homes: &List<Span>,
        ends: &WantedEnds,
        after: &Tumbler,
        limit: u32,
    ) -> Result<List<Tumbler>, Memory>
        requires homes { All SpanFits homes.now.items }
        requires ends { EndsFit ends.now }
        ensures { IfOk result (λ found. found.items ≡ found_in self.now.links homes.now.items ends.now after.now limit) }
    {
        let homes = homes.as_slice();
        let wanted = joined_ends(alloc, ends)?;
        self.table.ids_ascend();
        let Some(ids) = self.candidates(&wanted)? else {
            let links = self.table.not_before(after);
            return found_in_order(alloc, links, homes, &wanted, after, limit);
        };
        found_among(
            alloc,
            &self.table,
            ids.as_slice(),
            homes,
            &wanted,
            after,
            limit,
        )
    }

    /// Candidates: ids of links, with each that is wanted among them, where spans are given for some end.
    ///
    /// They are those of the end whose spans meet the fewest runs, or at most some times as many: the ends are
    /// looked at side by side, with a limit that grows until one of them is done.
    fn candidates(&self, ends: &WantedEnds) -> Result<Option<List<Tumbler>>, Memory>
        requires { EndsJoined ends.now }
        ensures { IfOk result (λ found. IfSome found (λ ids. Hold self.now.links ends.now ids.items)) }
    {
        let mut limit: usize = 16;
        for _ in 0..12 {
            if let Some(ids) = self.few_candidates(ends, limit)? {
                return Ok(Some(ids));
            }
            limit = limit.saturating_mul(4);
        }
        self.all_candidates(ends)
    }

    /// The candidates of the first end whose spans meet at most `limit` rows of its index. There are none where each
    /// end that spans are given for has more.
    fn few_candidates(
        &self,
        ends: &WantedEnds,
        limit: usize,
    ) -> Result<Option<List<Tumbler>>, Memory>
        requires { EndsJoined ends.now }
        ensures { IfOk result (λ found. IfSome found (λ ids. Hold self.now.links ends.now ids.items)) }
    {
        self.table.ids_ascend();
        if let Some(spans) = &ends.from {
            if let Some(ids) = self.from.keys_meeting_up_to(spans, limit)? {
                return Ok(Some(ids));
            }
        }
        if let Some(spans) = &ends.to {
            if let Some(ids) = self.to.keys_meeting_up_to(spans, limit)? {
                return Ok(Some(ids));
            }
        }
        if let Some(spans) = &ends.three {
            if let Some(ids) = self.three.keys_meeting_up_to(spans, limit)? {
                return Ok(Some(ids));
            }
        }
        Ok(None)
    }

    /// The candidates of the first end that spans are given for, however many its index finds.
    fn all_candidates(&self, ends: &WantedEnds) -> Result<Option<List<Tumbler>>, Memory>
        requires { EndsJoined ends.now }
        ensures { IfOk result (λ found. IfSome found (λ ids. Hold self.now.links ends.now ids.items)) }
    {
        self.table.ids_ascend();
        if let Some(spans) = &ends.from {
            let ids = self.from.keys_meeting(spans)?;
            return Ok(Some(ids));
        }
        if let Some(spans) = &ends.to {
            let ids = self.to.keys_meeting(spans)?;
            return Ok(Some(ids));
        }
        if let Some(spans) = &ends.three {
            let ids = self.three.keys_meeting(spans)?;
            return Ok(Some(ids));
        }
        Ok(None)
    }

    /// The addresses of the runs of end 1, 2 or 3, over all links, that meet a span: in ascending order, by
    /// start and then by width, each once.
    pub fn spans_of_end(
        &self,
        alloc: Global,
        end: u32,
        meeting: &Span,
    ) -> Result<List<Span>, Memory>
        requires end { (end ≡ 1) ⊎ (end ≡ 2) ⊎ (end ≡ 3) }
        requires fits { SpanFits meeting.now }
        ensures { IfOk result (λ found. found.items ≡ spans_met end meeting.now self.now.links) }
    {
        let (arena, root) = self.index(end).parts();
        let rows = overlapping(arena, root, meeting)?;
        spans_in_order(alloc, rows.as_slice())
    }

    /// The same of those links alone whose home may be read for the account. The link of each row is looked up
    /// before the spans of rows become one.
    pub fn spans_of_end_for<R: Readers>(
        &self,
        alloc: Global,
        end: u32,
        meeting: &Span,
        readers: &R,
        account: &Option<Tumbler>,
    ) -> Result<List<Span>, Memory>
        requires end { (end ≡ 1) ⊎ (end ≡ 2) ⊎ (end ≡ 3) }
        requires fits { SpanFits meeting.now }
        ensures { IfOk result (λ found. found.items ≡ spans_met end meeting.now (links_read (reads_by (R.publishes readers.now) account.now) self.now.links)) }
    {
        self.table.ids_ascend();
        let (nodes, root) = self.index(end).parts();
        let rows = overlapping(nodes, root, meeting)?;
        spans_read(alloc, &self.table, rows.as_slice(), readers, account)
    }

    /// Of these ids the first `limit`, in their order, of links whose home may be read for the account.
    pub fn ids_read_for<R: Readers>(
        &self,
        alloc: Global,
        ids: &[Tumbler],
        readers: &R,
        account: &Option<Tumbler>,
        limit: u32,
    ) -> Result<List<Tumbler>, Memory>
        ensures { IfOk result (λ made. made.items ≡ take limit (ids_read (reads_by (R.publishes readers.now) account.now) self.now.links ids.now)) }
    {
        ids_read(alloc, &self.table, ids, readers, account, limit)
    }

    /// How many of the ids are of links whose home may be read for the account. It takes no memory.
    pub fn count_read_for<R: Readers>(
        &self,
        ids: &[Tumbler],
        readers: &R,
        account: &Option<Tumbler>,
    ) -> usize
        ensures { result ≡ length (ids_read (reads_by (R.publishes readers.now) account.now) self.now.links ids.now) }
    {
        count_read(&self.table, ids, readers, account)
    }

    /// Makes one step of the balancer in the index of end 1, 2 or 3, if one is allowed.
    ///
    /// Each index keeps its rows. Where memory is refused all is as before. Where no step is allowed it takes no memory.
    pub fn balance(&mut self, end: u32) -> Result<Balance, Memory>
        requires end { (end ≡ 1) ⊎ (end ≡ 2) ⊎ (end ≡ 3) }
        ensures links { self.new.links ≡ self.old.links }
        ensures from { rows_in_index self.new.from ≡ rows_in_index self.old.from }
        ensures to { rows_in_index self.new.to ≡ rows_in_index self.old.to }
        ensures three { rows_in_index self.new.three ≡ rows_in_index self.old.three }
        ensures others { self.new ≡ with_index end (index_at end self.new) self.old }
        ensures grows { AllGrow self.old self.new }
        ensures root { IfOk result (λ made. (index_at end self.new).root ≡ root_after (index_at end self.old).root made) }
        ensures lowers { IfOk result (λ made. is_idle made ≡ false → tree_debt (index_at end self.new).nodes (index_at end self.new).root.0 + 1 ≤ tree_debt (index_at end self.old).nodes (index_at end self.old).root.0) }
        ensures one { IfOk result (λ made. IsOneStep key_widths (index_at end self.new).nodes (node_at (index_at end self.old).nodes (index_at end self.old).root.0) made) }
        ensures idle { IfOk result (λ made. is_idle made ≡ not (tree_allows (index_at end self.old).nodes (index_at end self.old).root.0)) }
        ensures dropped { IfOk result (λ made. is_dropped made ≡ has_lone_child (node_at (index_at end self.old).nodes (index_at end self.old).root.0)) }
        ensures succeeds { tree_allows (index_at end self.old).nodes (index_at end self.old).root.0 ≡ false → IsOk result }
        ensures same { tree_allows (index_at end self.old).nodes (index_at end self.old).root.0 ≡ false → self.new ≡ self.old }
        ensures refused { OnErr result (self.new ≡ self.old) }
    {
        match end {
            1 => self.from.balance(),
            2 => self.to.balance(),
            _ => self.three.balance(),
        }
    }

    /// Makes the sweeps of the three indexes that were planned: nodes that no index reaches are let go. It takes no memory.
    pub fn finish_sweep(&mut self, from: SweepPlan, to: SweepPlan, three: SweepPlan)
        requires from { IsPlanFor self.old.from.nodes from }
        requires to { IsPlanFor self.old.to.nodes to }
        requires three { IsPlanFor self.old.three.nodes three }
        requires from_root { from.roots ≡ self.old.from.root.0 ∷ [] }
        requires to_root { to.roots ≡ self.old.to.root.0 ∷ [] }
        requires three_root { three.roots ≡ self.old.three.root.0 ∷ [] }
        ensures links { self.new.links ≡ self.old.links }
        ensures from { IsSweptTree key_widths self.old.from.nodes self.old.from.root.0 self.new.from.nodes self.new.from.root.0 }
        ensures to { IsSweptTree key_widths self.old.to.nodes self.old.to.root.0 self.new.to.nodes self.new.to.root.0 }
        ensures three { IsSweptTree key_widths self.old.three.nodes self.old.three.root.0 self.new.three.nodes self.new.three.root.0 }
    {
        self.from.finish_sweep(from);
        self.to.finish_sweep(to);
        self.three.finish_sweep(three);
    }

    /// What `back` goes back to. It takes no memory.
    pub fn mark(&self) -> LinkMarks
        ensures mark { result ≡ marks_of self.now }
        ensures below { (result.from.root.0 < result.from.count) × (result.to.root.0 < result.to.count) × (result.three.root.0 < result.three.count) }
    {
        LinkMarks {
            from: self.from.mark(),
            to: self.to.mark(),
            three: self.three.mark(),
        }
    }

    /// Takes the link of an id out, if it is there, and takes each index back to its mark. It takes no memory.
    pub fn back(&mut self, id: &Tumbler, marks: &LinkMarks)
        requires below { (marks.now.from.root.0 < marks.now.from.count) × (marks.now.to.root.0 < marks.now.to.count) × (marks.now.three.root.0 < marks.now.three.count) }
        requires counted { (marks.now.from.count ≤ length self.old.from.nodes) × (marks.now.to.count ≤ length self.old.to.nodes) × (marks.now.three.count ≤ length self.old.three.nodes) }
        requires from { HoldsRuns 1 (removed self.old.links id.now) (at_mark marks.now.from self.old.from) }
        requires to { HoldsRuns 2 (removed self.old.links id.now) (at_mark marks.now.to self.old.to) }
        requires three { HoldsRuns 3 (removed self.old.links id.now) (at_mark marks.now.three self.old.three) }
        ensures value { self.new ≡ at_marks id.now marks.now self.old }
        ensures restored { (before : LinkLists) → AllGrow before self.old → marks.now ≡ marks_of before → removed self.old.links id.now ≡ before.links → self.new ≡ before }
    {
        self.table.remove(id);
        self.from.back(&marks.from);
        self.to.back(&marks.to);
        self.three.back(&marks.three);
    }

    /// The index of each end has the runs of that end. It takes no memory.
    pub fn ends_are_indexed(&self)
        ensures from { HoldsRuns 1 self.now.links self.now.from }
        ensures to { HoldsRuns 2 self.now.links self.now.to }
        ensures three { HoldsRuns 3 self.now.links self.now.three }
    {
        let _ = &self.from;
    }

    /// Goes on with other indexes of the three ends, which have the same runs. It takes no memory.
    pub fn set_indexes(&mut self, from: Spanfilade, to: Spanfilade, three: Spanfilade)
        requires from { HoldsRuns 1 self.old.links from }
        requires to { HoldsRuns 2 self.old.links to }
        requires three { HoldsRuns 3 self.old.links three }
        ensures { self.new ≡ record { links = self.old.links; from = from; to = to; three = three } }
    {
        self.from = from;
        self.to = to;
        self.three = three;
    }

    /// The index of end 1, 2 or 3. It takes no memory.
    pub fn index(&self, end: u32) -> &Spanfilade
        requires { (end ≡ 1) ⊎ (end ≡ 2) ⊎ (end ≡ 3) }
        ensures index { result.now ≡ index_at end self.now }
        ensures holds { HoldsRuns end self.now.links result.now }
    {
        match end {
            1 => &self.from,
            2 => &self.to,
            _ => &self.three,
        }
    }
}
