//! The index.
ghost use Rattle.std.specs.Prelude.{◌≡◌, ◌<◌, ◌≤◌, ◌+◌, [], ◌∷◌, ◌++◌, length, not, false, All, IsOk, IfOk, IfSome, IfNone, OnOk, OnErr};
ghost use Rattle.std.specs.List.Sorted.{IsPermutation};
ghost use Rattle.tumbler.specs.Span.{SpanFits};
ghost use Rattle.enfilade_core.specs.Rows.{rows_of, node_at};
ghost use Rattle.enfilade_core.specs.Summary.{depth_of};
ghost use Rattle.enfilade_core.specs.Exchange.{Grows};
ghost use Rattle.enfilade_core.specs.BalanceState.{tree_debt, tree_allows, has_lone_child};
ghost use Rattle.enfilade_balance.specs.OneStep.{IsOneStep};
ghost use Rattle.enfilade_balance.specs.Steps.{root_after, is_idle, is_dropped};
ghost use Rattle.enfilade_core.specs.Axes.{IsWellFormedRow, InOrder};
ghost use Rattle.enfilade_core.specs.Planes.{key_widths};
ghost use Rattle.enfilade_sweep.specs.Sweep.{IsSweptTree};
ghost use Rattle.enfilade_sweep.specs.Plan.{IsPlanFor};
ghost use Rattle.spanfilade.specs.Index.{IndexTree, rows_in_index, row_of, rows_for, with_span, IsCovered, mark_of, at_mark};
ghost use Rattle.spanfilade.specs.Keys.{keys_met, count_met};

use crate::groups::put_all;
use crate::joining::{by_start, joined};
use crate::keys::{listed, take_keys};
use crate::lengthening::{longer_row, put_longer};
use enfilade_balance::{Balance, balance_step};
use enfilade_core::{Arena, KeyPlane, Node, Row, TreeMark};
use enfilade_search::{overlapping, overlapping_up_to};
use enfilade_sweep::{SweepPlan, finish_tree, plan_tree};
use std::alloc::Global;
use std::collections::BTreeSet;
use std::marker::Model;
use tumbler::laws::is_tumbler;
use tumbler::{List, Memory, Span, Tumbler};

/// Spans, each with the key that it was added for.
///
/// A tree has a row for each span that was added, or one for several of a key that `cover` took together: where
/// it starts, its width, and the key. The rows are in the order of their starts. None is taken out, but by going
/// back to a mark.
#[derive(Drop)]
pub struct Spanfilade {
    arena: Arena<KeyPlane>,
    root: Node,
}

impl Model for Spanfilade {
    ghost use Rattle.std.specs.Prelude.{length, ◌<◌};
    ghost use Rattle.spanfilade.specs.Index.{IndexTree};

    ghost Value = { IndexTree };

    ghost view = { λ s. record { nodes = s.arena; root = s.root } };

    ghost invariant = { λ s. s.root.0 < length s.arena };
}

impl Spanfilade {
    /// An index of no spans.
    pub fn new(alloc: Global) -> Result<Spanfilade, Memory>
        ensures { IfOk result (λ made. rows_in_index made ≡ []) }
    {
        let mut arena = Arena::new(alloc);
        let root = arena.empty()?;
        Ok(Spanfilade { arena, root })
    }

    /// The index of this root in an arena. It takes no memory.
    pub fn from_parts(arena: Arena<KeyPlane>, root: Node) -> Spanfilade
        requires { root.0 < length arena }
        ensures value { result ≡ record { nodes = arena; root = root } }
    {
        Spanfilade { arena, root }
    }

    /// Adds a span for a key, in front of the spans that start where it does.
    ///
    /// Where it is refused the spans are as before, though the arena may hold more nodes.
    pub fn add(&mut self, span: &Span, key: &Tumbler) -> Result<(), Memory>
        requires { SpanFits span.now }
        ensures added { OnOk result (rows_in_index self.new ≡ with_span span.now key.now (rows_in_index self.old)) }
        ensures level { OnOk result (depth_of key_widths self.new.nodes self.new.root.0 ≡ depth_of key_widths self.old.nodes self.old.root.0) }
        ensures refused { OnErr result (rows_in_index self.new ≡ rows_in_index self.old) }
        ensures stays { OnErr result (self.new.root ≡ self.old.root) }
        ensures grows { Grows self.old.nodes self.new.nodes }
    {
        let rows = one_row(self.arena.allocator(), span, key)?;
        self.root = self.arena.splice(self.root, &span.start, &rows)?;
        Ok(())
    }

    /// Adds many spans for one key.
    ///
    /// The spans are sorted first. Those that no row stands between come in together, with one copy of the path.
    /// Where it is refused the spans are as before, though the arena may hold more nodes.
    pub fn add_all(&mut self, spans: &List<Span>, key: &Tumbler) -> Result<(), Memory>
        requires { All SpanFits spans.now.items }
        ensures added { OnOk result (IsPermutation (rows_for spans.now.items key.now ++ rows_in_index self.old) (rows_in_index self.new)) }
        ensures ordered { OnOk result (InOrder (rows_in_index self.new)) }
        ensures level { OnOk result (depth_of key_widths self.new.nodes self.new.root.0 ≡ depth_of key_widths self.old.nodes self.old.root.0) }
        ensures refused { OnErr result (rows_in_index self.new ≡ rows_in_index self.old) }
        ensures stays { OnErr result (self.new.root ≡ self.old.root) }
        ensures grows { Grows self.old.nodes self.new.nodes }
    {
        let sorted = by_start(self.arena.allocator(), spans.as_slice())?;
        self.root = put_all(&mut self.arena, self.root, sorted.as_slice(), key)?;
        Ok(())
    }

    /// Adds a span for a key, or makes a row of that key longer in which the span begins, or where the row ends and the
    /// span has a width.
    ///
    /// It is for text that is typed: each piece goes on where the one before it ended, and one row covers them
    /// all. The places that the spans of the key cover are the same as after `add`, also where the span has no width: then
    /// a row has its place already, or it comes in. Where it is refused the spans are as before, though the arena may hold more nodes.
    pub fn cover(&mut self, span: &Span, key: &Tumbler) -> Result<(), Memory>
        requires { SpanFits span.now }
        ensures covered { OnOk result (IsCovered span.now key.now (rows_in_index self.old) (rows_in_index self.new)) }
        ensures level { OnOk result (depth_of key_widths self.new.nodes self.new.root.0 ≡ depth_of key_widths self.old.nodes self.old.root.0) }
        ensures refused { OnErr result (rows_in_index self.new ≡ rows_in_index self.old) }
        ensures stays { OnErr result (self.new.root ≡ self.old.root) }
        ensures grows { Grows self.old.nodes self.new.nodes }
    {
        let Some(row) = longer_row(&self.arena, self.root, span, key) else {
            return self.add(span, key);
        };
        let Some(root) = put_longer(&mut self.arena, self.root, row, span, key)? else {
            return self.add(span, key);
        };
        self.root = root;
        Ok(())
    }

    /// The keys of the spans that meet one of these, in ascending order, each once.
    ///
    /// Spans are sorted and joined first, so many equal ones cost as one. Each joined span is looked up by
    /// itself, among those nodes alone whose spans can reach into it.
    pub fn keys_meeting(&self, spans: &List<Span>) -> Result<List<Tumbler>, Memory>
        requires { All SpanFits spans.now.items }
        ensures { IfOk result (λ found. found.items ≡ keys_met spans.now.items (rows_in_index self.now)) }
    {
        let alloc = self.arena.allocator();
        let joined = joined(alloc, spans.as_slice())?;
        let mut keys = BTreeSet::new(alloc);
        for span in joined.as_slice() {
            let rows = overlapping(&self.arena, self.root, span)?;
            take_keys(rows.as_slice(), &mut keys)?;
        }
        listed(alloc, &keys)
    }

    /// The keys of the spans that meet one of these, in ascending order, each once, or none at all where more than
    /// `limit` rows do. A row counts once for each span that it meets.
    ///
    /// Each span is looked up as it is, so spans are best joined before. It stops as soon as more than `limit` rows
    /// are found.
    pub fn keys_meeting_up_to(
        &self,
        spans: &List<Span>,
        limit: usize,
    ) -> Result<Option<List<Tumbler>>, Memory>
        requires { All SpanFits spans.now.items }
        ensures keys { IfOk result (λ found. IfSome found (λ keys. keys.items ≡ keys_met spans.now.items (rows_in_index self.now))) }
        ensures few { IfOk result (λ found. IfSome found (λ keys. count_met spans.now.items (rows_in_index self.now) ≤ limit)) }
        ensures more { IfOk result (λ found. IfNone found (limit < count_met spans.now.items (rows_in_index self.now))) }
    {
        let alloc = self.arena.allocator();
        let mut keys = BTreeSet::new(alloc);
        let mut left = limit;
        for span in spans.as_slice() {
            let Some(rows) = overlapping_up_to(&self.arena, self.root, span, left)? else {
                return Ok(None);
            };
            left -= rows.len();
            take_keys(rows.as_slice(), &mut keys)?;
        }
        let keys = listed(alloc, &keys)?;
        Ok(Some(keys))
    }

    /// Makes one step of the balancer, if one is allowed, and goes on with its root.
    ///
    /// The rows stay. Where memory is refused all is as before. Where no step is allowed it takes no memory.
    pub fn balance(&mut self) -> Result<Balance, Memory>
        ensures rows { rows_in_index self.new ≡ rows_in_index self.old }
        ensures grows { Grows self.old.nodes self.new.nodes }
        ensures root { IfOk result (λ made. self.new.root ≡ root_after self.old.root made) }
        ensures lowers { IfOk result (λ made. is_idle made ≡ false → tree_debt self.new.nodes self.new.root.0 + 1 ≤ tree_debt self.old.nodes self.old.root.0) }
        ensures one { IfOk result (λ made. IsOneStep key_widths self.new.nodes (node_at self.old.nodes self.old.root.0) made) }
        ensures idle { IfOk result (λ made. is_idle made ≡ not (tree_allows self.old.nodes self.old.root.0)) }
        ensures dropped { IfOk result (λ made. is_dropped made ≡ has_lone_child (node_at self.old.nodes self.old.root.0)) }
        ensures succeeds { tree_allows self.old.nodes self.old.root.0 ≡ false → IsOk result }
        ensures same { tree_allows self.old.nodes self.old.root.0 ≡ false → self.new ≡ self.old }
        ensures refused { OnErr result (self.new ≡ self.old) }
    {
        let mark = self.arena.mark();
        let Ok(made) = balance_step(&mut self.arena, self.root) else {
            self.arena.truncate(mark);
            return Err(Memory);
        };
        self.root = root_after(self.root, made);
        Ok(made)
    }

    /// What `back` goes back to. It takes no memory.
    pub fn mark(&self) -> TreeMark
        ensures mark { result ≡ mark_of self.now }
        ensures below { result.root.0 < result.count }
    {
        TreeMark {
            root: self.root,
            count: self.arena.mark(),
        }
    }

    /// Goes back to a mark: the spans that were added since are there no more. It takes no memory.
    pub fn back(&mut self, mark: &TreeMark)
        requires below { mark.now.root.0 < mark.now.count }
        requires counted { mark.now.count ≤ length self.old.nodes }
        ensures value { self.new ≡ at_mark mark.now self.old }
        ensures restored { (before : IndexTree) → Grows before.nodes self.old.nodes → mark.now ≡ mark_of before → self.new ≡ before }
    {
        self.arena.truncate(mark.count);
        self.root = mark.root;
    }

    /// Finds which nodes a sweep keeps. It takes all the memory that the sweep needs, and the index stays as it is.
    pub fn plan_sweep(&self) -> Result<SweepPlan, Memory>
        ensures made { IfOk result (IsPlanFor self.now.nodes) }
        ensures root { IfOk result (λ plan. plan.roots ≡ self.now.root.0 ∷ []) }
    {
        plan_tree(&self.arena, self.root)
    }

    /// Makes the sweep that was planned: nodes that the index does not reach are let go. It takes no memory.
    pub fn finish_sweep(&mut self, plan: SweepPlan)
        requires made { IsPlanFor self.old.nodes plan }
        requires root { plan.roots ≡ self.old.root.0 ∷ [] }
        ensures { IsSweptTree key_widths self.old.nodes self.old.root.0 self.new.nodes self.new.root.0 }
    {
        self.root = finish_tree(&mut self.arena, plan);
    }

    /// The arena and the root of the tree in it. It takes no memory.
    pub fn parts(&self) -> (&Arena<KeyPlane>, Node)
        ensures arena { result.0.now ≡ self.now.nodes }
        ensures root { result.1 ≡ self.now.root }
        ensures below { result.1.0 < length self.now.nodes }
    {
        (&self.arena, self.root)
    }
}

/// The row of a span that is added for a key.
pub(crate) fn row_of(span: &Span, key: &Tumbler) -> Row<Tumbler>
    requires { SpanFits span.now }
    ensures value { result ≡ row_of span.now key.now }
    ensures well_formed { IsWellFormedRow key_widths (row_of span.now key.now) }
{
    is_tumbler(&span.start);
    is_tumbler(&span.width);
    is_tumbler(key);
    Row {
        first: span.start.copy(),
        second: key.copy(),
        leaf: span.width.copy(),
    }
}

/// A list of one row: that of a span that is added for a key.
fn one_row(alloc: Global, span: &Span, key: &Tumbler) -> Result<List<Row<Tumbler>>, Memory>
    requires { SpanFits span.now }
    ensures value { IfOk result (λ rows. rows.items ≡ row_of span.now key.now ∷ []) }
    ensures well_formed { IsWellFormedRow key_widths (row_of span.now key.now) }
{
    let mut rows = List::new(alloc);
    rows.push(row_of(span, key))?;
    Ok(rows)
}

/// The root of a tree after a step.
fn root_after(root: Node, made: Balance) -> Node
    ensures { result ≡ root_after root made }
{
    match made {
        Balance::Split(made) | Balance::Merged(made) | Balance::Dropped(made) => made,
        Balance::Idle => root,
    }
}
