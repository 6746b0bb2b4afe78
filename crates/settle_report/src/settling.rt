//! Settling: each kept cost becomes the node's cost-to-come, the sum of the edges from the start to it along the parents.
//!
//! A kept cost may be too high, since a node that is rewired costs less at once and its descendants are lowered later, or
//! not at all. It is never too low: each node but the start is kept at no less than what its parent is kept at and the edge.
//! As no two nodes stand at one point, each edge costs something, so a parent is kept at strictly less than its children.
//!
//! A run of one worker is settled as it stands. So the nodes are asked first, in the order of their numbers, whether each is
//! tight: kept at no more than what its parent is kept at and the edge. If all are, their costs are their sums.
//!
//! If not, each node is lowered to what its parent costs and the edge, after its parent. A mark says of which nodes that is
//! done; the start has one at once. From each node without a mark, in the order of their numbers, a climb leads up to the
//! first one whose parent has a mark. From there down all that were climbed over are lowered, and marked:
//!
//! ```text
//!     0 -- 1            1: its parent has a mark, so it is lowered itself
//!      \
//!       7 -- 4 -- 2     2: the climb goes over 4 to 7, and then 7, 4 and 2 are lowered
//! ```
//!
//! A node names its parent and not its children, so the climb notes at each parent which child it came from. Since kept costs
//! fall on the way up it comes to the start at last, and since they rise on the way down, that way ends as well. Each node is
//! climbed over once and lowered once.

ghost use Rattle.std.specs.Prelude.{◌≡◌, ◌↔◌, ◌<◌, ℕ, suc, Bool, true, false, IsOk, IsTrue, OnErr, OnOk, length, slice_index_or, slice_set};
ghost use Rattle.plan_model.specs.Trees.NodeLists.{IsPresent};
ghost use Rattle.plan_model.specs.Trees.TreeStates.{ChangesCosts, GrowsInto, IsSettled};
ghost use Rattle.settle_report.specs.SettledMarks.{CostsByParent, LeadsDown, MarksSettled, IsTight};
ghost use Rattle.grown_runs.specs.Runs.GrownRuns.{children_of_grown, state_of_grown};

use edge_cost::{cost, costs_less_through};
use grown_runs::Grown;
use plan_model::Memory;
use std::alloc::Global;

/// Makes each kept cost the node's cost-to-come, in 256ths of a lattice step: the costs of the edges from the start to it. All
/// else stays (nodes, parents, records and the kd-tree), and no cost rises.
///
/// It asks for nothing but a run. One that is settled stays as it is, and takes no memory. O(n) for n marks.
///
/// # Errors
///
/// `Memory` if the run is not settled and no memory is left for a mark and a number of each node; nothing has changed then.
pub fn settle(alloc: Global, grown: &mut Grown) -> Result<(), Memory>
    ensures task { grown.new.task ≡ grown.old.task }
    ensures limit { grown.new.limit ≡ grown.old.limit }
    ensures settled { OnOk result (IsSettled (state_of_grown grown.new)) }
    ensures costs_alone { OnOk result (ChangesCosts (state_of_grown grown.old) (state_of_grown grown.new)) }
    ensures grows { OnOk result (GrowsInto (state_of_grown grown.old) (state_of_grown grown.new)) }
    ensures children { (n : ℕ) (right : Bool) → children_of_grown grown.new n right ≡ children_of_grown grown.old n right }
    ensures unchanged { OnErr result (grown.new ≡ grown.old) }
    ensures no_memory { IsSettled (state_of_grown grown.old) → IsOk result }
    ensures stays { IsSettled (state_of_grown grown.old) → grown.new ≡ grown.old }
{
    if is_settled(grown) {
        return Ok(());
    }
    let nodes = grown.limit() as usize + 1;
    let mut settled = vec![in alloc; false; nodes]?;
    let mut below = vec![in alloc; 0; nodes]?;
    settled[0] = true;
    settle_all(grown, &mut settled, &mut below);
    Ok(())
}

/// Whether each node is kept at its cost-to-come already.
fn is_settled(grown: &Grown) -> bool
    ensures { IsTrue result ↔ IsSettled (state_of_grown grown.now) }
{
    for node in 1..=grown.limit() {
        if !is_tight(grown, node) {
            return false;
        }
    }
    true
}

/// Whether a node but the start, if it is present, is kept at no more than what its parent is kept at and the edge.
fn is_tight(grown: &Grown, node: u32) -> bool
    requires { 0 < node }
    ensures { IsTrue result ↔ IsTight (state_of_grown grown.now) node }
{
    let Some(here) = grown.point(node) else {
        return true;
    };
    let parent = grown.parent(node);
    let above = grown.point(parent).unwrap();
    !costs_less_through(grown.cost(parent), above, here, grown.cost(node))
}

/// Settles the nodes in the order of their numbers, each with those above it that are not settled yet.
fn settle_all(grown: &mut Grown, settled: &mut [bool], below: &mut [u32])
    requires marks { MarksSettled (state_of_grown grown.old) grown.old.limit settled.old }
    requires places { length below.old ≡ suc grown.old.limit }
    ensures task { grown.new.task ≡ grown.old.task }
    ensures limit { grown.new.limit ≡ grown.old.limit }
    ensures settled { IsSettled (state_of_grown grown.new) }
    ensures costs_alone { ChangesCosts (state_of_grown grown.old) (state_of_grown grown.new) }
    ensures children { (n : ℕ) (right : Bool) → children_of_grown grown.new n right ≡ children_of_grown grown.old n right }
{
    for node in 1..grown.limit() + 1 {
        if grown.point(node).is_some() && !settled[node as usize] {
            let top = climb(grown, settled, below, node);
            settle_down(grown, settled, below, top, node);
        }
    }
}

/// The first node from this one upwards whose parent is settled. At each parent on the way it notes from which child it came.
fn climb(grown: &Grown, settled: &[bool], below: &mut [u32], node: u32) -> u32
    requires present { IsPresent (state_of_grown grown.now).points node }
    requires other { 0 < node }
    requires marks { MarksSettled (state_of_grown grown.now) grown.now.limit settled.now }
    requires places { length below.old ≡ suc grown.now.limit }
    ensures top { IsPresent (state_of_grown grown.now).points result }
    ensures below_start { 0 < result }
    ensures hangs { IsTrue (slice_index_or settled.now ((state_of_grown grown.now).parent result) false) }
    ensures way { LeadsDown (state_of_grown grown.now) below.new result node }
{
    let mut at = node;
    let mut parent = grown.parent(at);
    while !settled[parent as usize] {
        below[parent as usize] = at;
        at = parent;
        parent = grown.parent(at);
    }
    at
}

/// Settles a node whose parent is settled, and then those on the way down to `node`, which is the last.
fn settle_down(grown: &mut Grown, settled: &mut [bool], below: &[u32], top: u32, node: u32)
    requires top { IsPresent (state_of_grown grown.old).points top }
    requires below_start { 0 < top }
    requires hangs { IsTrue (slice_index_or settled.old ((state_of_grown grown.old).parent top) false) }
    requires way { LeadsDown (state_of_grown grown.old) below.now top node }
    requires marks { MarksSettled (state_of_grown grown.old) grown.old.limit settled.old }
    requires places { length below.now ≡ suc grown.old.limit }
    ensures task { grown.new.task ≡ grown.old.task }
    ensures limit { grown.new.limit ≡ grown.old.limit }
    ensures costs_alone { ChangesCosts (state_of_grown grown.old) (state_of_grown grown.new) }
    ensures children { (n : ℕ) (right : Bool) → children_of_grown grown.new n right ≡ children_of_grown grown.old n right }
    ensures marks { MarksSettled (state_of_grown grown.new) grown.new.limit settled.new }
    ensures marked { IsTrue (slice_index_or settled.new node false) }
    ensures keeps { (n : ℕ) → IsTrue (slice_index_or settled.old n false) → IsTrue (slice_index_or settled.new n false) }
{
    let mut at = top;
    while at != node {
        settle_node(grown, settled, at);
        at = below[at as usize];
    }
    settle_node(grown, settled, node);
}

/// Settles a node whose parent is settled, and marks it.
fn settle_node(grown: &mut Grown, settled: &mut [bool], node: u32)
    requires present { IsPresent (state_of_grown grown.old).points node }
    requires other { 0 < node }
    requires hangs { IsTrue (slice_index_or settled.old ((state_of_grown grown.old).parent node) false) }
    requires marks { MarksSettled (state_of_grown grown.old) grown.old.limit settled.old }
    ensures task { grown.new.task ≡ grown.old.task }
    ensures limit { grown.new.limit ≡ grown.old.limit }
    ensures costs_alone { ChangesCosts (state_of_grown grown.old) (state_of_grown grown.new) }
    ensures children { (n : ℕ) (right : Bool) → children_of_grown grown.new n right ≡ children_of_grown grown.old n right }
    ensures marks { MarksSettled (state_of_grown grown.new) grown.new.limit settled.new }
    ensures marked { settled.new ≡ slice_set settled.old node true }
{
    lower_to_parent(grown, node);
    settled[node as usize] = true;
}

/// Lowers the kept cost of a node to what its parent is kept at and the edge.
fn lower_to_parent(grown: &mut Grown, node: u32)
    requires present { IsPresent (state_of_grown grown.old).points node }
    requires other { 0 < node }
    ensures task { grown.new.task ≡ grown.old.task }
    ensures limit { grown.new.limit ≡ grown.old.limit }
    ensures state { CostsByParent (state_of_grown grown.old) (state_of_grown grown.new) node }
    ensures children { (n : ℕ) (right : Bool) → children_of_grown grown.new n right ≡ children_of_grown grown.old n right }
{
    let parent = grown.parent(node);
    let above = grown.point(parent).unwrap();
    let here = grown.point(node).unwrap();
    grown.lower(node, grown.cost(parent) + cost(above, here));
}
