//! Zones with their boxes, and the order in which a tree holds them.

ghost use Rattle.std.specs.Prelude.{◌≡◌, ◌<◌, IfOk, IsPermutation, length};
ghost use Rattle.obstacle_boxes.specs.Trees.{AreLeavesOf, Holds, HoldsAll};

use convex_sets::{BoundingBox, Zone};
use plan_model::{Memory, Vertex};
use std::alloc::Global;

/// Up to so many zones stand side by side, with no box round a part of them.
pub(crate) const MOST_TOGETHER: usize = 2;

/// A zone with its bounding box.
#[derive(Debug, Clone, Copy)]
pub(crate) struct Leaf {
    /// The least box round the zone.
    pub(crate) bounds: BoundingBox,
    /// The number of the zone.
    pub(crate) zone: usize,
}

/// A leaf for each zone. O(n).
pub(crate) fn leaves_of(alloc: Global, zones: &[Zone]) -> Result<Vec<Leaf>, Memory>
    ensures { IfOk result (λ leaves. AreLeavesOf zones.now (length zones.now) leaves.items) }
{
    let mut leaves = Vec::new(alloc);
    for i in 0..zones.len() {
        leaves.push(Leaf {
            bounds: zones[i].bounding_box(),
            zone: i,
        })?;
    }
    Ok(leaves)
}

/// Brings leaves that lie near each other together: those of the lower half before those of the upper one, along the wider
/// side of the box round them, and so on within each half. O(n log² n).
pub(crate) fn order(leaves: &mut [Leaf])
    ensures { IsPermutation leaves.old leaves.new }
{
    if leaves.len() <= MOST_TOGETHER {
        return;
    }
    sort(leaves);
    let half = leaves.len() / 2;
    let (lower, upper) = leaves.split_at_mut(half);
    order(lower);
    order(upper);
}

/// Sorts leaves by the middles of their boxes, along the wider side of the box round them.
fn sort(leaves: &mut [Leaf])
    requires { 0 < length leaves.old }
    ensures { IsPermutation leaves.old leaves.new }
{
    let bounds = box_round(leaves);
    if width(bounds.low.x, bounds.high.x) < width(bounds.low.y, bounds.high.y) {
        leaves.sort_unstable_by_key(|leaf| twice_middle(leaf.bounds.low.y, leaf.bounds.high.y));
    } else {
        leaves.sort_unstable_by_key(|leaf| twice_middle(leaf.bounds.low.x, leaf.bounds.high.x));
    }
}

/// How far it is from one coordinate to another.
fn width(low: i32, high: i32) -> i64 {
    i64::from(high) - i64::from(low)
}

/// Twice the coordinate in the middle of two.
fn twice_middle(low: i32, high: i32) -> i64 {
    i64::from(low) + i64::from(high)
}

/// A box round those of some leaves. O(n).
pub(crate) fn box_round(leaves: &[Leaf]) -> BoundingBox
    requires { 0 < length leaves.now }
    ensures { HoldsAll result leaves.now }
{
    let mut bounds = leaves[0].bounds;
    for leaf in leaves {
        bounds = box_round_two(bounds, leaf.bounds);
    }
    bounds
}

/// The least box round two boxes.
fn box_round_two(p: BoundingBox, q: BoundingBox) -> BoundingBox
    ensures first { Holds result p }
    ensures second { Holds result q }
{
    BoundingBox {
        low: Vertex {
            x: p.low.x.min(q.low.x),
            y: p.low.y.min(q.low.y),
        },
        high: Vertex {
            x: p.high.x.max(q.high.x),
            y: p.high.y.max(q.high.y),
        },
    }
}
