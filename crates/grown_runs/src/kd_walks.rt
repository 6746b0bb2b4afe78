//! The walk along the way of a point through a kd-tree: from the root on to the child on the side of the point.

ghost use Rattle.std.specs.Prelude.{◌≡◌, ◌≢◌, ◌+◌, ◌<◌, None, not, false};
ghost use Rattle.plan_model.specs.declared.limits.TheConstants.{MOST_NODES};
ghost use Rattle.grown_runs.specs.Ways.KdLinks.{goes_right_by, StopsAt, side_of};

use crate::kd_sides::goes_right;
use crate::kd_trees::KdTree;
use plan_model::Point;

/// Where a walk along the way of a point has come to.
#[derive(Clone, Copy)]
pub struct Stop {
    /// How many nodes of the way come before the node.
    pub depth: u32,
    /// The number of the node.
    pub node: u32,
    /// Whether the children of the node are split by row.
    pub by_rows: bool,
    /// Where the node stands.
    pub here: Point,
}

impl Stop {
    /// The root, which stands here. O(1).
    #[inline]
    pub fn root(here: Point) -> Stop
        ensures { result ≡ record { depth = 0; node = 0; by_rows = false; here = here } }
    {
        Stop {
            depth: 0,
            node: 0,
            by_rows: false,
            here,
        }
    }

    /// Whether the way of a point leads to the right from the node. O(1).
    #[inline]
    pub fn leads_right(self, p: Point) -> bool
        ensures { result ≡ goes_right_by self.by_rows self.here p }
    {
        goes_right(self.by_rows, self.here, p)
    }

    /// A child of the node, which stands here. O(1).
    #[inline]
    pub fn next(self, child: u32, here: Point) -> Stop
        requires { self.depth < MOST_NODES }
        ensures { result ≡ record { depth = self.depth + 1; node = child; by_rows = not self.by_rows; here = here } }
    {
        Stop {
            depth: self.depth + 1,
            node: child,
            by_rows: !self.by_rows,
            here,
        }
    }
}

/// Walks the way of a point from the root on, until a node stands at the point, or is seen to have no child where the way leads on: by
/// one look at a point and one at a child for each node. O(d) for a tree of depth d.
#[inline]
pub fn walk<T: KdTree>(tree: &T, looks: &mut T::Looks, p: Point) -> Stop
    requires { T.may_look tree.now looks.old }
    ensures may { T.may_look tree.now looks.new }
    ensures looks { T.looked tree.now looks.old looks.new }
    ensures stops { StopsAt (T.seen tree.now looks.new) p result }
    // if no node stands at the point, the way ends at a place that was found empty
    ensures none { result.here ≢ p → (T.seen tree.now looks.new).child result.node (side_of result p) ≡ None }
    ensures empty { result.here ≢ p → T.found_empty tree.now looks.old looks.new result.node (side_of result p) }
{
    let mut stop = Stop::root(tree.point(looks, 0));
    'way: loop {
        if stop.here == p {
            return stop;
        }
        let Some(child) = tree.child(looks, stop.node, stop.leads_right(p)) else {
            return stop;
        };
        stop = stop.next(child, tree.point(looks, child));
    }
}
