//! Points on the inner side of every edge of a polygon.

ghost use Rattle.std.specs.Prelude.{◌↔◌, IsTrue};
ghost use Rattle.convex_sets.specs.Boxes.{AreBoundedCorners, IsBoundedCorner, at_corner};
ghost use Rattle.plan_model.specs.Spaces.Zones.{IsInside};

use crate::orientations::orientation;
use crate::polygon_corners::next_corner;
use plan_model::Vertex;

/// Whether the point lies on the inner side of every edge, or on it.
pub(crate) fn is_inside(corners: &[Vertex], p: Vertex) -> bool
    requires corners { AreBoundedCorners corners.now }
    requires point { IsBoundedCorner p }
    ensures { IsTrue result ↔ IsInside corners.now (at_corner p) }
{
    for i in 0..corners.len() {
        let next = next_corner(corners.len(), i);
        if orientation(corners[i], corners[next], p) < 0 {
            return false;
        }
    }
    true
}
