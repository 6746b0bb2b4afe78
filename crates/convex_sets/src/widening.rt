//! Bodies widened by a clearance.

ghost use Rattle.std.specs.Prelude.{◌≡◌, ◌==◌, ◌||◌, ◌<◌, ◌≤◌, IfOk, IsTrue, length, true};
ghost use Rattle.std.specs.List.{list_all};
ghost use Rattle.plan_model.specs.declared.limits.TheConstants.{LEAST_BODY_COORDINATE, LEAST_SUMMAND_COORDINATE};
ghost use Rattle.plan_model.specs.declared.limits.TheConstants.{MOST_BODY_COORDINATE, MOST_CLEARANCE, MOST_SUMMAND_COORDINATE};
ghost use Rattle.plan_model.specs.Geometry.Plane.{is_strictly_convex};
ghost use Rattle.plan_model.specs.Scenes.Limits.{is_corner_between};
ghost use Rattle.convex_sets.specs.Boxes.{IsWidenedBy, square};

use crate::merging::merged;
use crate::outlines::outline;
use plan_model::{Memory, Vertex};
use std::alloc::Global;

/// The corners of a body widened by a clearance, the Minkowski sum of the body and the square of the clearance: what the body
/// meets with the clearance, the wider one meets without. O(n).
pub(crate) fn widened(alloc: Global, body: &[Vertex], clearance: u32) -> Result<Vec<Vertex>, Memory>
    requires shape { IsTrue (length body.now == 1 || is_strictly_convex body.now) }
    requires within { IsTrue (list_all (is_corner_between LEAST_BODY_COORDINATE MOST_BODY_COORDINATE) body.now) }
    requires some { 0 < clearance }
    requires few { clearance ≤ MOST_CLEARANCE }
    ensures widened { IfOk result (λ wider. IsWidenedBy clearance body.now wider.items) }
    ensures convex { IfOk result (λ wider. is_strictly_convex wider.items ≡ true) }
    ensures within { IfOk result (λ wider. IsTrue (list_all (is_corner_between LEAST_SUMMAND_COORDINATE MOST_SUMMAND_COORDINATE) wider.items)) }
{
    let square_outline = outline(alloc, &square(clearance))?;
    let body_outline = outline(alloc, body)?;
    merged(alloc, square_outline.as_slice(), body_outline.as_slice())
}

/// The square from minus the clearance to the clearance on both axes.
fn square(clearance: u32) -> [Vertex; 4]
    requires { clearance ≤ MOST_CLEARANCE }
    ensures { result ≡ square clearance }
{
    let far = clearance as i32;
    [
        Vertex { x: -far, y: -far },
        Vertex { x: far, y: -far },
        Vertex { x: far, y: far },
        Vertex { x: -far, y: far },
    ]
}
