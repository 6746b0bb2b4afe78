//! The handling of one mark.

ghost use Rattle.std.specs.Prelude.{◌≡◌};
ghost use Rattle.plan_model.specs.Spaces.ConfigurationSpace.{space_of};
ghost use Rattle.plan_work.specs.Extensions.{Extends, MayExtend};
ghost use Rattle.plan_work.specs.ExtensionSteps.{AreRadiiOf, MaySteerOn, Places};

use crate::mark_placing::place_rewire_and_record;
use crate::mark_skipping::skipper;
use crate::mark_steering::{Tested, steer_and_test};
use crate::recording::record_unplaced;
use edge_cost::Radii;
use kd_shared::find;
use plan_model::{Outcome, Record};
use plan_words::{Pass, Shared};
use swept_check::Clearing;

/// Handles mark k, which is in hand with nothing written of it, by these radii.
pub(crate) fn extend_by_radii<C: Clearing>(
    shared: &Shared,
    pass: &mut Pass,
    radii: &Radii,
    hall: &C,
    k: u32,
) -> Record
    requires may { MayExtend shared.now pass.old k }
    requires radii { AreRadiiOf shared.now.task.scene radii.now }
    requires hall { C.space hall.now ≡ space_of shared.now.task.scene }
    ensures { Extends shared.now pass.old pass.new k result }
{
    if let Some(goal_node) = skipper(shared, pass, k) {
        return record_unplaced(shared, pass, goal_node, Outcome::Skipped);
    }
    steer_and_place(shared, pass, radii, hall, k)
}

/// Handles mark k, which is in hand with nothing written of it, and is not skipped.
fn steer_and_place<C: Clearing>(
    shared: &Shared,
    pass: &mut Pass,
    radii: &Radii,
    hall: &C,
    k: u32,
) -> Record
    requires may { MaySteerOn shared.now pass.old k }
    requires radii { AreRadiiOf shared.now.task.scene radii.now }
    requires hall { C.space hall.now ≡ space_of shared.now.task.scene }
    ensures { Places shared.now pass.old pass.new k result }
{
    let Tested { steering, is_clear } = steer_and_test(shared, pass, radii, hall, k);
    if steering.from == steering.point {
        let outcome = Outcome::Same(steering.nearest);
        return record_unplaced(shared, pass, steering.nearest, outcome);
    }
    if !is_clear {
        if let Some(node) = find(shared, pass, steering.point) {
            return record_unplaced(shared, pass, steering.nearest, Outcome::Same(node));
        }
        return record_unplaced(shared, pass, steering.nearest, Outcome::Blocked);
    }
    shared.write_point(pass, steering.nearest, steering.point);
    place_rewire_and_record(shared, pass, hall, k, steering)
}

/// Handles mark k, which is in hand with nothing written of it, as RRT* does (Karaman and Frazzoli, IJRR 2011), in a tree that
/// others grow: steers from the nearest node, tests the segment, takes the parent through which the new node costs the least,
/// links it, rewires the nodes near it, and stores the record, which it returns. All of it by what the pass has seen. The hall
/// stands for the scene.
///
/// In an informed scene it loads the best word first. If the goal node found there is found to cost no more than the bound of the mark
/// (`edge_cost::bound`), no path over the mark is cheaper: the outcome is `Skipped`, by that node, and nothing else is done for the mark, two
/// steps in all. A node that is placed in a goal is posted before any other is rewired.
///
/// Of a mark that is not skipped the outcome is `Same` only with a node that is seen at the steered point, and `Blocked` exactly if
/// none is seen there at return; then the segment is not clear. Of a node that was placed the parent was chosen by costs that this call
/// loaded, of each node that was seen with its point, within the radius and with a clear edge. Once it is linked, no such node is seen
/// dearer than through it, and what fell since is brought to the nodes seen below (`plan_work/specs/Extensions`, `IsPlacedAt`).
///
/// It takes at most five searches of the tree, with the walk to the node's place, and tests at most 2 k + 1 segments for k near nodes,
/// mostly two and those of the nodes that it rewires; it spreads the costs that fell. A skipped mark costs two roots, and O(g) for g
/// goals. No memory.
pub fn extend<C: Clearing>(shared: &Shared, pass: &mut Pass, hall: &C, k: u32) -> Record
    requires may { MayExtend shared.now pass.old k }
    requires hall { C.space hall.now ≡ space_of shared.now.task.scene }
    ensures { Extends shared.now pass.old pass.new k result }
{
    let scene = &shared.task().scene;
    let radii = Radii::new(scene.step, scene.gamma);
    extend_by_radii(shared, pass, &radii, hall, k)
}
