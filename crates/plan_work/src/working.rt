//! A worker, who handles mark after mark.

ghost use Rattle.std.specs.Prelude.{◌≡◌, ◌≤◌, length};
ghost use Rattle.plan_model.specs.Spaces.ConfigurationSpace.{space_of};
ghost use Rattle.plan_words.specs.Claims.{AllFull, AllLoaded};
ghost use Rattle.plan_words.specs.States.{GoesOn, MayClaim};
ghost use Rattle.plan_work.specs.OneWorker.{HandlesRest};
ghost use Rattle.plan_work.specs.Workers.{AllExtended, HasWorked};

use crate::extending::extend_by_radii;
use crate::gates::Gate;
use edge_cost::Radii;
use plan_words::{Pass, Shared};
use swept_check::Clearing;

/// Claims marks below the limit and handles each, until `claim` finds none left. The gate is told before each mark and after it;
/// it may wait, and no other worker waits for it. It ends, since each mark is one turn more of the worker. What `extend` promises of
/// a mark holds of each that was handled, between two moments of this call.
///
/// The pass has a share and nothing in hand, before and after. The limit is at least that of the opening run, with which no
/// mark is left, and at most the number of marks. The hall stands for the scene. No memory.
pub fn work<C: Clearing, G: Gate>(shared: &Shared, pass: &mut Pass, hall: &C, limit: u32, gate: &G)
    requires may_claim { MayClaim shared.now pass.old }
    requires hall { C.space hall.now ≡ space_of shared.now.task.scene }
    requires low { shared.now.opening ≤ limit }
    requires limit { limit ≤ length shared.now.task.marks }
    ensures goes_on { GoesOn pass.old.view pass.new.view }
    ensures worked { HasWorked shared.now pass.old pass.new limit }
    ensures none_left { AllFull pass.new.view limit }
    // each counter was loaded in this call
    ensures loaded { AllLoaded pass.new.view pass.old.view.steps }
    // each mark that it recorded was handled between two moments of this call, as `extend` promises
    ensures extended { AllExtended pass.old.view pass.new.view }
    // one worker alone handles them one after another, as the textbook does
    ensures textbook { shared.now.workers ≡ 1 → HandlesRest pass.old.view pass.new.view limit }
{
    let scene = &shared.task().scene;
    let radii = Radii::new(scene.step, scene.gamma);
    'marks: while let Some(k) = shared.claim(pass, limit) {
        let worker = pass.worker();
        let turn = pass.turn();
        gate.before(worker, turn);
        extend_by_radii(shared, pass, &radii, hall, k);
        gate.after(worker, turn);
    }
}
