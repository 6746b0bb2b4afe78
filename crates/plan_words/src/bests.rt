//! The steps on the best word: a pass looks at the least pair of a cost and a goal node, and posts a goal node.

ghost use Rattle.std.specs.Prelude.{◌≡◌, ◌≢◌, ℕ, suc, ◌+◌, ◌<◌, ◌≤◌, ◌^◌, ◌==◌, if◌then◌else◌, length, true, IfNone, IfSome};
ghost use Rattle.plan_model.specs.Runs.Textbook.{skipping_goals};
ghost use Rattle.plan_model.specs.Trees.BestNode.{lies_in_goals};
ghost use Rattle.plan_words.specs.Nodes.{FindsGoalNode};
ghost use Rattle.plan_words.specs.States.{BelongsTo, GoesOn, HasWholeShare, with_view};
ghost use Rattle.grown_runs.specs.Runs.GrownWords.{has_node};
ghost use Rattle.step_core.specs.SeenBests.{IsInformed, MayPost, SeesGoal, seen_first_cost};
ghost use Rattle.step_core.specs.ViewSteps.{best_loaded, best_with, hand_with_best, hand_with_post, last_note, with_post};
ghost use Rattle.step_core.specs.Views.{last_look, sees};
ghost use Rattle.grown_runs.specs.Table.WordNames.{WritesWord};
ghost use Rattle.grown_runs.specs.Table.WordNames.Word.{Best, TreeOf};
ghost use Rattle.grown_runs.specs.Table.Words.{best_of_word, best_word, cost_in};

use crate::nodes::at_stage;
use crate::passes::Pass;
use crate::rules::LoadBest;
use crate::shared::Shared;
use plan_model::Point;
use step_core::{Hand, Stage, lies_in_goals, pair_in, read_best};

impl Shared {
    /// The least pair of a cost, in 256ths of a lattice step, and a goal node that the run began with or any pass has posted: the node
    /// and the cost, which it does not exceed now. It is no greater than the pair of first cost and number of each goal node that is
    /// the start, or that the pass has seen recorded, as all are that its worker has placed. `None` only if the word told of no goal
    /// node at this step, and then there is no such node. The scene is informed. A hand for whose mark nothing is written takes what
    /// was found.
    pub fn best(&self, pass: &mut Pass) -> Option<(u32, u64)>
        requires belongs { BelongsTo pass.old self.now }
        requires informed { IsInformed pass.old.view.run }
        ensures view { pass.new ≡ with_view pass.old (best_loaded pass.old.view pass.new.view.best) }
        ensures goes_on { GoesOn pass.old.view pass.new.view }
        ensures looked { WritesWord Best (pass.old.view.steps + 1) (last_look pass.old.view) (last_look pass.new.view) }
        ensures found { result ≡ best_of_word pass.new.view.best }
        ensures within { IfSome result (λ best. best.0 ≤ length pass.old.view.run.marks) }
        ensures least { IfSome result (λ best. (n : ℕ) → has_node (sees pass.old.view) n ≡ true → SeesGoal pass.old.view n
            → best_word best.1 best.0 ≤ best_word (seen_first_cost pass.old.view n) n) }
        ensures none { IfNone result ((n : ℕ) → has_node (sees pass.old.view) n ≡ true → ¬ SeesGoal pass.old.view n) }
        // a pass with the whole share finds what it has seen of the best word
        ensures same { HasWholeShare pass.old.view → pass.new.view.best ≡ pass.old.view.best }
        // and it has seen the node, and that it costs no more
        ensures whole { HasWholeShare pass.old.view → IfSome result (FindsGoalNode pass.old.view) }
    {
        let word = self
            .table
            .shared
            .load::<LoadBest>(&mut pass.seat, self.places.best());
        pass.hand = take_best(pass.hand, word);
        read_best(word)
    }

    /// Posts a goal node: the best word becomes the lesser of what it was and of the pair of what the node was seen to cost and its
    /// number. The node is seen with its point and its cost, and lies in a goal by which marks are skipped; the pass has a share. If it is
    /// the node in hand, and counted, it may be recorded then.
    pub fn post(&self, pass: &mut Pass, node: u32)
        requires belongs { BelongsTo pass.old self.now }
        requires may { MayPost pass.old.view node }
        ensures view { pass.new ≡ with_view pass.old (with_post pass.old.view node pass.new.view.best (last_note pass.new.view)) }
        ensures goes_on { GoesOn pass.old.view pass.new.view }
        ensures looked { WritesWord Best (pass.old.view.steps + 1) (last_look pass.old.view) (last_look pass.new.view) }
        ensures posted { pass.new.view.best ≤ best_word (cost_in (sees pass.old.view (TreeOf node))) node }
        // a pass with the whole share knows what the lesser is
        ensures whole { HasWholeShare pass.old.view → pass.new.view.best ≡ best_with pass.old.view node pass.old.view.best }
    {
        let (_, cost) = pair_in(pass.pairs.word(node));
        self.post_at(&mut pass.seat, node, cost);
        pass.hand = note_post(pass.hand, node);
    }
}

impl Shared {
    /// Whether the point lies in a goal by which marks are skipped: in one of the scene's goals, if the scene is informed. O(g) for g goals.
    pub fn has_goal_at(&self, point: Point) -> bool
        ensures { result ≡ lies_in_goals (skipping_goals self.now.task.scene) point }
    {
        self.task.scene.informed && lies_in_goals(self.task.scene.goals.as_slice(), point)
    }
}

/// The hand with the best word that was loaded, if nothing is written for its mark.
fn take_best(hand: Option<Hand>, word: u64) -> Option<Hand>
    ensures { result ≡ hand_with_best hand word }
{
    let hand = hand?;
    Some(match hand.stage {
        Stage::Claimed => Hand {
            best: Some(word),
            ..hand
        },
        _ => hand,
    })
}

/// The hand after a node was posted: if that is its own, which is counted, the hand has come so far.
pub(crate) fn note_post(hand: Option<Hand>, node: u32) -> Option<Hand>
    requires { IfSome hand (λ own. own.mark + 1 < 2 ^ 32) }
    ensures { result ≡ hand_with_post hand node }
{
    let hand = hand?;
    Some(match hand.stage {
        Stage::Counted if hand.mark + 1 == node => at_stage(hand, Stage::Posted),
        _ => hand,
    })
}
