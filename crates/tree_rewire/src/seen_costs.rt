//! What a pass saw of costs last.

ghost use Rattle.std.specs.Prelude.{◌≡◌};
ghost use Rattle.step_core.specs.Histories.{IsLawfulView};
ghost use Rattle.tree_rewire.specs.SeenCosts.{SeesPair, cost_seen};

use plan_words::Pass;

/// What a node was seen to cost last.
pub(crate) fn seen_cost(pass: &Pass, node: u32) -> u64
    requires lawful { IsLawfulView pass.now.view }
    requires pair { SeesPair pass.now.view node }
    ensures { result ≡ cost_seen pass.now.view node }
{
    pass.pair(node).unwrap().1
}
