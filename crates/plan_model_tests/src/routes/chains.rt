//! Worked examples of chains.

ghost use Rattle.plan_model_tests.specs.RouteExamples.{ChainVectors, LinkVectors};

/// A run in which a node moves below a later one: chains in order, and what they cost; a chain that is not, and costs less than its
/// last node.
pub fn chains()
    ensures { ChainVectors }
{}

/// Links in order, and links that lack one thing each.
pub fn links()
    ensures { LinkVectors }
{}
