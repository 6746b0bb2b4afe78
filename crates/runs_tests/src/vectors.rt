//! Worked examples of definitions, each the contract of a function that does nothing.

ghost use Rattle.std.specs.Prelude.{Some, [], ◌∷◌, ◌+◌};
ghost use Rattle.grown_runs.specs.Ways.KdLinks.{LinksRise};
ghost use Rattle.settle_report.specs.SettledMarks.{AppendsPrefix};

/// Links to the next node, and of each node to itself.
pub fn links()
    ensures next { LinksRise (λ n right. Some (n + 1)) }
    ensures itself { ¬ LinksRise (λ n right. Some n) }
{}

/// A text of which one of two bytes was taken, and one that was taken whole.
pub fn cut_texts()
    ensures cut { AppendsPrefix (Some []) (Some (65 ∷ [])) (65 ∷ 66 ∷ []) }
    ensures whole { ¬ AppendsPrefix (Some []) (Some (65 ∷ [])) (65 ∷ []) }
{}
