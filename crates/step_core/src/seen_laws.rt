//! Laws of what workers have seen of a run in words, each the contract of a function that does nothing.

ghost use Rattle.plan_model.specs.Seen.SeenTrees.{HasSeenAtLeast, IsRooted, IsTrueOf, FollowWays};
ghost use Rattle.plan_model.specs.Seen.Sights.{IsLaterMoment};
ghost use Rattle.grown_runs.specs.Runs.GrownWords.{children_of_words};
ghost use Rattle.grown_runs.specs.Table.SeenWords.{LooksAt, MayLookAt, SeenWords, seen_tree_of_words, sight_of_words};
ghost use Rattle.step_core.specs.Stages.{linked_points, shared_tree_of_words};
ghost use Rattle.grown_runs.specs.Table.WordKinds.{AreBehind};
ghost use Rattle.grown_runs.specs.Table.WordNames.{Word, Words};
ghost use Rattle.grown_runs.specs.Table.WordPlaces.{Sizes};

/// If each seen word is 0 or may become the word now, no more was seen than the words say now. If it was seen from node 0
/// on besides, and each node is linked where its way leads, it is true of the tree in the words.
pub fn seen_words_are_true()
    ensures no_more { (sizes : Sizes) (seen words : Words) → AreBehind seen words
        → HasSeenAtLeast (seen_tree_of_words sizes seen) (seen_tree_of_words sizes words) }
    ensures of_the_tree { (sizes : Sizes) (seen words : Words) → AreBehind seen words → IsRooted (seen_tree_of_words sizes seen)
        → FollowWays (children_of_words words) (linked_points sizes words)
        → IsTrueOf (seen_tree_of_words sizes seen) (shared_tree_of_words sizes words) }
{}

/// If a worker looks at one word more, its seen words still may become the words now, and it is at a later moment. If the
/// word is of a node that it has seen, all is seen from node 0 on as before.
pub fn looks_keep_what_is_seen()
    ensures behind { (name : Word) (words : Words) (before after : SeenWords) → LooksAt name words before after
        → AreBehind before.seen words → AreBehind after.seen words }
    ensures later { (name : Word) (words : Words) (before after : SeenWords) → LooksAt name words before after
        → AreBehind before.seen words → (sizes : Sizes) → IsLaterMoment (sight_of_words sizes before) (sight_of_words sizes after) }
    ensures rooted { (name : Word) (words : Words) (before after : SeenWords) → LooksAt name words before after
        → AreBehind before.seen words → (sizes : Sizes) → MayLookAt (seen_tree_of_words sizes before.seen) name
        → IsRooted (seen_tree_of_words sizes before.seen) → IsRooted (seen_tree_of_words sizes after.seen) }
{}
