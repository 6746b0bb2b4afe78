//! Lists of what sessions give and of what they hand out.

use crate::betters::Better;
use plan_model::Sequence;
use step_core::Grown;

/// Better paths, in the order in which they came.
pub type Betters = Sequence<Better>;

/// A list of better paths for each of several scenes, in the order of the scenes.
pub type BetterLists = Sequence<Betters>;

/// A run for each of several scenes, in the order of the scenes.
pub type Growns = Sequence<Grown>;
