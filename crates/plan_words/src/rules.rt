//! The law of worlds as the rule of a table, and what each kind of step tells the pass that makes it.

use crate::openings::{Aim, Opening};
use atomic_table::{Join, Play, Split, TableRule};
use std::marker::{Brand, PhantomData};
use step_core::View;

/// The law of worlds.
pub struct WorldLaw;

impl TableRule<Aim, View, Opening> for WorldLaw {
    ghost use Rattle.plan_words.specs.States.{HoldsWorld, first_view, run_of_opening};

    ghost holds = { λ opening state. HoldsWorld (run_of_opening opening) state.words state.views };

    ghost first = { first_view };
}

/// An exchange of a counter.
pub(crate) struct Claim;

impl Play<Aim, View> for Claim {
    ghost use Rattle.plan_words.specs.Plays.{Claims};

    ghost then = { Claims };
}

/// A load.
pub(crate) struct Load;

impl Play<Aim, View> for Load {
    ghost use Rattle.plan_words.specs.Plays.{Loads};

    ghost then = { Loads };
}

/// A point of a node in hand, and the node that it is steered from, which no word tells.
pub trait SteeredFrom {
    ghost use Rattle.std.specs.Prelude.{ℕ};
    ghost use Rattle.plan_model.specs.declared.geometry.Point.{Point};

    ghost nearest: { ℕ };

    ghost point: { Point };
}

// Each call of `write_point` has its own node and point for it in the proof; these are never used.
impl SteeredFrom for Brand {
    ghost nearest = { 0 };

    ghost point = { record { x = 0; y = 0 } };
}

/// A store of a point.
pub(crate) struct WritePoint<S: SteeredFrom> {
    steered: PhantomData<S>,
}

impl<S: SteeredFrom> Play<Aim, View> for WritePoint<S> {
    ghost use Rattle.plan_words.specs.Plays.{WritesPoint};

    ghost then = { WritesPoint S.nearest S.point };
}

/// A store of a first word.
pub(crate) struct WriteFirst;

impl Play<Aim, View> for WriteFirst {
    ghost use Rattle.plan_words.specs.Plays.{WritesFirst};

    ghost then = { WritesFirst };
}

/// A store of a tree word.
pub(crate) struct WriteTree;

impl Play<Aim, View> for WriteTree {
    ghost use Rattle.plan_words.specs.Plays.{WritesTree};

    ghost then = { WritesTree };
}

/// An exchange of an empty child word.
pub(crate) struct Link;

impl Play<Aim, View> for Link {
    ghost use Rattle.plan_words.specs.Plays.{Links};

    ghost then = { Links };
}

/// An addition to the count.
pub(crate) struct Count;

impl Play<Aim, View> for Count {
    ghost use Rattle.plan_words.specs.Plays.{Counts};

    ghost then = { Counts };
}

/// An exchange of a tree word for one of lower cost.
pub(crate) struct Lower;

impl Play<Aim, View> for Lower {
    ghost use Rattle.plan_words.specs.Plays.{Lowers};

    ghost then = { Lowers };
}

/// A load of the best word.
pub(crate) struct LoadBest;

impl Play<Aim, View> for LoadBest {
    ghost use Rattle.plan_words.specs.Plays.{LoadsBest};

    ghost then = { LoadsBest };
}

/// A post, by which the best word becomes the lesser of two.
pub(crate) struct Post;

impl Play<Aim, View> for Post {
    ghost use Rattle.plan_words.specs.Plays.{Posts};

    ghost then = { Posts };
}

/// A store of a record.
pub(crate) struct Finish;

impl Play<Aim, View> for Finish {
    ghost use Rattle.plan_words.specs.Plays.{Finishes};

    ghost then = { Finishes };
}

/// A split that gives the second worker a seat of its own.
pub(crate) struct HandOn;

impl Split<View> for HandOn {
    ghost use Rattle.step_core.specs.ViewSteps.{parted, worker_apart};

    ghost left = { parted };

    ghost right = { worker_apart };
}

/// A split that gives no share.
pub(crate) struct Look;

impl Split<View> for Look {
    ghost use Rattle.step_core.specs.ViewSteps.{looker, stepped};

    ghost left = { stepped };

    ghost right = { looker };
}

/// A join.
pub(crate) struct TakeOver;

impl Join<View> for TakeOver {
    ghost use Rattle.step_core.specs.ViewSteps.{joined};
    ghost use Rattle.step_core.specs.Views.{spent};

    ghost both = { joined };

    ghost spent = { spent };
}
