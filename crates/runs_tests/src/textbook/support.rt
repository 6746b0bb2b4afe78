//! Small textbook runs, and what they must have.

ghost use Rattle.std.specs.Prelude.{◌≤◌, IsTrue};
ghost use Rattle.plan_model.specs.declared.limits.TheConstants.{MOST_GAMMA};
ghost use Rattle.plan_model.specs.Scenes.Limits.{is_plan};

use grown_runs::Grown;
use plan_model::{Goal, Marks, Memory, Outcome, Point, SmallScene};
use seq_planner::textbook;
use std::alloc::Global;
use std::process::Abort;
use swept_check::Hall;

/// Where a node stands, its parent and its kept cost.
pub(crate) type Node = (u32, u32, u32, u64);

/// What a record of worker 0 has: turn, nearest node, outcome, first parent, first cost and class.
pub(crate) type Entry = (u32, u32, Outcome, u32, u64, u32);

/// The textbook run over these marks in a room of 100 by 100, from its lower left corner by steps of 50.
fn small_run(alloc: Global, gamma: u32, marks: &[Point]) -> Result<Grown, Memory>
    requires gamma { gamma ≤ MOST_GAMMA }
    requires marks { IsTrue (is_plan 1 (Marks.Listed marks.now)) }
{
    let task = SmallScene {
        room: Point { x: 100, y: 100 },
        start: Point { x: 0, y: 0 },
        goal: Goal {
            low: Point { x: 90, y: 90 },
            high: Point { x: 99, y: 99 },
        },
        step: 50,
        gamma,
        seed: 0,
        strips: 1,
    }
    .task(alloc, marks)?;
    let hall = Hall::new(alloc, &task.scene)?;
    let run = textbook(alloc, task, &hall);
    drop(hall);
    run
}

/// A node of a run; `None` if it is absent.
fn node_of(grown: &Grown, number: u32) -> Option<Node> {
    let point = grown.point(number)?;
    Some((point.x, point.y, grown.parent(number), grown.cost(number)))
}

/// Asserts all nodes of a run, by number.
fn assert_nodes(rt: &impl Abort, grown: &Grown, wants: &[Option<Node>]) {
    assert!(rt; wants.len() == grown.limit() as usize + 1);
    for (number, want) in (0..).zip(wants) {
        assert!(rt; node_of(grown, number) == *want, "node {number}");
    }
}

/// Asserts the records of all marks of a run, by number.
fn assert_records(rt: &impl Abort, grown: &Grown, wants: &[Entry]) {
    assert!(rt; wants.len() == grown.limit() as usize);
    for (mark, want) in (0..).zip(wants) {
        assert!(rt; mark < grown.limit());
        let found = grown.record_of(mark);
        let seen = (
            found.turn,
            found.nearest,
            found.outcome,
            found.first_parent,
            found.first_cost,
            found.class,
        );
        assert!(rt; found.worker == 0 && seen == *want, "mark {mark}");
    }
}

/// Asserts all nodes and all records of the textbook run over these marks.
pub(crate) fn assert_run(
    rt: &impl Abort,
    alloc: Global,
    gamma: u32,
    marks: &[Point],
    nodes: &[Option<Node>],
    records: &[Entry],
) -> Result<(), Memory>
    requires gamma { gamma ≤ MOST_GAMMA }
    requires marks { IsTrue (is_plan 1 (Marks.Listed marks.now)) }
{
    let grown = small_run(alloc, gamma, marks)?;
    assert_nodes(rt, &grown, nodes);
    assert_records(rt, &grown, records);
    drop(grown);
    Ok(())
}
