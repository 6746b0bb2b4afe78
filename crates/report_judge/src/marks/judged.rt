//! What marks are judged by.

use crate::own::standings::Standing;
use edge_cost::Radii;
use plan_model::{Knot, Point, Record, Task};
use point_bands::Bands;

/// The nodes and the records of a report of a task.
#[derive(Clone, Copy)]
pub(crate) struct Listed<'a> {
    /// The task.
    pub task: &'a Task,
    /// The nodes by number.
    pub knots: &'a [Option<Knot>],
    /// The records by mark.
    pub records: &'a [Record],
    /// How many nodes there are.
    pub nodes: u32,
    /// The rewiring radii of the scene.
    pub radii: &'a Radii,
}

/// The nodes and the records of a report of a task, with the nodes of a worker that stood before a turn.
#[derive(Clone, Copy)]
pub(crate) struct Judged<'a> {
    /// The task.
    pub task: &'a Task,
    /// The nodes by number.
    pub knots: &'a [Option<Knot>],
    /// The records by mark.
    pub records: &'a [Record],
    /// The turn.
    pub turns: u32,
    /// The nodes of the worker before it, each by its place; the start is among them.
    pub own: &'a Bands,
    /// The standings of the worker's nodes, by place.
    pub standings: &'a [Standing],
    /// How many nodes there are.
    pub nodes: u32,
    /// The rewiring radii of the scene.
    pub radii: &'a Radii,
}

/// A mark with its record.
#[derive(Clone, Copy)]
pub(crate) struct Marked {
    /// Its number.
    pub k: u32,
    /// The mark.
    pub mark: Point,
    /// Its record.
    pub entry: Record,
}
