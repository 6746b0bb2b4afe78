//! Whether each mark keeps the law of records.

ghost use Rattle.std.specs.Prelude.{◌≡◌, ◌<◌, ◌≤◌, ◌↔◌, ℕ, suc, IfNone, IfOk, IfSome, IsTrue, List, None, Some, length, slice_get, slice_index_or};
ghost use Rattle.plan_model.specs.Runs.Textbook.{skipping_goals};
ghost use Rattle.plan_model.specs.Runs.OrderLaw.{turns_of};
ghost use Rattle.plan_model.specs.Spaces.ConfigurationSpace.{space_of};
ghost use Rattle.plan_model.specs.Trees.NodeLists.{node_count};
ghost use Rattle.plan_model.specs.declared.limits.TheConstants.{MOST_MARKS, MOST_NODES};
ghost use Rattle.plan_model.specs.declared.records.Record.{Record};
ghost use Rattle.plan_model.specs.declared.trees.Knot.{Knot};
ghost use Rattle.grown_runs.specs.Runs.PackedRuns.{state_of_lists};
ghost use Rattle.report_judge.specs.Laws.FirstBreaks.{FitsEdges, HasFewTurns, IsFirstBreak};
ghost use Rattle.report_judge.specs.Workers.JudgedRuns.{AreListed, AreRadiiOf, HaveLowTurns, IsJudged, IsOwnHistory};
ghost use Rattle.report_judge.specs.Workers.JudgedRuns.{KeepsRecord, KeepsRecordBetween, KeepsRecordOf};
ghost use Rattle.report_judge.specs.Workers.OwnNodes.{HasNumber, IsFirstSeen, IsMarkBetween, ArePresent, FitFirstCosts};
ghost use Rattle.report_judge.specs.Workers.SeenNodes.{HaveOwnTurns};

use crate::first_breaks::earlier;
use crate::marks::judged::{Judged, Listed, Marked};
use crate::marks::lawful_marks::is_lawful;
use crate::marks::turns::{WORKERS, marks_by_worker};
use crate::own::own_histories::{OwnHistory, own_history};
use crate::own::own_marks::marks_between;
use crate::own::own_nodes::nodes_before;
use edge_cost::Radii;
use plan_model::{Goal, Knot, Memory, Record, Scene, Task};
use point_bands::Bands;
use std::alloc::Global;
use swept_check::Clearing;

/// How many turns of a worker are judged by the first of its sorted lists of nodes; each further list serves as many turns as all before it.
const FIRST_TURNS: u32 = 512;

/// The first mark that breaks the law of records; `None` exactly if each keeps it. The form and the laws of turns and of presence are kept.
/// O(n * w + n log n) for n marks of w workers, and for each mark what the nodes near it take.
///
/// # Errors
///
/// `Memory` if out of memory for what is kept of a worker.
pub(crate) fn first_unlawful<C: Clearing>(
    alloc: Global,
    task: &Task,
    hall: &C,
    knots: &[Option<Knot>],
    records: &[Record],
) -> Result<Option<usize>, Memory>
    requires hall { C.space hall.now ≡ space_of task.now.scene }
    requires numbers { length knots.now ≡ suc (length records.now) }
    requires few { length records.now ≤ MOST_MARKS }
    requires marks { length records.now ≡ length task.now.marks }
    requires fit { (n : ℕ) (other : Knot) → slice_index_or knots.now n None ≡ Some other → FitsEdges other }
    requires first { FitFirstCosts records.now }
    requires turns_fit { (k : ℕ) (entry : Record) → slice_get records.now k ≡ Some entry → HasFewTurns entry }
    requires present { ArePresent (state_of_lists knots.now records.now) }
    requires own { HaveOwnTurns records.now }
    requires low { HaveLowTurns records.now }
    ensures { IfOk result (λ first. IsFirstBreak (KeepsRecord task.now knots.now records.now) (length records.now) first) }
{
    let turns = marks_by_worker(records);
    let radii = Radii::new(task.scene.step, task.scene.gamma);
    let listed = Listed {
        task,
        knots,
        records,
        nodes: present_count(knots),
        radii: &radii,
    };
    let mut first = None;
    for worker in 0..WORKERS {
        let broken = first_unlawful_of(alloc, hall, &listed, worker as u32, turns[worker])?;
        first = earlier(first, broken);
    }
    Ok(first)
}

/// How many nodes are present. O(n).
pub(crate) fn present_count(knots: &[Option<Knot>]) -> u32
    requires { length knots.now ≤ MOST_NODES }
    ensures { (records : List Record) → result ≡ node_count (state_of_lists knots.now records).points }
{
    let mut count = 0;
    for knot in knots {
        if knot.is_some() {
            count += 1;
        }
    }
    count
}

/// The first mark of a worker that breaks the law of records; `None` exactly if each of its marks keeps it. Its marks are judged in
/// stretches of turns, each over the nodes that stood by its end, so that few nodes of later turns lie in the way.
fn first_unlawful_of<C: Clearing>(
    alloc: Global,
    hall: &C,
    listed: &Listed<'_>,
    worker: u32,
    turns: u32,
) -> Result<Option<usize>, Memory>
    requires hall { C.space hall.now ≡ space_of listed.now.task.now.scene }
    requires listed { AreListed listed.now }
    requires turns { turns ≡ turns_of (slice_get listed.now.records.now) (length listed.now.records.now) worker }
    ensures { IfOk result (λ first. IsFirstBreak (KeepsRecordOf worker listed.now.task.now listed.now.knots.now listed.now.records.now)
        (length listed.now.records.now) first) }
{
    if turns == 0 {
        return Ok(None);
    }
    let goals = skipping_goals(&listed.task.scene);
    let own = own_history(alloc, goals, listed.knots, listed.records, worker, turns)?;
    let mut first = None;
    let mut from = 0;
    while from < turns {
        let to = end_of_stretch(from, turns);
        let found = first_unlawful_between(alloc, hall, listed, &own, from, to)?;
        first = earlier(first, found);
        from = to;
    }
    Ok(first)
}

/// The goals by which marks of a scene may be skipped.
fn skipping_goals(scene: &Scene) -> &[Goal]
    ensures { result.now ≡ skipping_goals scene.now }
{
    if scene.informed {
        scene.goals.as_slice()
    } else {
        &[]
    }
}

/// The turn at which a stretch ends that begins at a turn, of a worker with so many.
fn end_of_stretch(from: u32, turns: u32) -> u32
    requires few { turns ≤ MOST_MARKS }
    requires more { from < turns }
    ensures onward { from < result }
    ensures within { result ≤ turns }
{
    FIRST_TURNS.max(2 * from).min(turns)
}

/// The first mark of a worker, of those of its turns from one up to another and without that, that breaks the law of records; `None`
/// exactly if each of them keeps it.
fn first_unlawful_between<C: Clearing>(
    alloc: Global,
    hall: &C,
    listed: &Listed<'_>,
    own: &OwnHistory,
    from: u32,
    to: u32,
) -> Result<Option<usize>, Memory>
    requires hall { C.space hall.now ≡ space_of listed.now.task.now.scene }
    requires listed { AreListed listed.now }
    requires own { IsOwnHistory (skipping_goals listed.now.task.now.scene) listed.now.knots.now listed.now.records.now own.now.turns.worker
        (length own.now.turns.marks.items) own.now }
    requires onward { from ≤ to }
    requires to { to ≤ length own.now.turns.marks.items }
    ensures { IfOk result (λ first. IsFirstBreak
        (KeepsRecordBetween own.now.turns.worker from to listed.now.task.now listed.now.knots.now listed.now.records.now)
        (length listed.now.records.now) first) }
{
    let nodes = nodes_before(alloc, listed.knots, listed.records, &own.turns, to)?;
    let marks = marks_between(alloc, listed.task, listed.records, &own.turns, from, to)?;
    let judged = Judged {
        task: listed.task,
        knots: listed.knots,
        records: listed.records,
        nodes: listed.nodes,
        radii: listed.radii,
        turns: to,
        own: &nodes,
        standings: &own.standings,
    };
    Ok(first_unlawful_among(hall, &judged, own, &marks))
}

/// The first of a list of marks that breaks the law of records. They are taken in the order of the list, which has those that lie near each
/// other together, so that the nodes near them are in the processor's caches.
fn first_unlawful_among<C: Clearing>(
    hall: &C,
    judged: &Judged<'_>,
    own: &OwnHistory,
    marks: &Bands,
) -> Option<usize>
    requires hall { C.space hall.now ≡ space_of judged.now.task.now.scene }
    requires few { length judged.now.records.now ≤ MOST_MARKS }
    requires marks { length judged.now.records.now ≡ length judged.now.task.now.marks }
    requires judged { IsJudged own.now.turns.worker judged.now }
    requires radii { AreRadiiOf judged.now.task.now.scene judged.now.radii.now }
    requires own { IsOwnHistory (skipping_goals judged.now.task.now.scene) judged.now.knots.now judged.now.records.now own.now.turns.worker
        (length own.now.turns.marks.items) own.now }
    requires turns { judged.now.turns ≤ length own.now.turns.marks.items }
    requires among { (k : ℕ) → HasNumber marks.now k → IsMarkBetween judged.now.records.now own.now.turns.worker 0 judged.now.turns k }
    ensures { IsFirstSeen (KeepsRecord judged.now.task.now judged.now.knots.now judged.now.records.now) marks.now (length marks.now) result }
{
    let mut first = None;
    for position in 0..marks.len() {
        let k = marks.at(position).number;
        if may_be_first(first, k) {
            if !keeps_law(hall, judged, own, k) {
                first = Some(k as usize);
            }
        }
    }
    first
}

/// Whether a mark of the worker keeps the law of records.
fn keeps_law<C: Clearing>(hall: &C, judged: &Judged<'_>, own: &OwnHistory, k: u32) -> bool
    requires hall { C.space hall.now ≡ space_of judged.now.task.now.scene }
    requires few { length judged.now.records.now ≤ MOST_MARKS }
    requires marks { length judged.now.records.now ≡ length judged.now.task.now.marks }
    requires judged { IsJudged own.now.turns.worker judged.now }
    requires radii { AreRadiiOf judged.now.task.now.scene judged.now.radii.now }
    requires own { IsOwnHistory (skipping_goals judged.now.task.now.scene) judged.now.knots.now judged.now.records.now own.now.turns.worker
        (length own.now.turns.marks.items) own.now }
    requires turns { judged.now.turns ≤ length own.now.turns.marks.items }
    requires between { IsMarkBetween judged.now.records.now own.now.turns.worker 0 judged.now.turns k }
    ensures { IsTrue result ↔ KeepsRecord judged.now.task.now judged.now.knots.now judged.now.records.now k }
{
    let entry = judged.records[k as usize];
    let seen = own.seen[entry.turn as usize];
    let mark = judged.task.marks.as_slice()[k as usize];
    is_lawful(hall, judged, seen, Marked { k, mark, entry })
}

/// Whether a mark comes before the first one so far, if there is one.
fn may_be_first(first: Option<usize>, k: u32) -> bool
    ensures none { IfNone first (IsTrue result) }
    ensures some { IfSome first (λ j. IsTrue result ↔ k < j) }
{
    match first {
        Some(first) => (k as usize) < first,
        None => true,
    }
}
