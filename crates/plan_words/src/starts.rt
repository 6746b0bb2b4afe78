//! How a shared tree begins: with the words of a closed run, and a pass for each worker.

ghost use Rattle.std.specs.Prelude.{◌≡◌, ℕ, ◌+◌, ◌≤◌, ◌<◌, None, Some, [], ◌∷◌, All, length, IfOk, OnOk, slice_index};
ghost use lib.ListN.{get_elem?};
ghost use mathlib.Core.Option.{some};
ghost use Rattle.plan_model.specs.Runs.OrderLaw.{turns_of};
ghost use Rattle.plan_model.specs.declared.limits.TheConstants.{MOST_WORKERS};
ghost use Rattle.plan_words.specs.Claims.{IsPassOf, StandsFor, each_after};
ghost use Rattle.plan_words.specs.States.{BelongsTo, HasPairs, IsTied, MayClaim, PassState, StartsAs, first_view, new_pass, run_in, with_view};
ghost use Rattle.grown_runs.specs.Runs.GrownRuns.{words_of_grown};
ghost use Rattle.grown_runs.specs.Runs.GrownWords.{record_at};
ghost use Rattle.step_core.specs.ViewSteps.{parted, second_alone, worker_apart};
ghost use Rattle.step_core.specs.Views.{crew_from, sees};

use crate::openings::{Aim, Opening};
use crate::passes::Pass;
use crate::rules::{HandOn, WorldLaw};
use crate::scratch::Scratch;
use crate::seen_pairs::SeenPairs;
use crate::shared::Shared;
use atomic_table::{Seat, Table};
use plan_model::Memory;
use std::alloc::{AllocError, Global};
use step_core::{Grown, Member, View};

impl Shared {
    /// The words of a run in one table, and a pass for each of 1 to `MOST_WORKERS` workers, in the order of their numbers, each
    /// with a share of 1; that of an only worker is the whole. Each has seen the whole run, and its next turn is the number of
    /// its worker's records there. In an informed scene the best word is the least pair of cost and number of the run's goal nodes. Takes
    /// all memory that later calls but `split` need. O(n * w) for n words and w workers.
    ///
    /// # Errors
    ///
    /// `Memory` if out of memory, for the table and its seats too. The run is gone then.
    pub fn start(alloc: Global, grown: Grown, workers: u32) -> Result<(Shared, Vec<Pass>), Memory>
        requires some { 1 ≤ workers }
        requires few { workers ≤ MOST_WORKERS }
        ensures task { IfOk result (λ started. started.0.task ≡ grown.task) }
        ensures workers { IfOk result (λ started. started.0.workers ≡ workers) }
        ensures opening { IfOk result (λ started. started.0.opening ≡ grown.limit) }
        ensures count { IfOk result (λ started. length started.1.items ≡ workers) }
        ensures passes { IfOk result (λ started. (w : ℕ) (pass : PassState) → get_elem? started.1.items w ≡ some pass
            → StartsAs started.0 grown w pass) }
        ensures may_claim { IfOk result (λ started. All (MayClaim started.0) started.1.items) }
    {
        let mut grown = grown;
        grown.write_best();
        let turns = count_turns(alloc, &grown, workers)?;
        Shared::deal(alloc, Opening { grown, workers }, turns.as_slice())
    }

    /// The words of a run in one table, and a pass for each worker, whose next turns these are.
    fn deal(alloc: Global, opening: Opening, turns: &[u32]) -> Result<(Shared, Vec<Pass>), Memory>
        requires counted { length turns.now ≡ opening.workers }
        requires turns { (w : ℕ) → w < opening.workers
            → slice_index turns.now w ≡ turns_of (record_at (words_of_grown opening.grown)) (length opening.grown.task.marks) w }
        ensures task { IfOk result (λ dealt. dealt.0.task ≡ opening.grown.task) }
        ensures workers { IfOk result (λ dealt. dealt.0.workers ≡ opening.workers) }
        ensures opening { IfOk result (λ dealt. dealt.0.opening ≡ opening.grown.limit) }
        ensures count { IfOk result (λ dealt. length dealt.1.items ≡ opening.workers) }
        ensures passes { IfOk result (λ dealt. (w : ℕ) (pass : PassState) → get_elem? dealt.1.items w ≡ some pass
            → IsPassOf dealt.0 (new_pass dealt.0.table (first_view opening)) w pass) }
    {
        let (shared, first) = Shared::open(alloc, opening, turns[0])?;
        let passes = shared.hand_out(first, turns)?;
        Ok((shared, passes))
    }

    /// The words of a run in one table, and the pass that stands for all workers. It works as worker 0, whose next turn this is.
    fn open(alloc: Global, opening: Opening, turn: u32) -> Result<(Shared, Pass), Memory>
        requires { turn ≡ turns_of (record_at (words_of_grown opening.grown)) (length opening.grown.task.marks) 0 }
        ensures task { IfOk result (λ opened. opened.0.task ≡ opening.grown.task) }
        ensures workers { IfOk result (λ opened. opened.0.workers ≡ opening.workers) }
        ensures opening { IfOk result (λ opened. opened.0.opening ≡ opening.grown.limit) }
        ensures first { IfOk result (λ opened. opened.1 ≡ new_pass opened.0.table (first_view opening)) }
        ensures belongs { IfOk result (λ opened. BelongsTo opened.1 opened.0) }
    {
        let (table, first) = table_of(alloc, &opening, turn)?;
        let Opening { grown, workers } = opening;
        let (task, opening, spare) = grown.into_words();
        let places = spare.places();
        let shared = Shared {
            table,
            task,
            workers,
            opening,
            places,
            alloc,
            spare,
        };
        Ok((shared, first))
    }

    /// The passes of all workers, made from the one that stands for them all.
    fn hand_out(&self, first: Pass, turns: &[u32]) -> Result<Vec<Pass>, AllocError>
        requires belongs { BelongsTo first self.now }
        requires crew { first.view.crew ≡ crew_from (run_in self.now) (sees first.view) 0 self.now.workers }
        requires hand { first.view.hand ≡ None }
        requires lists { first ≡ new_pass first.table first.view }
        requires counted { length turns.now ≡ self.now.workers }
        requires turns { (w : ℕ) → w < self.now.workers
            → slice_index turns.now w ≡ turns_of (record_at (sees first.view)) (length self.now.task.marks) w }
        ensures count { IfOk result (λ passes. length passes.items ≡ self.now.workers) }
        ensures passes { IfOk result (λ passes. (w : ℕ) (pass : PassState) → get_elem? passes.items w ≡ some pass → IsPassOf self.now first w pass) }
    {
        let mut first = first;
        let mut passes = self.hand_on_all(&mut first, turns)?;
        passes.insert(0, first)?;
        Ok(passes)
    }

    /// The passes of all workers but the first, made from the one that stands for them all, which is that of worker 0 then.
    fn hand_on_all(&self, first: &mut Pass, turns: &[u32]) -> Result<Vec<Pass>, AllocError>
        requires stands { StandsFor self.now first.old 1 first.old }
        requires counted { length turns.now ≡ self.now.workers }
        requires turns { (w : ℕ) → w < self.now.workers
            → slice_index turns.now w ≡ turns_of (record_at (sees first.old.view)) (length self.now.task.marks) w }
        ensures first { OnOk result (IsPassOf self.now first.old 0 first.new) }
        ensures count { IfOk result (λ passes. length passes.items + 1 ≡ self.now.workers) }
        ensures passes { IfOk result (λ passes. each_after (IsPassOf self.now first.old) passes.items) }
    {
        let mut passes = Vec::new(self.alloc);
        for worker in 1..self.workers {
            let pass = self.hand_on(first, worker, turns[worker as usize])?;
            passes.push(pass)?;
        }
        Ok(passes)
    }

    /// The second worker that the pass stands for gets a pass of its own.
    fn hand_on(&self, pass: &mut Pass, worker: u32, turn: u32) -> Result<Pass, AllocError>
        requires belongs { BelongsTo pass.old self.now }
        requires second { second_alone pass.old.view.crew ≡ record { worker = worker; turn = turn } ∷ [] }
        ensures left { OnOk result (pass.new ≡ with_view pass.old (parted pass.old.view)) }
        ensures right { IfOk result (λ other. other ≡ new_pass pass.old.table (worker_apart pass.old.view)) }
        ensures belongs { OnOk result (BelongsTo pass.new self.now) }
        ensures belongs_too { IfOk result (λ other. BelongsTo other self.now) }
    {
        let pairs = pass.pairs.copy(self.alloc)?;
        let lists = Scratch::new(self.alloc, self.places.marks() + 1)?;
        let seat = self.table.shared.split_seat::<HandOn>(&mut pass.seat);
        Ok(Pass {
            seat,
            member: Some(Member { worker, turn }),
            hand: None,
            pairs,
            lists,
        })
    }
}

/// The table of an opening, and the pass that stands for all workers. It works as worker 0, whose next turn this is.
fn table_of(
    alloc: Global,
    opening: &Opening,
    turn: u32,
) -> Result<(Table<Aim, View, Opening, WorldLaw, Global>, Pass), AllocError>
    requires { turn ≡ turns_of (record_at (words_of_grown opening.now.grown)) (length opening.now.grown.task.marks) 0 }
    ensures words { IfOk result (λ laid. laid.0.shared.table_id.words ≡ length opening.now.grown.words.list.items) }
    ensures slots { IfOk result (λ laid. laid.0.shared.table_id.slots ≡ 0) }
    ensures key { IfOk result (λ laid. laid.0.shared.key ≡ opening.now) }
    ensures first { IfOk result (λ laid. laid.1 ≡ new_pass laid.0.shared.table_id (first_view opening.now)) }
{
    let pairs = SeenPairs::of_run(alloc, &opening.grown)?;
    let (table, seat) = Table::of_words(alloc, opening.grown.words().as_slice(), opening)?;
    let first = first_pass(alloc, seat, turn, pairs)?;
    Ok((table, first))
}

/// The pass that stands for all workers. It works as worker 0, whose next turn this is.
fn first_pass(
    alloc: Global,
    seat: Seat<Aim, View>,
    turn: u32,
    pairs: SeenPairs,
) -> Result<Pass, AllocError>
    requires slots { seat.me.1 ≡ [] }
    requires tied { IsTied seat.me.0 (Some (record { worker = 0; turn = turn })) None }
    requires pairs { HasPairs seat.me.0 pairs }
    ensures { IfOk result (λ pass. pass ≡ new_pass seat.table_id seat.me.0) }
{
    let lists = Scratch::new(alloc, pairs.len() as usize)?;
    Ok(Pass {
        seat,
        member: Some(Member { worker: 0, turn }),
        hand: None,
        pairs,
        lists,
    })
}

/// How many records each worker has in a closed run, which has none from its limit on. O(n) for n marks below the limit.
fn count_turns(alloc: Global, grown: &Grown, workers: u32) -> Result<Vec<u32>, AllocError>
    ensures count { IfOk result (λ turns. length turns.items ≡ workers) }
    ensures each { IfOk result (λ turns. (w : ℕ) → w < workers
        → slice_index turns.items w ≡ turns_of (record_at (words_of_grown grown.now)) (length grown.now.task.marks) w) }
{
    let mut turns = Vec::from_elem(alloc, 0u32, workers as usize)?;
    for mark in 0..grown.limit() {
        let entry = grown.record_of(mark);
        if entry.worker < workers {
            turns[entry.worker as usize] += 1;
        }
    }
    Ok(turns)
}
