//! How a shared tree ends: with the closed run that its words have come to.

ghost use Rattle.std.specs.Prelude.{◌≡◌, ◌≢◌, ℕ, ◌<◌, ◌≤◌, None, Some};
ghost use Rattle.std.specs.Mem.Slots.{IsFull, slots_items, slots_len};
ghost use Rattle.plan_model.specs.Trees.TreeStates.{AreSameRuns};
ghost use Rattle.plan_model.specs.declared.records.Record.{Record};
ghost use Rattle.plan_words.specs.Claims.{HasNoneLeft};
ghost use Rattle.plan_words.specs.States.{BelongsTo};
ghost use Rattle.grown_runs.specs.Runs.GrownRuns.{state_of_grown};
ghost use Rattle.step_core.specs.Histories.{StandsAsSeen};
ghost use Rattle.grown_runs.specs.Table.PlacesOfWords.{sizes_in};
ghost use Rattle.grown_runs.specs.Table.RunWords.{words_in};
ghost use Rattle.step_core.specs.Stages.{state_of_links};
ghost use Rattle.step_core.specs.Views.{run_sizes, sees, share};
ghost use Rattle.grown_runs.specs.Table.WordNames.Word.{RecordOf};
ghost use Rattle.grown_runs.specs.Table.WordPlaces.{word_count};

use crate::openings::Aim;
use crate::passes::Pass;
use crate::retired::Retired;
use crate::shared::Shared;
use atomic_table::Closed;
use std::alloc::Global;
use step_core::{Grown, RunWords};

impl Shared {
    /// The closed run that the words have come to. Its limit is the greatest that the pass knows of: that of the opening run, of
    /// its claims, or of those of the passes that it took over. All that the pass has seen is in it, each node at the cost that was
    /// seen or less. The pass has the whole share and nothing in hand, and `claim` has found no mark below its greatest limit.
    /// Takes no memory, since the words go into the list that they came from. O(n) for n words.
    pub fn end(self, pass: Pass) -> Grown
        requires belongs { BelongsTo pass self }
        requires whole { share pass.view ≡ self.workers }
        requires idle { pass.view.hand ≡ None }
        requires none_left { HasNoneLeft pass.view }
        ensures task { result.task ≡ self.task }
        ensures limit { result.limit ≡ pass.view.most }
        ensures seen { StandsAsSeen pass.view (state_of_grown result) }
        // nor is there more in it: its tree and its records are those that the pass has seen
        ensures same { AreSameRuns (state_of_links (run_sizes pass.view.run) (sees pass.view)) (state_of_grown result) }
        // records that the opening run did not have are by workers of this one
        ensures workers { (k : ℕ) (entry : Record) → self.opening ≤ k → (state_of_grown result).record_of k ≡ Some entry → entry.worker < self.workers }
    {
        self.end_retired(pass.retire())
    }

    /// The closed run, as [`Shared::end`] gives it, from what is left of a pass. O(n) for n words.
    pub fn end_retired(self, retired: Retired) -> Grown
        requires belongs { BelongsTo retired self }
        requires whole { share retired.view ≡ self.workers }
        requires idle { retired.view.hand ≡ None }
        requires none_left { HasNoneLeft retired.view }
        ensures task { result.task ≡ self.task }
        ensures limit { result.limit ≡ retired.view.most }
        ensures seen { StandsAsSeen retired.view (state_of_grown result) }
        ensures same { AreSameRuns (state_of_links (run_sizes retired.view.run) (sees retired.view)) (state_of_grown result) }
        ensures workers { (k : ℕ) (entry : Record) → self.opening ≤ k → (state_of_grown result).record_of k ≡ Some entry → entry.worker < self.workers }
    {
        let Shared {
            table,
            task,
            workers: _,
            opening: _,
            places: _,
            alloc: _,
            spare,
        } = self;
        let closed = table.close_with(retired.seat);
        let mut words = spare;
        copy_words(&closed, &mut words);
        closed.free();
        let limit = first_unrecorded(&words);
        Grown::from_words(task, limit, words)
    }
}

/// Copies the words of a table that is closed, which has as many.
fn copy_words(closed: &Closed<Aim, Global>, words: &mut RunWords)
    requires full { IsFull closed.now.words }
    requires as_many { word_count (sizes_in words.old.places) ≡ slots_len closed.now.words }
    ensures places { words.new.places ≡ words.old.places }
    ensures items { words.new.list.items ≡ slots_items closed.now.words }
{
    for place in 0..words.places().len() {
        words.set(place, closed.word(place));
    }
}

/// The least mark without a record, or the number of marks.
fn first_unrecorded(words: &RunWords) -> u32
    ensures most { result ≤ (sizes_in words.now.places).marks }
    ensures before { (k : ℕ) → k < result → words_in words.now (RecordOf k) ≢ 0 }
    ensures first { result < (sizes_in words.now.places).marks → words_in words.now (RecordOf result) ≡ 0 }
{
    let marks = words.places().marks();
    for mark in 0..marks {
        if words.record(mark) == 0 {
            return mark as u32;
        }
    }
    marks as u32
}
