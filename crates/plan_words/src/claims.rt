//! Claims: the next mark of a strip is put into the hand of one pass.

ghost use Rattle.std.specs.Prelude.{◌≡◌, ◌≢◌, ℕ, ◌+◌, ◌%◌, ◌<◌, ◌≤◌, ◌==◌, if◌then◌else◌, length, None, IfNone, IfSome, MatchOption};
ghost use Rattle.plan_words.specs.Claims.{AllFull, AllLoaded, IsClaimed, IsLeastNext, IsLeastOpen, IsOpen, KeepsHand, LoadsCounters};
ghost use Rattle.plan_words.specs.Claims.{OwnsAllStrips, RaisesCounter, SeesAsBefore};
ghost use Rattle.plan_words.specs.States.{BelongsTo, GoesOn, HasWholeShare, run_in, with_view, worker_of};
ghost use Rattle.step_core.specs.ViewSteps.{claimed, last_note, loaded, mark_of};
ghost use Rattle.step_core.specs.Views.{sees, share};
ghost use Rattle.grown_runs.specs.Table.WordNames.{ChangesOnly, IsCounter, WritesWord};
ghost use Rattle.grown_runs.specs.Table.WordNames.Word.{Counter};

use crate::openings::Aim;
use crate::passes::Pass;
use crate::rules::Claim;
use crate::shared::Shared;
use plan_model::{Point, mark_of};
use step_core::{Hand, Stage};

/// The next mark of a strip: how many of its marks come before it.
#[derive(Clone, Copy)]
pub(crate) struct Next {
    pub(crate) strip: u32,
    pub(crate) round: u32,
}

impl Shared {
    /// Claims a mark below the limit: it is in this pass's hand from now on. By the counters that this call loads, a
    /// worker's own strips go before the others, and among either the least number goes first. Worker w of W owns the
    /// strips whose number leaves w when divided by W. `None` only if this call has seen each strip's counter at or above
    /// its quota below the limit; the pass then has nothing in hand, as before. O(s + w) for s strips and w workers, and as
    /// much more for each claim of another pass that comes between.
    ///
    /// The pass has a share and nothing in hand. The limit is at least that of the opening run, whose marks all have records,
    /// and at most the number of marks.
    pub fn claim(&self, pass: &mut Pass, limit: u32) -> Option<u32>
        requires belongs { BelongsTo pass.old self.now }
        requires part { 0 < share pass.old.view }
        requires idle { pass.old.view.hand ≡ None }
        requires low { self.now.opening ≤ limit }
        requires limit { limit ≤ length self.now.task.marks }
        ensures belongs { BelongsTo pass.new self.now }
        ensures goes_on { GoesOn pass.old.view pass.new.view }
        // of all words it sees none anew but counters, and the lists of the pass stay
        ensures others { ChangesOnly IsCounter (sees pass.old.view) (sees pass.new.view) }
        ensures view_alone { pass.new ≡ with_view pass.old pass.new.view }
        ensures loaded { AllLoaded pass.new.view pass.old.view.steps }
        ensures none { IfNone result (KeepsHand pass.old.view pass.new.view × AllFull pass.new.view limit) }
        ensures some { IfSome result (λ k. IsClaimed pass.old.view pass.new.view limit k) }
        // a pass with the whole share finds nothing new, and counts its mark; if all strips are its own it takes the least that is left
        ensures whole_none { HasWholeShare pass.old.view → IfNone result (SeesAsBefore pass.old.view pass.new.view) }
        ensures whole_some { HasWholeShare pass.old.view → IfSome result (λ k. RaisesCounter pass.old.view pass.new.view k) }
        ensures least { HasWholeShare pass.old.view → OwnsAllStrips pass.old.view.run (worker_of pass.old.view.crew)
            → IfSome result (λ k. IsLeastOpen pass.old.view k) }
    {
        'tries: loop {
            let next = self.first_open(pass, limit)?;
            if self.exchange(pass, next, limit) == u64::from(next.round) {
                return Some(mark_of(self.task.scene.strips, next.strip, next.round) as u32);
            }
        }
    }

    /// Loads the counter of each strip, and returns the next mark that goes first.
    fn first_open(&self, pass: &mut Pass, limit: u32) -> Option<Next>
        requires belongs { BelongsTo pass.old self.now }
        requires part { 0 < share pass.old.view }
        ensures loads { LoadsCounters self.now pass.old pass.new }
        ensures loaded { AllLoaded pass.new.view pass.old.view.steps }
        ensures first { MatchOption result (AllFull pass.new.view limit)
            (λ next. IsOpen pass.new.view (worker_of pass.old.view.crew) limit next.strip next.round) }
    {
        let strips = self.task.scene.strips;
        let worker = pass.worker();
        let own = self.least_of(pass, worker, limit);
        let other = self.least_of_others(pass, worker, limit);
        let first = if own < limit { own } else { other };
        if first >= limit {
            return None;
        }
        Some(Next {
            strip: first % strips,
            round: first / strips,
        })
    }

    /// Loads the counters of a worker's own strips, and returns the least of their next marks; or this one, if none is less.
    fn least_of(&self, pass: &mut Pass, owner: u32, most: u32) -> u32
        requires belongs { BelongsTo pass.old self.now }
        requires owner { owner < self.now.workers }
        ensures loads { LoadsCounters self.now pass.old pass.new }
        ensures least { IsLeastNext pass.old.view pass.new.view (λ g. g % self.now.workers ≡ owner) most result }
    {
        let strips = self.task.scene.strips;
        let mut least = u64::from(most);
        let mut strip = owner;
        'turns: while strip < strips {
            least = least.min(mark_of(strips, strip, self.taken(pass, strip)));
            strip += self.workers;
        }
        least as u32
    }

    /// The same for the strips of all other workers.
    fn least_of_others(&self, pass: &mut Pass, worker: u32, most: u32) -> u32
        requires belongs { BelongsTo pass.old self.now }
        requires worker { worker < self.now.workers }
        ensures loads { LoadsCounters self.now pass.old pass.new }
        ensures least { IsLeastNext pass.old.view pass.new.view (λ g. g % self.now.workers ≢ worker) most result }
    {
        let mut least = most;
        for owner in 0..self.workers {
            if owner != worker {
                least = self.least_of(pass, owner, least);
            }
        }
        least
    }

    /// Adds 1 to the counter of a strip if it is at this round, and then the mark is in hand. Returns what the counter was.
    fn exchange(&self, pass: &mut Pass, next: Next, limit: u32) -> u64
        requires belongs { BelongsTo pass.old self.now }
        requires part { 0 < share pass.old.view }
        requires idle { pass.old.view.hand ≡ None }
        requires strip { next.strip < self.now.task.scene.strips }
        requires low { mark_of (run_in self.now) next.strip next.round < limit }
        requires limit { limit ≤ length self.now.task.marks }
        ensures view { pass.new ≡ with_view pass.old
            (if result == next.round then claimed pass.old.view next.strip next.round limit (last_note pass.new.view)
            else loaded pass.old.view (Counter next.strip) result) }
        ensures goes_on { GoesOn pass.old.view pass.new.view }
        ensures seen { WritesWord (Counter next.strip) (if result == next.round then next.round + 1 else result) (sees pass.old.view) (sees pass.new.view) }
        ensures whole { HasWholeShare pass.old.view → result ≡ sees pass.old.view (Counter next.strip) }
    {
        let round = u64::from(next.round);
        let aim = Aim {
            strip: next.strip,
            limit,
        };
        let place = self.places.counter(next.strip as usize);
        let found = self
            .table
            .shared
            .compare_exchange_with::<Claim>(&mut pass.seat, place, round, round + 1, &aim);
        if found == round {
            pass.hand = Some(Hand {
                mark: mark_of(self.task.scene.strips, next.strip, next.round) as u32,
                stage: Stage::Claimed,
                best: None,
                nearest: 0,
                point: Point { x: 0, y: 0 },
                parent: 0,
                cost: 0,
            });
        }
        found
    }
}
