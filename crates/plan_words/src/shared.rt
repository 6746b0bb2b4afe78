//! The shared words, and the steps that look at a number, record a mark, split a pass and join two.

ghost use Rattle.std.specs.Prelude.{◌≡◌, ◌≢◌, ℕ, ◌+◌, ◌<◌, ◌≤◌, [], length, slice_index, IfOk, None, OnErr, OnOk, IsSome, IfSome, Some};
ghost use Rattle.plan_model.specs.Trees.NodeLists.{node_count};
ghost use Rattle.plan_model.specs.declared.limits.TheConstants.{MOST_MARKS};
ghost use Rattle.plan_model.specs.declared.records.Record.{Record};
ghost use Rattle.plan_words.specs.Nodes.{HasParentsBelow};
ghost use Rattle.plan_words.specs.Plays.{Tells};
ghost use Rattle.plan_words.specs.States.{BelongsTo, GoesOn, HasWholeShare, MayClaim, new_pass, turn_of, turned, with_view, worker_of};
ghost use Rattle.grown_runs.specs.Runs.PackedRuns.{Sizes-set};
ghost use Rattle.grown_runs.specs.Table.PlacesOfWords.{sizes_in};
ghost use Rattle.step_core.specs.SeenRecords.{MayRecord, own_count};
ghost use Rattle.step_core.specs.Stages.{MayBeRecorded};
ghost use Rattle.step_core.specs.ViewSteps.{finished, joined, loaded, looker, stepped};
ghost use Rattle.step_core.specs.Views.{last_look, sees, share, tree_seen};
ghost use Rattle.grown_runs.specs.Table.WordKinds.{AreBehind, later_word};
ghost use Rattle.grown_runs.specs.Table.WordKinds.WordKind.{Falling};
ghost use Rattle.grown_runs.specs.Table.WordNames.{WritesWord};
ghost use Rattle.grown_runs.specs.Table.WordNames.Word.{Count, Counter};
ghost use Rattle.grown_runs.specs.Table.Words.{record_word};
ghost use Rattle.step_core.specs.declared.views.Hand.{Hand};
ghost use Rattle.step_core.specs.declared.views.Stage.TheVariants.{Linked};

use crate::openings::{Aim, Opening};
use crate::passes::Pass;
use crate::rules::{Finish, Load, Look, TakeOver, WorldLaw};
use crate::scratch::Scratch;
use crate::seen_pairs::SeenPairs;
use atomic_table::{Seat, Table};
use plan_model::{Memory, Record, Task};
use std::alloc::Global;
use std::marker::Model;
use step_core::{Member, RunWords, View, WordPlaces, pack_mark, pair_in, read_tree};

/// The tree that several workers grow, as words of one table. Each pass that a call takes, and what is left of one, was made or
/// split from this very tree. A call that is one step is O(1); no call but [`Shared::start`] and [`Shared::split`] can be out of memory, and none
/// waits.
#[derive(Drop)]
pub struct Shared {
    pub(crate) table: Table<Aim, View, Opening, WorldLaw, Global>,
    pub(crate) task: Task,
    pub(crate) workers: u32,
    pub(crate) opening: u32,
    pub(crate) places: WordPlaces,
    pub(crate) alloc: Global,
    /// What the words came from; they go back into it when the tree ends.
    pub(crate) spare: RunWords,
    ghost own_places: { sizes_in spare.places ≡ sizes_in places } by { Sizes-set (sizes_in spare.places) (sizes_in places) },
}

impl Model for Shared {
    ghost use Rattle.plan_words.specs.States.{IsTableOf, SharedState};
    ghost use Rattle.step_core.specs.Views.{run_of};

    ghost Value = { SharedState };

    ghost view = { λ s. record { table = s.table.shared.table_id; task = s.task; workers = s.workers; opening = s.opening } };

    ghost invariant = { λ s. IsTableOf s.table.shared.table_id s.table.shared.key (run_of s.task s.workers s.opening) s.places };
}

impl Shared {
    /// The task that is planned. O(1).
    pub fn task(&self) -> &Task
        ensures { result.now ≡ self.now.task }
    {
        &self.task
    }

    /// Loads the count of nodes, the start included.
    pub fn number(&self, pass: &mut Pass) -> u32
        requires { BelongsTo pass.old self.now }
        ensures view { pass.new ≡ with_view pass.old (loaded pass.old.view Count result) }
        ensures goes_on { GoesOn pass.old.view pass.new.view }
        // this word is seen as it was found, all others as before
        ensures seen { WritesWord Count result (sees pass.old.view) (sees pass.new.view) }
        ensures looked { WritesWord Count (pass.old.view.steps + 1) (last_look pass.old.view) (last_look pass.new.view) }
        // there are no fewer nodes than a worker has placed, by the records that were seen
        ensures own { (entry : Record) → own_count pass.old.view entry ≤ result }
        // a pass with the whole share, which has counted what it has linked, finds as many as it sees
        ensures whole { HasWholeShare pass.old.view → ((hand : Hand) → pass.old.view.hand ≡ Some hand → hand.stage ≢ Linked)
            → result ≡ node_count (tree_seen pass.old.view).points }
    {
        self.table
            .shared
            .load::<Load>(&mut pass.seat, self.places.count()) as u32
    }

    /// Loads the counter of a strip of the scene: how many of its marks are claimed.
    pub fn taken(&self, pass: &mut Pass, strip: u32) -> u32
        requires belongs { BelongsTo pass.old self.now }
        requires strip { strip < self.now.task.scene.strips }
        ensures view { pass.new ≡ with_view pass.old (loaded pass.old.view (Counter strip) result) }
        ensures goes_on { GoesOn pass.old.view pass.new.view }
        // this word is seen as it was found, all others as before
        ensures seen { WritesWord (Counter strip) result (sees pass.old.view) (sees pass.new.view) }
        ensures looked { WritesWord (Counter strip) (pass.old.view.steps + 1) (last_look pass.old.view) (last_look pass.new.view) }
        // a pass with the whole share finds nothing new
        ensures whole { HasWholeShare pass.old.view → result ≡ sees pass.old.view (Counter strip) }
    {
        let place = self.places.counter(strip as usize);
        self.table.shared.load::<Load>(&mut pass.seat, place) as u32
    }

    /// Stores the record of the mark in hand; the hand is empty then. The record is by the worker of the pass, in its next turn. It says
    /// that the mark was placed if its node is counted, and posted if that lies in a goal by which marks are skipped, and anything else only
    /// if its node is not linked; and what it says is borne out by what the pass has seen. A mark is skipped by the best that was loaded for
    /// it, before anything else is done, and any other was loaded the best by which it is not skipped.
    pub fn finish(&self, pass: &mut Pass, entry: Record)
        requires belongs { BelongsTo pass.old self.now }
        requires hand { IsSome pass.old.view.hand }
        requires worker { entry.worker ≡ worker_of pass.old.view.crew }
        requires turn { entry.turn ≡ turn_of pass.old.view.crew }
        requires stage { IfSome pass.old.view.hand (λ hand. MayBeRecorded hand.stage entry.outcome) }
        requires may { IfSome pass.old.view.hand (λ hand. MayRecord pass.old.view hand entry) }
        ensures view { IfSome pass.old.view.hand (λ hand. pass.new ≡ with_view pass.old (finished pass.old.view hand.mark (record_word entry))) }
        ensures goes_on { GoesOn pass.old.view pass.new.view }
        ensures may_claim { MayClaim self.now pass.new }
    {
        let Some(hand) = pass.hand else {
            unreachable!()
        };
        let place = self.places.record(hand.mark as usize);
        let word = pack_mark(&entry);
        self.table
            .shared
            .store::<Finish>(&mut pass.seat, place, word);
        pass.hand = None;
        pass.member = next_turn(pass.member);
    }

    /// A pass that only looks, and has seen all that this one has. It has no share, nothing in hand and empty scratch lists,
    /// and so it can claim nothing. O(n) for n marks.
    ///
    /// # Errors
    ///
    /// `Memory` if out of memory for what the new pass keeps; nothing has changed then.
    pub fn split(&self, pass: &mut Pass) -> Result<Pass, Memory>
        requires { BelongsTo pass.old self.now }
        ensures left { OnOk result (pass.new ≡ with_view pass.old (stepped pass.old.view)) }
        ensures goes_on { OnOk result (GoesOn pass.old.view pass.new.view) }
        ensures unchanged { OnErr result (pass.new ≡ pass.old) }
        ensures right { IfOk result (λ other. other ≡ new_pass pass.old.table (looker pass.old.view)) }
        ensures belongs { OnOk result (BelongsTo pass.new self.now) }
        ensures belongs_too { IfOk result (λ other. BelongsTo other self.now) }
    {
        let pairs = pass.pairs.copy(self.alloc)?;
        let lists = Scratch::new(self.alloc, self.places.marks() + 1)?;
        let seat = self.table.shared.split_seat::<Look>(&mut pass.seat);
        Ok(Pass {
            seat,
            member: None,
            hand: None,
            pairs,
            lists,
        })
    }

    /// Takes over another pass: its share, which may be none, and what it has seen. Neither has a mark in hand. The count of
    /// nodes is loaded then, which tells that nothing is lost of what the other had seen. O(n) for n marks.
    pub fn join(&self, pass: &mut Pass, other: Pass)
        requires belongs { BelongsTo pass.old self.now }
        requires belongs_too { BelongsTo other self.now }
        requires idle { pass.old.view.hand ≡ None }
        requires idle_too { other.view.hand ≡ None }
        ensures view { pass.new ≡ with_view pass.old (loaded (joined pass.old.view other.view) Count (sees pass.new.view Count)) }
        ensures goes_on { GoesOn pass.old.view pass.new.view }
        // the count is no lower than either had seen it
        ensures count { (sees pass.old.view Count ≤ sees pass.new.view Count) × (sees other.view Count ≤ sees pass.new.view Count) }
        // it has seen at least what the other had
        ensures others_seen { AreBehind (sees other.view) (sees pass.new.view) }
        ensures share { share pass.new.view ≡ share pass.old.view + share other.view }
        ensures belongs { BelongsTo pass.new self.now }
        ensures idle { pass.new.view.hand ≡ None }
    {
        let Pass {
            seat,
            member,
            hand: _,
            pairs,
            lists: _,
        } = other;
        self.take_over(&mut pass.seat, seat);
        take_cheaper(&mut pass.pairs, &pairs);
        pass.member = pass.member.or(member);
    }

    /// Takes over another seat of this table, and loads the count of nodes then.
    pub(crate) fn take_over(&self, seat: &mut Seat<Aim, View>, other: Seat<Aim, View>)
        requires belongs { BelongsTo (new_pass seat.old.table_id seat.old.me.0) self.now }
        requires belongs_too { BelongsTo (new_pass other.table_id other.me.0) self.now }
        requires idle { seat.old.me.0.hand ≡ None }
        requires idle_too { other.me.0.hand ≡ None }
        requires empty { other.me.1 ≡ [] }
        ensures table { seat.new.table_id ≡ seat.old.table_id }
        ensures told { Tells (joined seat.old.me.0 other.me.0, seat.old.me.1)
            (loaded (joined seat.old.me.0 other.me.0) Count (sees seat.new.me.0 Count)) seat.new.me }
        ensures goes_on { GoesOn seat.old.me.0 seat.new.me.0 }
        ensures others_seen { AreBehind (sees other.me.0) (sees seat.new.me.0) }
        ensures belongs { BelongsTo (new_pass seat.new.table_id seat.new.me.0) self.now }
    {
        self.table.shared.join_seat::<TakeOver>(seat, other);
        let _count = self.table.shared.load::<Load>(seat, self.places.count());
    }
}

/// The worker after its turn.
fn next_turn(member: Option<Member>) -> Option<Member>
    requires { IfSome member (λ worker. worker.turn < MOST_MARKS) }
    ensures { result ≡ turned member }
{
    let member = member?;
    Some(Member {
        worker: member.worker,
        turn: member.turn + 1,
    })
}

/// Each tree word becomes the later of the two that were seen, the one of lower cost. O(n).
fn take_cheaper(pairs: &mut SeenPairs, others: &SeenPairs)
    requires sized { length others.now ≡ length pairs.old }
    requires parents { HasParentsBelow (length pairs.old) pairs.old }
    requires parents_too { HasParentsBelow (length pairs.old) others.now }
    ensures each { (n : ℕ) → n < length pairs.old
        → slice_index pairs.new n ≡ later_word Falling (slice_index pairs.old n) (slice_index others.now n) }
    ensures as_many { length pairs.new ≡ length pairs.old }
{
    for node in 0..others.len() {
        let word = later_pair(pairs.word(node), others.word(node));
        pairs.set(node, word);
    }
}

/// The later of two tree words of one node, by their costs. A word of 0 was not seen.
fn later_pair(one: u64, other: u64) -> u64
    ensures { result ≡ later_word Falling one other }
{
    if one == 0 {
        return other;
    }
    match read_tree(other) {
        Some((_, cost)) if cost < pair_in(one).1 => other,
        _ => one,
    }
}
