//! What each pass over a shared run knows and has in hand: its view, of which the law of worlds (`specs/Worlds`) speaks. No
//! program makes a view; a table of words keeps them for the proofs alone.

use plan_model::{ConfigurationSpace, Goal, Point, Points, Sequence};
use std::collections::LinkedList;

/// What a shared run is told once: of the scene what planning asks for, and who plans.
pub struct SharedRun {
    /// The room, the body and the obstacles.
    pub space: ConfigurationSpace,
    /// The point of node 0.
    pub start: Point,
    /// The length of the longest edge, in lattice steps.
    pub step: u32,
    /// The factor of the radius of near nodes, in lattice steps.
    pub gamma: u32,
    /// The goals by which marks may be skipped, none if the scene is not informed.
    pub goals: Sequence<Goal>,
    /// How many strips there are.
    pub strips: u32,
    /// The mark points.
    pub marks: Points,
    /// How many workers there are.
    pub workers: u32,
    /// The limit of the run that it goes on from.
    pub opening: u32,
}

/// A worker, and its next turn.
#[derive(Clone, Copy, Debug)]
pub struct Member {
    /// The number of the worker.
    pub worker: u32,
    /// How many marks it has recorded.
    pub turn: u32,
}

/// How far a mark in hand has come.
#[derive(Clone, Copy, Debug)]
pub enum Stage {
    /// It is claimed, and nothing is written for it.
    Claimed,
    /// The point of its node is written.
    Pointed,
    /// The first word of its node is written.
    Half,
    /// The tree word of its node is written too.
    Treed,
    /// Its node stands in a child word.
    Linked,
    /// Its node is counted.
    Counted,
    /// Its node lies in a goal, and the best word is at most the pair of its cost and its number.
    Posted,
}

/// A mark that is claimed and not yet recorded.
#[derive(Clone, Copy, Debug)]
pub struct Hand {
    /// The number of the mark.
    pub mark: u32,
    /// How far it has come.
    pub stage: Stage,
    /// The best word that was loaded for it, if it was.
    pub best: Option<u64>,
    /// The node that its point was steered from; 0 before the point is written.
    pub nearest: u32,
    /// The point of its node; (0, 0) before it is written.
    pub point: Point,
    /// The parent in the first word of its node; 0 before that is written.
    pub parent: u32,
    /// The cost in it, in 256ths of a lattice step; 0 before it is written.
    pub cost: u64,
}

/// What a step has left in a word that others load, and how many steps each pass had made by then.
pub struct Note {
    /// The place of the word.
    pub place: u64,
    /// The word that was left there.
    pub word: u64,
    /// By the number of the pass how many steps it had made, the one that left the word included.
    pub steps: LinkedList<u64>,
}

/// What a pass knows and has in hand.
pub struct View {
    /// The run that it belongs to.
    pub run: SharedRun,
    /// The workers whose share it has; it works as the first. A pass without a share only looks.
    pub crew: LinkedList<Member>,
    /// The greatest limit that it knows of: of the opening run, of a claim, or of a pass that it took over.
    pub most: u32,
    /// The mark that it is handling.
    pub hand: Option<Hand>,
    /// Each word as it last saw it, at its place; 0 if it did not. The best word stands in a field of its own.
    pub seen: LinkedList<u64>,
    /// The best word as it last saw or left it.
    pub best: u64,
    /// What the pass that it last took over had seen.
    pub took: LinkedList<u64>,
    /// How many steps it has made.
    pub steps: u64,
    /// For each word the number of its last step by which it saw it, from 1; 0 if there was none.
    pub looked: LinkedList<u64>,
    /// For each word the number of its last step that found it 0.
    pub found_zero: LinkedList<u64>,
    /// What it has left in words that others load, the last first, and then what a pass had noted that it took over.
    pub notes: LinkedList<Note>,
}
