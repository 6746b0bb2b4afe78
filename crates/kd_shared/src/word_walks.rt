//! The walk along the way of a point, by the words of points as they were loaded.

ghost use Rattle.std.specs.Prelude.{◌≡◌, ◌≢◌, ◌+◌, ◌-◌, ◌<◌, ◌==◌, IfNone, IfSome, IsFalse};
ghost use Rattle.kd_shared.specs.Looking.{PassLooks};
ghost use Rattle.kd_shared.specs.Searches.{IsShift, StopsAtWord};
ghost use Rattle.plan_model.specs.Geometry.Plane.{IsBounded};
ghost use Rattle.plan_model.specs.declared.limits.TheConstants.{MOST_NODES};
ghost use Rattle.plan_words.specs.States.{BelongsTo};
ghost use Rattle.step_core.specs.Views.{tree_seen};
ghost use Rattle.grown_runs.specs.Table.Words.{point_in};
ghost use Rattle.grown_runs.specs.Ways.KdLinks.{goes_right_by, StopsAt};

use plan_model::Point;
use plan_words::{Pass, Shared};
use step_core::{Stop, pack_point, point_in};

/// The bits of a word that say its point: x in the lowest 20, y in the next 20.
const POINT_MASK: u64 = 0xff_ffff_ffff;

/// The bits of a coordinate, when it is shifted to the right end of a word.
const COORDINATE_MASK: u64 = 0xf_ffff;

/// How far y stands from there. x stands there.
const ROW_SHIFT: u32 = 20;

/// Where a walk has come to.
#[derive(Clone, Copy)]
struct WordStop {
    /// How many nodes of the way come before the node.
    depth: u32,
    /// The number of the node.
    node: u32,
    /// How far the coordinate by which its children are split stands from the right end of a word.
    shift: u32,
    /// The word of its point.
    word: u64,
}

/// Walks the way of a point as `walk` does. A coordinate is shifted out of the words, whichever it is at this depth, and points are
/// compared as words. O(d) for a tree of depth d.
pub(crate) fn walk_by_words(shared: &Shared, pass: &mut Pass, p: Point) -> Stop
    requires belongs { BelongsTo pass.old shared.now }
    requires bounded { IsBounded p }
    ensures looks { PassLooks shared.now pass.old pass.new }
    ensures stops { StopsAt (tree_seen pass.new.view) p result }
{
    let word = shared.point_word(pass, 0);
    let mut at = WordStop {
        depth: 0,
        node: 0,
        shift: 0,
        word,
    };
    'way: while let Some(next) = next_stop(shared, pass, at, p) {
        at = next;
    }
    Stop {
        depth: at.depth,
        node: at.node,
        by_rows: at.shift == ROW_SHIFT,
        here: point_in(at.word),
    }
}

/// The next stop on the way of a point; `None` if the node stands at the point, or has no child where the way leads on.
#[inline]
fn next_stop(shared: &Shared, pass: &mut Pass, at: WordStop, p: Point) -> Option<WordStop>
    requires belongs { BelongsTo pass.old shared.now }
    requires bounded { IsBounded p }
    requires stops { StopsAtWord (tree_seen pass.old.view) p at }
    requires short { at.depth < MOST_NODES }
    ensures looks { PassLooks shared.now pass.old pass.new }
    ensures next { IfSome result (λ next. StopsAtWord (tree_seen pass.new.view) p next × (next.depth ≡ at.depth + 1)) }
    ensures none { IfNone result (StopsAtWord (tree_seen pass.new.view) p at) }
{
    let aim = pack_point(p);
    if is_same(at.word, aim) {
        return None;
    }
    let right = leads_right(at.word, aim, at.shift);
    let child = shared.child_or_start(pass, at.node, right);
    if child == 0 {
        return None;
    }
    let word = shared.point_word(pass, child);
    let shift = other_shift(at.shift);
    Some(WordStop {
        depth: at.depth + 1,
        node: child,
        shift,
        word,
    })
}

/// How far the other coordinate stands from there.
#[inline]
fn other_shift(shift: u32) -> u32
    requires { IsShift shift }
    ensures { result ≡ 20 - shift }
{
    shift ^ ROW_SHIFT
}

/// Whether two words say one point.
#[inline]
fn is_same(here: u64, aim: u64) -> bool
    ensures { IsFalse result → point_in here ≢ point_in aim }
{
    here & POINT_MASK == aim & POINT_MASK
}

/// Whether the point of the second word lies to the right of that of the first one, by the coordinate that stands so far from the right
/// end.
#[inline]
fn leads_right(here: u64, aim: u64, shift: u32) -> bool
    requires { IsShift shift }
    ensures { result ≡ goes_right_by (shift == 20) (point_in here) (point_in aim) }
{
    (here >> shift & COORDINATE_MASK) <= (aim >> shift & COORDINATE_MASK)
}
