//! The parts of a mark's line in a report: mark, worker and turn, and what each outcome has after them, with the line feed.

ghost use Rattle.std.specs.Prelude.{◌≡◌, ◌++◌, ◌∷◌, [], ◌<◌, ◌≤◌, ◌^◌, ℕ, List, IfNone, IfSome, codes, decimal};
ghost use Rattle.plan_model.specs.Reports.ReportText.{line};
ghost use Rattle.plan_model.specs.declared.limits.TheConstants.{MOST_MARKS};
ghost use Rattle.report_judge.specs.Texts.ReportLines.{field, mark_front};

use crate::reading::fields::read_field;
use crate::reading::line_readers::MOST_COST;

/// The greatest worker that a record's word holds.
const MOST_WORKER: u64 = (1 << 6) - 1;

/// The greatest turn and the greatest class that a record's word holds.
const MOST_IN_WORD: u64 = (1 << 18) - 1;

/// What the line of a mark begins with.
#[derive(Clone, Copy)]
pub(crate) struct MarkFront {
    /// The number of the mark.
    pub mark: u32,
    /// The worker that handled it.
    pub worker: u32,
    /// In which of its turns.
    pub turn: u32,
}

/// What a placed node was given first.
#[derive(Clone, Copy)]
pub(crate) struct FirstHanging {
    /// Its parent.
    pub parent: u32,
    /// Its cost.
    pub cost: u64,
    /// The class of the number of nodes.
    pub class: u32,
}

/// The mark, the worker and the turn of a line, and what stands after them; `None` exactly if the text does not begin so.
pub(crate) fn read_turn(text: &[u8], marks: u32) -> Option<(MarkFront, &[u8])>
    requires few { marks ≤ MOST_MARKS }
    ensures fits { IfSome result (λ read. (read.0.mark ≤ marks) × (read.0.worker < 64) × (read.0.turn < 2 ^ 18)) }
    ensures some { IfSome result (λ read. text.now ≡ mark_front read.0.mark read.0.worker read.0.turn read.1.now) }
    ensures only { IfSome result (λ read. (number worker turn : ℕ) (rest : List ℕ) → number ≤ marks → worker < 64 → turn < 2 ^ 18
        → text.now ≡ mark_front number worker turn rest
        → (read.0.mark ≡ number) × (read.0.worker ≡ worker) × (read.0.turn ≡ turn) × (read.1.now ≡ rest)) }
    ensures none { IfNone result ((number worker turn : ℕ) (rest : List ℕ) → number ≤ marks → worker < 64 → turn < 2 ^ 18
        → ¬ (text.now ≡ mark_front number worker turn rest)) }
{
    let last = u64::from(marks);
    let (number, rest) = read_field(text, b"mark ", b' ', last)?;
    let (worker, rest) = read_field(rest, b"worker ", b' ', MOST_WORKER)?;
    let (turn, rest) = read_field(rest, b"turn ", b' ', MOST_IN_WORD)?;
    let front = MarkFront {
        mark: number as u32,
        worker: worker as u32,
        turn: turn as u32,
    };
    Some((front, rest))
}

/// The nearest node of a mark, and what stands after it; `None` exactly if the line does not go on so.
pub(crate) fn read_nearest(text: &[u8], marks: u32) -> Option<(u32, &[u8])>
    requires few { marks ≤ MOST_MARKS }
    ensures fits { IfSome result (λ read. read.0 ≤ marks) }
    ensures some { IfSome result (λ read. text.now ≡ field (codes "nearest ") read.0 32 read.1.now) }
    ensures none { IfNone result ((nearest : ℕ) (rest : List ℕ) → nearest ≤ marks → ¬ (text.now ≡ field (codes "nearest ") nearest 32 rest)) }
{
    let (nearest, rest) = read_field(text, b"nearest ", b' ', u64::from(marks))?;
    Some((nearest as u32, rest))
}

/// After its nearest node, the class, the first parent and the first cost of a mark that was placed; `None` exactly if the line does not go
/// on so.
pub(crate) fn read_placed(text: &[u8], marks: u32) -> Option<(FirstHanging, &[u8])>
    requires few { marks ≤ MOST_MARKS }
    ensures fits { IfSome result (λ read. (read.0.class < 2 ^ 18) × (read.0.parent ≤ marks) × (read.0.cost < 2 ^ 44)) }
    ensures some { IfSome result (λ read. text.now ≡ line
        (codes "placed" ∷ codes "class" ∷ decimal read.0.class ∷ codes "first" ∷ decimal read.0.parent ∷ decimal read.0.cost ∷ []) ++ read.1.now) }
    ensures none { IfNone result ((class parent cost : ℕ) (rest : List ℕ) → class < 2 ^ 18 → parent ≤ marks → cost < 2 ^ 44
        → ¬ (text.now ≡ line (codes "placed" ∷ codes "class" ∷ decimal class ∷ codes "first" ∷ decimal parent ∷ decimal cost ∷ []) ++ rest)) }
{
    let last = u64::from(marks);
    let (class, rest) = read_field(text, b"placed class ", b' ', MOST_IN_WORD)?;
    let (parent, rest) = read_field(rest, b"first ", b' ', last)?;
    let (cost, rest) = read_field(rest, b"", b'\n', MOST_COST)?;
    let first = FirstHanging {
        parent: parent as u32,
        cost,
        class: class as u32,
    };
    Some((first, rest))
}

/// After its nearest node, the node at which a mark ended; `None` exactly if the line does not go on so.
pub(crate) fn read_same(text: &[u8], marks: u32) -> Option<(u32, &[u8])>
    requires few { marks ≤ MOST_MARKS }
    ensures fits { IfSome result (λ read. read.0 ≤ marks) }
    ensures some { IfSome result (λ read. text.now ≡ line (codes "same" ∷ decimal read.0 ∷ []) ++ read.1.now) }
    ensures none { IfNone result ((node : ℕ) (rest : List ℕ) → node ≤ marks → ¬ (text.now ≡ line (codes "same" ∷ decimal node ∷ []) ++ rest)) }
{
    let (node, rest) = read_field(text, b"same ", b'\n', u64::from(marks))?;
    Some((node as u32, rest))
}

/// The goal node by which a mark was skipped; `None` exactly if the line does not go on so.
pub(crate) fn read_skipped(text: &[u8], marks: u32) -> Option<(u32, &[u8])>
    requires few { marks ≤ MOST_MARKS }
    ensures fits { IfSome result (λ read. read.0 ≤ marks) }
    ensures some { IfSome result (λ read. text.now ≡ line (codes "skipped" ∷ codes "by" ∷ decimal read.0 ∷ []) ++ read.1.now) }
    ensures none { IfNone result ((goal : ℕ) (rest : List ℕ) → goal ≤ marks
        → ¬ (text.now ≡ line (codes "skipped" ∷ codes "by" ∷ decimal goal ∷ []) ++ rest)) }
{
    let (goal, rest) = read_field(text, b"skipped by ", b'\n', u64::from(marks))?;
    Some((goal as u32, rest))
}
