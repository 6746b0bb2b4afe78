//! What the words of the command line ask for.

ghost use Rattle.std.specs.Prelude.{◌≡◌, ◌≤◌, IfSome, map, string_bytes};
ghost use Rattle.plan_model.specs.declared.limits.TheConstants.{MOST_MARKS};
ghost use Rattle.path_watch.specs.WatchWords as spec;

use planner::{WorkerCount, slice_in};

/// By how many workers a run is to grow, and how many marks at a time.
#[derive(Clone, Copy, Debug, PartialEq, Eq)]
pub struct Orders {
    /// How many workers.
    pub workers: WorkerCount,
    /// How many marks (samples) at a time, 1 to `MOST_MARKS`; `None` is a twentieth of all.
    pub slice: Option<u32>,
}

impl Orders {
    /// How many marks are handled at a time, of so many.
    pub fn slice_of(&self, marks: u32) -> u32
        requires marks { marks ≤ MOST_MARKS }
        requires slice { IfSome self.now.slice (λ slice. 1 ≤ slice) }
        ensures value { result ≡ spec.slice_by self.now.slice marks }
        ensures some { 1 ≤ result }
    {
        match self.slice {
            Some(slice) => slice,
            None => ((marks + 19) / 20).max(1),
        }
    }
}

/// What the words ask for, without the program's name: `W` or `W S`. `None` if they ask for nothing.
pub fn orders_of(words: &[String]) -> Option<Orders>
    ensures value { result ≡ spec.orders_of (map string_bytes words.now) }
    ensures slice { IfSome result (λ orders. IfSome orders.slice (λ slice. 1 ≤ slice)) }
{
    match words {
        [] => None,
        [workers] => orders_by(workers.as_str()),
        [workers, slice] => orders_by_two(workers.as_str(), slice.as_str()),
        _ => None,
    }
}

/// What one word asks for.
fn orders_by(word: &str) -> Option<Orders>
    ensures value { result ≡ spec.orders_by word.now }
    ensures slice { IfSome result (λ orders. IfSome orders.slice (λ slice. 1 ≤ slice)) }
{
    let workers = WorkerCount::in_word(word)?;
    Some(Orders {
        workers,
        slice: None,
    })
}

/// What two words ask for.
fn orders_by_two(word: &str, second: &str) -> Option<Orders>
    ensures value { result ≡ spec.orders_by_two word.now second.now }
    ensures slice { IfSome result (λ orders. IfSome orders.slice (λ slice. 1 ≤ slice)) }
{
    let workers = WorkerCount::in_word(word)?;
    let slice = slice_in(second)?;
    Some(Orders {
        workers,
        slice: Some(slice),
    })
}
