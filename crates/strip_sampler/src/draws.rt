//! How one mark is drawn.

ghost use Rattle.std.specs.Prelude.{◌≡◌, ◌+◌, ◌%◌, ◌^◌, ◌≤◌};
ghost use Rattle.plan_model.specs.Scenes.MarkPoints.{drawn_mark, first_word, picked, second_word, AreSpansOf};
ghost use Rattle.plan_model.specs.declared.limits.TheConstants.{MOST_COORDINATE};

use crate::strips::columns_of_strip;
use plan_model::{Point, RoomSpans, Scene, Span, strip_of_mark};
use rand_core::{Rng, SeedableRng};
use rand_xoshiro::SplitMix64;

/// Mark `k` of the plan of a scene, whatever its length: a column of its strip and a row, by the two words of its own
/// generator. O(1).
pub(crate) fn drawn(scene: &Scene, spans: RoomSpans, k: u32) -> Point
    requires { AreSpansOf scene.now.room scene.now.body spans }
    ensures { result ≡ drawn_mark scene.now k }
{
    let strip = columns_of_strip(spans.columns, scene.strips, strip_of_mark(scene.strips, k));
    let (first, second) = drawn_words(scene.seed, k);
    Point {
        x: picked(strip, first),
        y: picked(spans.rows, second),
    }
}

/// The first two words of the SplitMix64 whose state is the seed plus `k` modulo 2^64. Those of mark `k` are drawn from the
/// seed of its scene. O(1).
pub fn drawn_words(seed: u64, k: u32) -> (u64, u64)
    ensures first { result.0 ≡ first_word ((seed + k) % 2 ^ 64) }
    ensures second { result.1 ≡ second_word ((seed + k) % 2 ^ 64) }
{
    let state = seed.wrapping_add(u64::from(k));
    let mut generator = SplitMix64::from_seed(state.to_le_bytes());
    let first = generator.next_u64();
    let second = generator.next_u64();
    (first, second)
}

/// The coordinate of a span that the upper half of a word picks: the span's count times that half, as a fraction of 2^32.
fn picked(span: Span, word: u64) -> u32
    requires { span.first + span.count ≤ MOST_COORDINATE + 1 }
    ensures { result ≡ picked span word }
{
    let share = ((word >> 32) * u64::from(span.count)) >> 32;
    span.first + share as u32
}

#[cfg(test)]
mod tests {
    use super::*;

    #[test]
    fn draws_the_words_of_splitmix64(rt: HostRuntime) {
        let words = (0xE220_A839_7B1D_CDAF, 0x6E78_9E6A_A1B9_65F4);
        assert!(rt; drawn_words(0, 0) == words);
        // the state is 0 again
        assert!(rt; drawn_words(u64::MAX, 1) == words);
        assert!(rt; drawn_words(0, 1) == drawn_words(1, 0));
        assert!(rt; drawn_words(0, 1) != words);
    }

    #[test]
    fn picks_coordinates_of_a_span(rt: HostRuntime) {
        let span = Span {
            first: 5,
            count: 10,
        };
        for (word, want) in [
            (0, 5),
            (0xFFFF_FFFF, 5),
            (0x8000_0000_0000_0000, 10),
            (0x7FFF_FFFF_FFFF_FFFF, 9),
            (u64::MAX, 14),
        ] {
            assert!(rt; picked(span, word) == want, "word {word}");
        }
        assert!(rt; picked(Span { first: 5, count: 0 }, u64::MAX) == 5);
    }
}
