//! Parents and costs that are packed and read.

ghost use Rattle.std.specs.Prelude.{◌<◌, ◌^◌};

use grown_runs::{pack_tree, read_tree};
use std::process::Abort;

/// Asserts the word of a parent and a cost.
fn assert_packed<R: Abort>(rt: &R, parent: u32, cost: u64, want: u64)
    requires parent { parent < 2 ^ 18 }
    requires cost { cost < 2 ^ 44 }
{
    let word = pack_tree(parent, cost);
    assert!(rt; word == want, "word {word}");
}

/// Asserts that the word of a parent and a cost is read as these.
fn assert_read_back<R: Abort>(rt: &R, parent: u32, cost: u64)
    requires parent { parent < 2 ^ 18 }
    requires cost { cost < 2 ^ 44 }
{
    let word = pack_tree(parent, cost);
    assert!(rt; read_tree(word) == Some((parent, cost)), "word {word}");
}

#[test]
fn packs_the_cost_above_the_parent(rt: HostRuntime) {
    assert_packed(&rt, 3, 25_344, (1 << 63) + 25_344 * (1 << 18) + 3);
    assert_packed(&rt, 0, 0, 1 << 63);
    assert_packed(&rt, 262_143, (1 << 44) - 1, (1 << 63) + (1 << 62) - 1);
}

#[test]
fn reads_what_was_packed(rt: HostRuntime) {
    assert_read_back(&rt, 3, 25_344);
    assert_read_back(&rt, 0, 0);
    assert_read_back(&rt, 262_143, 0);
    assert_read_back(&rt, 0, 17_592_186_044_415);
    assert_read_back(&rt, 262_143, 17_592_186_044_415);
}

#[test]
fn a_word_without_bit_63_holds_no_parent(rt: HostRuntime) {
    assert!(rt; read_tree(0).is_none());
    assert!(rt; read_tree((1 << 63) - 1).is_none());
}

#[test]
fn a_lower_cost_has_a_lower_word(rt: HostRuntime) {
    assert!(rt; pack_tree(262_143, 25_343) < pack_tree(0, 25_344));
}
