//! Tests of `step_core`: worlds that are lawful, and worlds that are not.

mod vectors;
