//! Tests of `scene_text`: texts that are read, refused and written.

mod fetch;
mod read_batch;
mod read_scene;
mod refusals;
mod second_version;
mod support;
mod write_scene;
