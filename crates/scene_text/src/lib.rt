//! The reader and the writer of scene texts.
//!
//! A text is read line by line: each line is cut into words, and its checks are made over what the lines before it give.
//! The grammar is a relation over the list of lines, in `plan_model`. `read_scene` returns the one scene that the text
//! spells by the grammar, or the first line that fails a check, with the first check that it fails. `read_batch` reads
//! several scenes in one text, with a line `next` between two of them. `write_scene` returns the canonical text of a
//! scene, and that text spells the scene, so that it is read again as the same one (`text_laws`). `as_version_2` gives a
//! scene of version 1 the version 2. `fetch` reads a whole text from a source.
#![tactic(auto)]

mod batch_reader;
mod converted_scenes;
mod drafts;
mod fetching;
mod field_words;
mod key_words;
mod line_words;
mod refusals;
mod scene_reader;
mod scene_writer;
pub mod text_laws;

pub use batch_reader::read_batch;
pub use converted_scenes::as_version_2;
pub use fetching::{FetchFault, fetch};
pub use refusals::{SceneFault, SceneRefusal};
pub use scene_reader::read_scene;
pub use scene_writer::write_scene;
