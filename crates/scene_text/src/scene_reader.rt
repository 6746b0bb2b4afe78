//! The reader of a scene text.

ghost use Rattle.std.specs.Prelude.{◌<◌, length, IfOk, IfErr};
ghost use Rattle.plan_model.specs.Texts.SceneGrammar.{Spells, supported};
ghost use Rattle.scene_text.specs.Drafts.{IsSceneRefusal};

use crate::drafts::Draft;
use crate::refusals::SceneRefusal;
use plan_model::{Scene, next_line};
use std::alloc::Global;

/// The scene that a text spells, by the grammar. The text has fewer bytes than the greatest `u32`, so that its lines can be
/// counted. O(n) for n bytes.
///
/// # Errors
///
/// `Fault` exactly if the grammar refuses the text: with the first line that fails a check, and that check; if something is
/// missing, with the line after the last, as for an empty text with line 1. `Memory` if out of memory.
pub fn read_scene(alloc: Global, text: &[u8]) -> Result<Scene, SceneRefusal>
    requires { length text.now < u32.MAX }
    ensures scene { IfOk result (λ scene. Spells supported text.now scene) }
    // with the number of the line and the kind of the first check that fails
    ensures fault { IfErr result (IsSceneRefusal text.now) }
{
    let mut draft = Draft::new(alloc);
    let mut rest = text;
    let mut number = 0;
    while let Some((line, after)) = next_line(rest) {
        number += 1;
        draft
            .take_line(alloc, line)
            .map_err(|refusal| refusal.at(number))?;
        rest = after;
    }
    draft
        .into_scene(alloc)
        .map_err(|refusal| refusal.at(number + 1))
}
