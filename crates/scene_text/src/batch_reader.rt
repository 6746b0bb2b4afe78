//! The reader of a batch: several scene texts in one text, with a line `next` between two of them.

ghost use Rattle.std.specs.Prelude.{◌≡◌, ◌≤◌, ◌<◌, ◌+◌, [], ◌∷◌, false, bytes_eq, drop, get_or, length, IfOk, IfErr, IfSome, IfNone};
ghost use Rattle.plan_model.specs.Texts.SceneGrammar.{SpellsBatch, part_text, parts_of, separator, Spells, supported};
ghost use Rattle.plan_model.specs.Texts.TextLines.{lines_of};
ghost use Rattle.scene_text.specs.Fetching.{IsBatchRefusal, IsPartRefusal};

use crate::drafts::Draft;
use crate::refusals::{SceneFault, SceneRefusal};
use plan_model::{Kind, MOST_SCENES, Scene, next_line};
use std::alloc::Global;

/// The line between two scenes.
const SEPARATOR: &str = "next";

/// The first part of a text, with its scene.
#[derive(Drop)]
struct Part<'a> {
    scene: Scene,
    /// How many lines it has.
    lines: u32,
    /// What stands after it: nothing, or a line `next` and the other parts.
    rest: &'a [u8],
}

/// The scenes that a text spells: its parts between lines that are exactly `next`, at most `MOST_SCENES`, each read as by
/// [`read_scene`](crate::read_scene). The text has fewer bytes than the greatest `u32`, so that its lines can be counted. O(n) for
/// n bytes, which are read once.
///
/// # Errors
///
/// `Fault` exactly if a part is refused, or there are too many: with the line of the first fault, counted in the whole text, and the
/// first check that it fails. Where something is missing in a part, that is the line after its last, which is its `next` if it has one.
/// A line `next` after `MOST_SCENES` parts without a fault is `Many`. `Memory` if out of memory.
pub fn read_batch(alloc: Global, text: &[u8]) -> Result<Vec<Scene>, SceneRefusal>
    requires { length text.now < u32.MAX }
    ensures scenes { IfOk result (λ scenes. SpellsBatch supported text.now scenes.items) }
    // with the number of the line and the kind of the first check that fails
    ensures fault { IfErr result (IsBatchRefusal text.now) }
{
    let mut scenes = Vec::new(alloc);
    let mut rest = text;
    let mut before = 0;
    loop {
        let part = read_part(alloc, rest, before)?;
        scenes.push(part.scene)?;
        let Some(after) = after_separator(part.rest) else {
            return Ok(scenes);
        };
        before += part.lines + 1;
        if scenes.len() == MOST_SCENES {
            return Err(SceneRefusal::Fault(SceneFault {
                line: before,
                kind: Kind::Many,
            }));
        }
        rest = after;
    }
}

/// The first part of a text that has so many lines before it.
fn read_part(alloc: Global, text: &[u8], before: u32) -> Result<Part<'_>, SceneRefusal>
    requires { before + length text.now < u32.MAX }
    ensures scene { IfOk result (λ part. Spells supported (part_text (parts_of (lines_of text.now)) 0) part.scene) }
    ensures lines { IfOk result (λ part. part.lines ≡ length (get_or (parts_of (lines_of text.now)) 0 [])) }
    ensures rest { IfOk result (λ part. parts_of (lines_of text.now)
        ≡ get_or (parts_of (lines_of text.now)) 0 [] ∷ drop 1 (parts_of (lines_of part.rest.now))) }
    ensures end { IfOk result (λ part. get_or (parts_of (lines_of part.rest.now)) 0 [] ≡ []) }
    ensures shorter { IfOk result (λ part. part.lines + length part.rest.now ≤ length text.now) }
    ensures fault { IfErr result (IsPartRefusal before (part_text (parts_of (lines_of text.now)) 0)) }
{
    let mut draft = Draft::new(alloc);
    let mut rest = text;
    let mut lines = 0;
    while let Some((line, after)) = next_part_line(rest) {
        lines += 1;
        let number = before + lines;
        draft
            .take_line(alloc, line)
            .map_err(|refusal| refusal.at(number))?;
        rest = after;
    }
    let number = before + lines + 1;
    let scene = draft
        .into_scene(alloc)
        .map_err(|refusal| refusal.at(number))?;
    Ok(Part { scene, lines, rest })
}

/// The first line of a part, and what stands after it; none if the part has no line: at the end of the text, or before a line `next`.
fn next_part_line(text: &[u8]) -> Option<(&[u8], &[u8])>
    ensures none { IfNone result (get_or (parts_of (lines_of text.now)) 0 [] ≡ []) }
    ensures some { IfSome result (λ found. lines_of text.now ≡ found.0.now ∷ lines_of found.1.now) }
    ensures own { IfSome result (λ found. bytes_eq found.0.now separator ≡ false) }
    ensures shorter { IfSome result (λ found. length found.1.now < length text.now) }
{
    let (line, after) = next_line(text)?;
    if line == SEPARATOR.as_bytes() {
        return None;
    }
    Some((line, after))
}

/// What stands after the line `next` that a text begins with; none if the text is empty.
fn after_separator(text: &[u8]) -> Option<&[u8]>
    requires { get_or (parts_of (lines_of text.now)) 0 [] ≡ [] }
    ensures none { IfNone result (parts_of (lines_of text.now) ≡ [] ∷ []) }
    ensures some { IfSome result (λ after. parts_of (lines_of text.now) ≡ [] ∷ parts_of (lines_of after.now)) }
    ensures shorter { IfSome result (λ after. length after.now < length text.now) }
{
    let (_, after) = next_line(text)?;
    Some(after)
}
