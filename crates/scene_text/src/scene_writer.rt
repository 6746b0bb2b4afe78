//! The writer of a scene's canonical text.

ghost use Rattle.std.specs.Prelude.{◌≡◌, ◌≤◌, [], ◌∷◌, ◌++◌, false, length, map, flat_map, string_bytes, IfOk, OnOk};
ghost use Rattle.std.specs.Fmt.{signed_decimal};
ghost use Rattle.plan_model.specs.Texts.CanonicalText.{canonical_text, clearance_statements, corner_numbers, goal_statement, mark_statement};
ghost use Rattle.plan_model.specs.Texts.CanonicalText.{informed_statements, plan_statements, point_numbers, search_statements, statement, task_statements};
ghost use Rattle.plan_model.specs.Texts.CanonicalText.{obstacle_statement, version_statement};
ghost use Rattle.plan_model.specs.declared.text_terms.Key.TheVariants as keys;
ghost use Rattle.plan_model.specs.Reports.ReportText.{line};
ghost use Rattle.plan_model.specs.Texts.SceneGrammar.{Spells, supported, whole_format};
ghost use Rattle.plan_model.specs.declared.limits.TheConstants.{MOST_TEXT_BYTES};

use plan_model::{Goal, Marks, Memory, Point, Poly, Scene, Vertex};
use std::alloc::{AllocError, Global};

/// The canonical text of a scene, in its version: one text for each scene, with a line for each field, one space between words and a line
/// feed at the end of each line. It is never too long to be read. O(n) for n bytes of it.
///
/// # Errors
///
/// `Memory` if out of memory for the text.
pub fn write_scene(alloc: Global, scene: &Scene) -> Result<Vec<u8>, Memory>
    ensures text { IfOk result (λ text. text.items ≡ canonical_text scene.now) }
    // by the whole grammar it gives this scene
    ensures whole { IfOk result (λ text. Spells whole_format text.items scene.now) }
    // and it is read again
    ensures spells { IfOk result (λ text. Spells supported text.items scene.now) }
    ensures fits { IfOk result (λ text. length text.items ≤ MOST_TEXT_BYTES) }
{
    let mut text = String::new(alloc);
    push_head(&mut text, scene)?;
    push_polygon(&mut text, "body", scene.body.as_slice())?;
    push_obstacles(&mut text, scene.obstacles.as_slice())?;
    push_clearance(&mut text, scene)?;
    push_task(&mut text, scene)?;
    push_plan(&mut text, &scene.plan)?;
    Ok(text.into_bytes())
}

/// The lines of the version and of the room.
fn push_head(text: &mut String, scene: &Scene) -> Result<(), AllocError>
    ensures { OnOk result (string_bytes text.new ≡ string_bytes text.old
        ++ flat_map line (version_statement scene.now.version ∷ statement keys.Room (point_numbers scene.now.room) ∷ [])) }
{
    push_version(text, scene.version)?;
    push_room(text, scene.room)
}

/// The line of the version.
fn push_version(text: &mut String, version: u8) -> Result<(), AllocError>
    ensures { OnOk result (string_bytes text.new ≡ string_bytes text.old ++ line (version_statement version)) }
{
    if version == 1 {
        text.push_str("prrt 1\n")?;
    } else {
        text.push_str("prrt 2\n")?;
    }
    Ok(())
}

/// The line of the room.
fn push_room(text: &mut String, room: Point) -> Result<(), AllocError>
    ensures { OnOk result (string_bytes text.new ≡ string_bytes text.old ++ line (statement keys.Room (point_numbers room))) }
{
    write!(text, "room {} {}\n", room.x, room.y)
}

/// The line of a polygon.
fn push_polygon(text: &mut String, key: &str, corners: &[Vertex]) -> Result<(), AllocError>
    ensures { OnOk result (string_bytes text.new ≡ string_bytes text.old
        ++ line (key.now ∷ map signed_decimal (corner_numbers corners.now))) }
{
    text.push_str(key)?;
    push_corners(text, corners)?;
    text.push_str("\n")?;
    Ok(())
}

/// The coordinates of the corners, each after a blank.
fn push_corners(text: &mut String, corners: &[Vertex]) -> Result<(), AllocError>
    ensures { OnOk result (string_bytes text.new ≡ string_bytes text.old
        ++ flat_map (λ z. 32 ∷ signed_decimal z) (corner_numbers corners.now)) }
{
    for corner in corners {
        write!(text, " {} {}", corner.x, corner.y)?;
    }
    Ok(())
}

/// A line for each obstacle.
fn push_obstacles(text: &mut String, obstacles: &[Poly]) -> Result<(), AllocError>
    ensures { OnOk result (string_bytes text.new ≡ string_bytes text.old
        ++ flat_map line (map obstacle_statement obstacles.now)) }
{
    for obstacle in obstacles {
        push_polygon(text, "obstacle", obstacle.as_slice())?;
    }
    Ok(())
}

/// The line of the clearance, which a scene of version 1 does not have.
fn push_clearance(text: &mut String, scene: &Scene) -> Result<(), AllocError>
    ensures { OnOk result (string_bytes text.new ≡ string_bytes text.old ++ flat_map line (clearance_statements scene.now)) }
{
    if scene.version != 1 {
        write!(text, "clearance {}\n", scene.clearance)?;
    }
    Ok(())
}

/// The lines of what is to be planned in the room.
fn push_task(text: &mut String, scene: &Scene) -> Result<(), AllocError>
    ensures { OnOk result (string_bytes text.new ≡ string_bytes text.old ++ flat_map line (task_statements scene.now)) }
{
    write!(text, "start {} {}\n", scene.start.x, scene.start.y)?;
    push_goals(text, scene.goals.as_slice())?;
    push_search(text, scene)
}

/// A line for each goal.
fn push_goals(text: &mut String, goals: &[Goal]) -> Result<(), AllocError>
    ensures { OnOk result (string_bytes text.new ≡ string_bytes text.old
        ++ flat_map line (map goal_statement goals.now)) }
{
    for goal in goals {
        let (low, high) = (goal.low, goal.high);
        write!(text, "goal {} {} {} {}\n", low.x, low.y, high.x, high.y)?;
    }
    Ok(())
}

/// The lines of how the goals are searched for.
fn push_search(text: &mut String, scene: &Scene) -> Result<(), AllocError>
    ensures { OnOk result (string_bytes text.new ≡ string_bytes text.old ++ flat_map line (search_statements scene.now)) }
{
    write!(text, "step {}\ngamma {}\n", scene.step, scene.gamma)?;
    write!(text, "seed {}\nstrips {}\n", scene.seed, scene.strips)?;
    push_informed(text, scene.informed)
}

/// The line of a scene that is informed.
fn push_informed(text: &mut String, informed: bool) -> Result<(), AllocError>
    ensures { OnOk result (string_bytes text.new ≡ string_bytes text.old ++ flat_map line (informed_statements informed)) }
{
    if informed {
        let yes: u32 = 1;
        write!(text, "informed {yes}\n")?;
    }
    Ok(())
}

/// The line of how many marks are drawn, or those of the listed marks.
fn push_plan(text: &mut String, plan: &Marks) -> Result<(), AllocError>
    ensures { OnOk result (string_bytes text.new ≡ string_bytes text.old ++ flat_map line (plan_statements plan.now)) }
{
    match plan {
        Marks::Drawn(count) => write!(text, "marks {count}\n"),
        Marks::Listed(marks) => push_marks(text, marks.as_slice()),
    }
}

/// A line for each mark.
fn push_marks(text: &mut String, marks: &[Point]) -> Result<(), AllocError>
    ensures { OnOk result (string_bytes text.new ≡ string_bytes text.old
        ++ flat_map line (map mark_statement marks.now)) }
{
    for mark in marks {
        write!(text, "mark {} {}\n", mark.x, mark.y)?;
    }
    Ok(())
}
