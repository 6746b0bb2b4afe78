//! The words of a scene text: its keys, and the kinds of its faults.

ghost use Rattle.std.specs.Prelude.{◌≡◌, ◌≤◌, length};

use std::fmt;

/// The key that a line of a scene text begins with.
#[derive(Clone, Copy, Debug, PartialEq, Eq)]
pub enum Key {
    /// The upper right corner of the room.
    Room,
    /// The corners of the body.
    Body,
    /// The corners of an obstacle.
    Obstacle,
    /// The clearance of the body, in version 2.
    Clearance,
    /// The configuration in which the tree begins.
    Start,
    /// The lower left and the upper right corner of a goal.
    Goal,
    /// The longest edge of the tree.
    Step,
    /// The factor of the rewiring radius.
    Gamma,
    /// The seed of drawn marks.
    Seed,
    /// The number of strips that the room is cut into.
    Strips,
    /// Whether marks are skipped that no cheaper path can pass through, in version 2.
    Informed,
    /// The number of marks that are drawn.
    Marks,
    /// A mark that is listed.
    Mark,
}

/// Why a line of a scene text is refused, by the first check that it fails.
///
/// The checks of a line are made in the order Key, Unbuilt, Repeat, Words, Many, Number, Range, Corners.
#[derive(Clone, Copy, Debug, PartialEq, Eq)]
pub enum Kind {
    /// The first line that is not skipped is no version that is read, or there is none.
    Version = 1,
    /// The line begins with no key of the version.
    Key = 2,
    /// Too many or too few words follow the key.
    Words = 3,
    /// A word that follows the key is no number.
    Number = 4,
    /// A number lies outside its range, or the first corner of a goal is not the lower left one.
    Range = 5,
    /// A key that may stand once stands again, or `mark` and `marks` stand both.
    Repeat = 6,
    /// A polygon is not strictly convex and counterclockwise.
    Corners = 7,
    /// Too many corners, obstacles, goals or marks.
    Many = 8,
    /// `room`, `start`, `goal` or `step` does not stand; the line is the one after the last.
    Missing = 9,
    /// The key is one of the grammar that the reader does not support.
    Unbuilt = 10,
}

impl Kind {
    ghost use Rattle.plan_model.specs.Texts.Keys.{number_of_kind, name_of_kind};

    /// The number of the kind, 1 to 10.
    pub fn number(self) -> u32
        ensures { result ≡ number_of_kind self }
    {
        self as u32
    }

    /// The name of the kind, ten letters at most.
    pub fn name(self) -> &'static str
        ensures name { result.now ≡ name_of_kind self }
        ensures short { length result.now ≤ 10 }
    {
        match self {
            Kind::Version => "Version",
            Kind::Key => "Key",
            Kind::Words => "Words",
            Kind::Number => "Number",
            Kind::Range => "Range",
            Kind::Repeat => "Repeat",
            Kind::Corners => "Corners",
            Kind::Many => "Many",
            Kind::Missing => "Missing",
            Kind::Unbuilt => "Unbuilt",
        }
    }
}

impl fmt::Display for Kind {
    ghost use Rattle.std.specs.Prelude.{Some};
    ghost use Rattle.plan_model.specs.Texts.Keys.{name_of_kind};

    ghost output = { λ kind. Some (name_of_kind kind) };

    fn fmt<W: fmt::Write>(&self, f: &mut fmt::Formatter<W>) -> fmt::Result {
        f.write_str(self.name())
    }
}
