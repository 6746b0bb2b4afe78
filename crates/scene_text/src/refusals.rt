//! Why a scene text is refused.

ghost use Rattle.std.specs.Prelude.{◌≡◌};
ghost use Rattle.scene_text.specs.Drafts.{refusal_at};
ghost use Rattle.scene_text.specs.declared.refusals.LineRefusal.TheVariants as line;
ghost use Rattle.scene_text.specs.declared.refusals.SceneRefusal.TheVariants as scene;

use plan_model::Kind;
use std::alloc::{AllocError, AllocFailed};
use std::error::Error;
use std::fmt;

/// The first fault of a scene text. It is shown as `line 5 kind 6 Repeat`.
#[derive(Clone, Copy, Debug, PartialEq, Eq)]
pub struct SceneFault {
    /// The number of the line, counted from 1; if something is missing, the number after the last line's.
    pub line: u32,
    /// The first check that the line fails.
    pub kind: Kind,
}

impl fmt::Display for SceneFault {
    ghost use Rattle.std.specs.Prelude.{Some};
    ghost use Rattle.scene_text.specs.Drafts.{fault_text};

    ghost output = { λ fault. Some (fault_text fault.line fault.kind) };

    fn fmt<W: fmt::Write>(&self, f: &mut fmt::Formatter<W>) -> fmt::Result {
        let SceneFault { line, kind } = *self;
        let number = kind.number();
        write!(f, "line {line} kind {number} {kind}")
    }
}

impl Error for SceneFault {}

/// Why a scene text was not read.
#[derive(Clone, Copy, Debug, PartialEq, Eq)]
pub enum SceneRefusal {
    /// The text is no scene by the grammar.
    Fault(SceneFault),
    /// The program is out of memory.
    Memory,
}

impl fmt::Display for SceneRefusal {
    ghost use Rattle.std.specs.Prelude.{Some};
    ghost use Rattle.scene_text.specs.Drafts.{refusal_text};

    ghost output = { λ refusal. Some (refusal_text refusal) };

    fn fmt<W: fmt::Write>(&self, f: &mut fmt::Formatter<W>) -> fmt::Result {
        match self {
            SceneRefusal::Fault(fault) => write!(f, "{fault}"),
            SceneRefusal::Memory => write!(f, "out of memory"),
        }
    }
}

impl Error for SceneRefusal {}

impl From<AllocError> for SceneRefusal {
    ghost from_gives = { λ _ refusal. refusal ≡ scene.Memory };

    fn from(_error: AllocError) -> SceneRefusal {
        SceneRefusal::Memory
    }
}

impl<T: Drop> From<AllocFailed<T>> for SceneRefusal {
    ghost from_gives = { λ _ refusal. refusal ≡ scene.Memory };

    fn from(_error: AllocFailed<T>) -> SceneRefusal {
        SceneRefusal::Memory
    }
}

/// Why a line was not taken.
#[derive(Clone, Copy, Debug, PartialEq, Eq)]
pub(crate) enum LineRefusal {
    /// The first check that the line fails.
    Fault(Kind),
    /// The program is out of memory.
    Memory,
}

impl LineRefusal {
    /// The refusal of a text whose line with this number was not taken.
    pub(crate) fn at(self, line: u32) -> SceneRefusal
        ensures { result ≡ refusal_at line self }
    {
        match self {
            LineRefusal::Fault(kind) => SceneRefusal::Fault(SceneFault { line, kind }),
            LineRefusal::Memory => SceneRefusal::Memory,
        }
    }
}

impl From<Kind> for LineRefusal {
    ghost from_gives = { λ kind refusal. refusal ≡ line.Fault kind };

    fn from(kind: Kind) -> LineRefusal {
        LineRefusal::Fault(kind)
    }
}

impl From<AllocError> for LineRefusal {
    ghost from_gives = { λ _ refusal. refusal ≡ line.Memory };

    fn from(_error: AllocError) -> LineRefusal {
        LineRefusal::Memory
    }
}

impl<T: Drop> From<AllocFailed<T>> for LineRefusal {
    ghost from_gives = { λ _ refusal. refusal ≡ line.Memory };

    fn from(_error: AllocFailed<T>) -> LineRefusal {
        LineRefusal::Memory
    }
}
