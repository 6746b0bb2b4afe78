//! A draft of a scene: what the lines of a scene text give, read one after another.

ghost use Rattle.std.specs.Prelude.{◌≡◌, ◌≤◌, [], ◌∷◌, Some, None, true, false, length, map, IfOk, OnOk, IfErr};
ghost use Rattle.plan_model.specs.Texts.TextLines.{words_of, value_of};
ghost use Rattle.plan_model.specs.Texts.Keys.{every_version, name_of, version_among};
ghost use Rattle.plan_model.specs.Texts.LineChecks.{given_by, with_statement, stands, is_repeated, is_too_many, first_failing, number_checks, checks_of};
ghost use Rattle.plan_model.specs.Texts.LineChecks.{version_of, fault_of_statement, fault_of_words, fault_at_end};
ghost use Rattle.plan_model.specs.Texts.SceneGrammar.{is_supported, supported, body_from, plan_from, HasFields};
ghost use Rattle.plan_model.specs.Texts.CanonicalText.{point_numbers, corner_numbers};
ghost use Rattle.scene_text.specs.Drafts.{line_numbers, amount_numbers, IsLineRefusal};

use crate::field_words::{read_amount, read_body, read_goal, read_obstacle, read_point};
use crate::key_words::{
    FORMAT_NAME, fits_words, is_supported, key_of, most_corners, most_lines, rival_of,
};
use crate::line_words::{WordCount, count_words};
use crate::refusals::LineRefusal;
use plan_model::{
    Goal, Goals, Key, Kind, Marks, Point, Points, Poly, Polys, Scene, Vertex, next_word,
};
use std::alloc::{AllocError, Global};

/// What the lines so far give: the version, and a field for each key.
///
/// It stands for the numbers of those lines, by their keys, and has nothing else. So the checks of the next line are
/// those of the grammar over these numbers.
#[derive(Drop)]
pub(crate) struct Draft {
    version: Option<u8>,
    room: Option<Point>,
    body: Option<Poly>,
    obstacles: Vec<Poly>,
    clearance: Option<u32>,
    start: Option<Point>,
    goals: Vec<Goal>,
    step: Option<u32>,
    gamma: Option<u32>,
    seed: Option<u64>,
    strips: Option<u32>,
    informed: Option<u32>,
    drawn: Option<u32>,
    marks: Vec<Point>,
}

/// The version with this word.
fn numbered_version(word: &[u8]) -> Option<u8>
    ensures { result ≡ version_among word.now every_version }
{
    match word {
        b"1" => Some(1),
        b"2" => Some(2),
        _ => None,
    }
}

/// The version that the first statement gives, by its first word and the words after it.
fn version_of(word: &[u8], words: &[u8]) -> Option<u8>
    ensures { result ≡ version_of supported.reads (word.now ∷ words_of words.now) }
{
    let (second, rest) = next_word(words)?;
    if word != FORMAT_NAME.as_bytes() || next_word(rest).is_some() {
        return None;
    }
    numbered_version(second)
}

/// The body, or without a line for it the point at the origin.
fn body_or_origin(alloc: Global, body: Option<Poly>) -> Result<Poly, AllocError>
    ensures { IfOk result (λ corners. corners ≡ body_from (line_numbers corner_numbers body)) }
{
    match body {
        Some(body) => Ok(body),
        None => Ok(Poly::from_vec(vec![in alloc; Vertex { x: 0, y: 0 }]?)),
    }
}

/// The plan: so many drawn marks if there is a line for them, or else the listed ones.
fn plan_of(drawn: Option<u32>, listed: Vec<Point>) -> Marks
    ensures { result ≡ plan_from (line_numbers amount_numbers drawn) (map point_numbers listed.items) }
{
    match drawn {
        Some(count) => Marks::Drawn(count),
        None => Marks::Listed(Points::from_vec(listed)),
    }
}

impl Draft {
    ghost use Rattle.scene_text.specs.Drafts.{given_by_draft, IsFormed, IsSoundDraft, TakesLine};

    /// The draft before the first line.
    pub(crate) fn new(alloc: Global) -> Draft
        ensures version { result.version ≡ None }
        ensures given { given_by_draft result ≡ given_by [] }
    {
        Draft {
            version: None,
            room: None,
            body: None,
            obstacles: Vec::new(alloc),
            clearance: None,
            start: None,
            goals: Vec::new(alloc),
            step: None,
            gamma: None,
            seed: None,
            strips: None,
            informed: None,
            drawn: None,
            marks: Vec::new(alloc),
        }
    }

    /// How many lines with the key stand.
    fn count(&self, key: Key) -> usize
        ensures { result ≡ length (given_by_draft self.now key) }
    {
        match key {
            Key::Room => usize::from(self.room.is_some()),
            Key::Body => usize::from(self.body.is_some()),
            Key::Obstacle => self.obstacles.len(),
            Key::Clearance => usize::from(self.clearance.is_some()),
            Key::Start => usize::from(self.start.is_some()),
            Key::Goal => self.goals.len(),
            Key::Step => usize::from(self.step.is_some()),
            Key::Gamma => usize::from(self.gamma.is_some()),
            Key::Seed => usize::from(self.seed.is_some()),
            Key::Strips => usize::from(self.strips.is_some()),
            Key::Informed => usize::from(self.informed.is_some()),
            Key::Marks => usize::from(self.drawn.is_some()),
            Key::Mark => self.marks.len(),
        }
    }

    /// Whether a line with the key stands.
    fn stands(&self, key: Key) -> bool
        ensures { result ≡ stands (given_by_draft self.now) key }
    {
        self.count(key) > 0
    }

    /// Whether the key may stand once and stands already, or one stands that may not stand beside it.
    fn is_repeated(&self, version: u8, key: Key) -> bool
        ensures { result ≡ is_repeated version (given_by_draft self.now) key }
    {
        if most_lines(version, key) == 1 && self.stands(key) {
            return true;
        }
        match rival_of(key) {
            Some(rival) => self.stands(rival),
            None => false,
        }
    }

    /// Whether so many words after the key give too many corners, or no further line with the key may stand.
    fn is_too_many(&self, version: u8, key: Key, count: usize) -> bool
        ensures { result ≡ is_too_many version (given_by_draft self.now) key count }
    {
        2 * most_corners(key) < count || most_lines(version, key) <= self.count(key)
    }

    /// Makes the checks of a line that come before those of its numbers.
    fn check_form(&self, version: u8, key: Key, words: &[u8]) -> Result<(), Kind>
        ensures formed { OnOk result (IsFormed version (given_by_draft self.now) key (words_of words.now)) }
        ensures refused { IfErr result (λ kind.
            first_failing (checks_of is_supported version (given_by_draft self.now) key (words_of words.now)) ≡ Some kind) }
    {
        let WordCount { count, are_numbers } = count_words(words);
        if !is_supported(key) {
            return Err(Kind::Unbuilt);
        }
        if self.is_repeated(version, key) {
            return Err(Kind::Repeat);
        }
        if !fits_words(key, count) {
            return Err(Kind::Words);
        }
        if self.is_too_many(version, key, count) {
            return Err(Kind::Many);
        }
        if !are_numbers {
            return Err(Kind::Number);
        }
        Ok(())
    }

    /// Takes the field that the numbers after the key give, or returns the first of their checks that fails.
    fn take_field(
        &mut self,
        alloc: Global,
        version: u8,
        key: Key,
        words: &[u8],
    ) -> Result<(), LineRefusal>
        requires { IsFormed version (given_by_draft self.old) key (words_of words.now) }
        ensures sound { OnOk result (first_failing (number_checks version key (map value_of (words_of words.now))) ≡ None) }
        ensures version { OnOk result (self.new.version ≡ self.old.version) }
        ensures given { OnOk result (given_by_draft self.new
            ≡ with_statement (given_by_draft self.old) (name_of key ∷ words_of words.now)) }
        ensures refused { IfErr result (IsLineRefusal (first_failing (number_checks version key (map value_of (words_of words.now))))) }
    {
        match key {
            Key::Room => self.room = Some(read_point(words, version, key)?),
            Key::Body => self.body = Some(read_body(alloc, words, version)?),
            Key::Obstacle => self.obstacles.push(read_obstacle(alloc, words, version)?)?,
            Key::Clearance => self.clearance = Some(read_amount(words, version, key)? as u32),
            Key::Start => self.start = Some(read_point(words, version, key)?),
            Key::Goal => self.goals.push(read_goal(words, version)?)?,
            Key::Step => self.step = Some(read_amount(words, version, key)? as u32),
            Key::Gamma => self.gamma = Some(read_amount(words, version, key)? as u32),
            Key::Seed => self.seed = Some(read_amount(words, version, key)?),
            Key::Strips => self.strips = Some(read_amount(words, version, key)? as u32),
            Key::Informed => self.informed = Some(read_amount(words, version, key)? as u32),
            Key::Marks => self.drawn = Some(read_amount(words, version, key)? as u32),
            Key::Mark => self.marks.push(read_point(words, version, key)?)?,
        }
        Ok(())
    }

    /// Takes a statement after the version, by its first word and the words after it.
    fn take_statement(
        &mut self,
        alloc: Global,
        version: u8,
        word: &[u8],
        words: &[u8],
    ) -> Result<(), LineRefusal>
        ensures sound { OnOk result
            (fault_of_statement is_supported version (given_by_draft self.old) (word.now ∷ words_of words.now) ≡ None) }
        ensures version { OnOk result (self.new.version ≡ self.old.version) }
        ensures given { OnOk result (given_by_draft self.new ≡ with_statement (given_by_draft self.old) (word.now ∷ words_of words.now)) }
        ensures refused { IfErr result
            (IsLineRefusal (fault_of_statement is_supported version (given_by_draft self.old) (word.now ∷ words_of words.now))) }
    {
        let key = key_of(version, word).ok_or(Kind::Key)?;
        self.check_form(version, key, words)?;
        self.take_field(alloc, version, key, words)
    }

    /// Takes a line, or returns the first check that it fails.
    pub(crate) fn take_line(&mut self, alloc: Global, line: &[u8]) -> Result<(), LineRefusal>
        ensures taken { OnOk result (TakesLine self.old self.new (words_of line.now)) }
        ensures refused { IfErr result (IsLineRefusal
            (fault_of_words supported self.old.version (given_by_draft self.old) (words_of line.now))) }
    {
        let Some((word, words)) = next_word(line) else {
            return Ok(());
        };
        if word.first() == Some(&b'#') {
            return Ok(());
        }
        if let Some(version) = self.version {
            return self.take_statement(alloc, version, word, words);
        }
        let Some(version) = version_of(word, words) else {
            return Err(LineRefusal::Fault(Kind::Version));
        };
        self.version = Some(version);
        Ok(())
    }

    /// The scene that the lines give, or what is missing.
    pub(crate) fn into_scene(self, alloc: Global) -> Result<Scene, LineRefusal>
        requires { IsSoundDraft self }
        ensures complete { OnOk result (fault_at_end self.version (given_by_draft self) ≡ None) }
        ensures fields { IfOk result (HasFields self.version (given_by_draft self)) }
        ensures refused { IfErr result (IsLineRefusal (fault_at_end self.version (given_by_draft self))) }
    {
        let Some(version) = self.version else {
            return Err(LineRefusal::Fault(Kind::Version));
        };
        let (Some(room), Some(start), Some(step)) = (self.room, self.start, self.step) else {
            return Err(LineRefusal::Fault(Kind::Missing));
        };
        if self.goals.is_empty() {
            return Err(LineRefusal::Fault(Kind::Missing));
        }
        let body = body_or_origin(alloc, self.body)?;
        Ok(Scene {
            version,
            room,
            body,
            obstacles: Polys::from_vec(self.obstacles),
            clearance: self.clearance.unwrap_or(0),
            start,
            goals: Goals::from_vec(self.goals),
            step,
            gamma: self.gamma.unwrap_or(0),
            seed: self.seed.unwrap_or(0),
            strips: self.strips.unwrap_or(1),
            informed: self.informed.unwrap_or(0) == 1,
            plan: plan_of(self.drawn, self.marks),
        })
    }
}
