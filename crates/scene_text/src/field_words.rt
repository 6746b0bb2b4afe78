//! The fields that the words after a key give, a reader for each shape of field.

ghost use Rattle.std.specs.Prelude.{◌≡◌, ◌≤ℤ◌, ◌<◌, ◌%◌, ◌==◌, ◌||◌, [], ◌∷◌, pos, true, false, None, Some, length, map, is_ok, if◌then◌else◌};
ghost use Rattle.std.specs.Prelude.{IfOk, IfErr, OnOk, IfSome, IfNone, IsTrue};
ghost use Rattle.std.specs.List.{list_all};
ghost use Rattle.convex_sets.specs.Boxes.{AreBoundedCorners};
ghost use Rattle.plan_model.specs.Geometry.Plane.{is_strictly_convex};
ghost use Rattle.plan_model.specs.Texts.CanonicalText.{point_numbers, goal_numbers, corner_numbers};
ghost use Rattle.plan_model.specs.Texts.TextLines.{words_of, is_number, value_of};
ghost use Rattle.plan_model.specs.Texts.Keys.{least_of, most_of};
ghost use Rattle.plan_model.specs.Texts.LineChecks.{are_between, is_in_range, first_failing, number_checks};
ghost use Rattle.plan_model.specs.declared.text_terms.Key.TheVariants as keys;
ghost use Rattle.plan_model.specs.declared.text_terms.Kind.TheVariants as kinds;
ghost use Rattle.scene_text.specs.Drafts.{IsLineRefusal};

use crate::key_words::range_of;
use crate::refusals::LineRefusal;
use convex_sets::is_convex;
use plan_model::{Goal, Key, Kind, Point, Poly, Vertex, integer, next_word};
use std::alloc::Global;

/// The first of the numbers, if it may stand after the key, and the words after it.
fn read_number(words: &[u8], version: u8, key: Key) -> Option<(i128, &[u8])>
    requires numbers { IsTrue (list_all is_number (words_of words.now)) }
    requires some { 0 < length (words_of words.now) }
    ensures value { IfSome result (λ found. map value_of (words_of words.now) ≡ found.0 ∷ map value_of (words_of found.1.now)) }
    ensures within { IfSome result (λ found. are_between (least_of version key) (most_of version key) (found.0 ∷ []) ≡ true) }
    ensures rest { IfSome result (λ found. IsTrue (list_all is_number (words_of found.1.now))) }
    ensures outside { IfNone result (are_between (least_of version key) (most_of version key) (map value_of (words_of words.now)) ≡ false) }
{
    let (word, rest) = next_word(words)?;
    let number = integer(word, range_of(version, key))?;
    Some((number, rest))
}

/// The first of the numbers as one that is not negative, if it may stand after the key, and the words after it.
fn read_natural(words: &[u8], version: u8, key: Key) -> Option<(u32, &[u8])>
    requires numbers { IsTrue (list_all is_number (words_of words.now)) }
    requires some { 0 < length (words_of words.now) }
    requires natural { pos 0 ≤ℤ least_of version key }
    requires narrow { most_of version key ≤ℤ pos u32.MAX }
    ensures value { IfSome result (λ found. map value_of (words_of words.now) ≡ pos found.0 ∷ map value_of (words_of found.1.now)) }
    ensures within { IfSome result (λ found. are_between (least_of version key) (most_of version key) (pos found.0 ∷ []) ≡ true) }
    ensures rest { IfSome result (λ found. IsTrue (list_all is_number (words_of found.1.now))) }
    ensures outside { IfNone result (are_between (least_of version key) (most_of version key) (map value_of (words_of words.now)) ≡ false) }
{
    let (number, rest) = read_number(words, version, key)?;
    Some((number as u32, rest))
}

/// The point that the first two of the numbers give, if they may stand after the key, and the words after them.
fn read_coordinates(words: &[u8], version: u8, key: Key) -> Option<(Point, &[u8])>
    requires numbers { IsTrue (list_all is_number (words_of words.now)) }
    requires two { 1 < length (words_of words.now) }
    requires natural { pos 0 ≤ℤ least_of version key }
    requires narrow { most_of version key ≤ℤ pos u32.MAX }
    ensures value { IfSome result (λ found. map value_of (words_of words.now)
        ≡ pos found.0.x ∷ pos found.0.y ∷ map value_of (words_of found.1.now)) }
    ensures within { IfSome result (λ found. are_between (least_of version key) (most_of version key) (point_numbers found.0) ≡ true) }
    ensures rest { IfSome result (λ found. IsTrue (list_all is_number (words_of found.1.now))) }
    ensures outside { IfNone result (are_between (least_of version key) (most_of version key) (map value_of (words_of words.now)) ≡ false) }
{
    let (x, rest) = read_natural(words, version, key)?;
    let (y, rest) = read_natural(rest, version, key)?;
    Some((Point { x, y }, rest))
}

/// The point that two numbers give, in lattice steps.
///
/// The error is `Range` if one of them may not stand after the key.
pub(crate) fn read_point(words: &[u8], version: u8, key: Key) -> Result<Point, Kind>
    requires numbers { IsTrue (list_all is_number (words_of words.now)) }
    requires two { length (words_of words.now) ≡ 2 }
    requires natural { pos 0 ≤ℤ least_of version key }
    requires narrow { most_of version key ≤ℤ pos u32.MAX }
    ensures value { IfOk result (λ point. map value_of (words_of words.now) ≡ point_numbers point) }
    ensures inside { is_ok result ≡ are_between (least_of version key) (most_of version key) (map value_of (words_of words.now)) }
    ensures outside { IfErr result (λ kind. kind ≡ kinds.Range) }
{
    let (point, _) = read_coordinates(words, version, key).ok_or(Kind::Range)?;
    Ok(point)
}

/// The goal that four numbers give, its lower left and its upper right corner.
///
/// The error is `Range` if one of them may not stand there, or the corners are in the wrong order.
pub(crate) fn read_goal(words: &[u8], version: u8) -> Result<Goal, Kind>
    requires numbers { IsTrue (list_all is_number (words_of words.now)) }
    requires four { length (words_of words.now) ≡ 4 }
    ensures value { IfOk result (λ goal. map value_of (words_of words.now) ≡ goal_numbers goal) }
    ensures inside { is_ok result ≡ is_in_range version keys.Goal (map value_of (words_of words.now)) }
    ensures outside { IfErr result (λ kind. kind ≡ kinds.Range) }
{
    let (low, rest) = read_coordinates(words, version, Key::Goal).ok_or(Kind::Range)?;
    let (high, _) = read_coordinates(rest, version, Key::Goal).ok_or(Kind::Range)?;
    if high.x < low.x || high.y < low.y {
        return Err(Kind::Range);
    }
    Ok(Goal { low, high })
}

/// The number that stands alone.
///
/// The error is `Range` if it may not stand after the key.
pub(crate) fn read_amount(words: &[u8], version: u8, key: Key) -> Result<u64, Kind>
    requires numbers { IsTrue (list_all is_number (words_of words.now)) }
    requires one { length (words_of words.now) ≡ 1 }
    requires natural { pos 0 ≤ℤ least_of version key }
    requires narrow { most_of version key ≤ℤ pos u64.MAX }
    ensures value { IfOk result (λ amount. map value_of (words_of words.now) ≡ pos amount ∷ []) }
    ensures within { IfOk result (λ amount. pos amount ≤ℤ most_of version key) }
    ensures inside { is_ok result ≡ are_between (least_of version key) (most_of version key) (map value_of (words_of words.now)) }
    ensures outside { IfErr result (λ kind. kind ≡ kinds.Range) }
{
    let (amount, _) = read_number(words, version, key).ok_or(Kind::Range)?;
    Ok(amount as u64)
}

/// The first of the numbers as a corner's coordinate, if it may stand after the key, and the words after it.
fn read_coordinate(words: &[u8], version: u8, key: Key) -> Option<(i32, &[u8])>
    requires numbers { IsTrue (list_all is_number (words_of words.now)) }
    requires some { 0 < length (words_of words.now) }
    requires low { i32.MIN ≤ℤ least_of version key }
    requires high { most_of version key ≤ℤ i32.MAX }
    ensures value { IfSome result (λ found. map value_of (words_of words.now) ≡ found.0 ∷ map value_of (words_of found.1.now)) }
    ensures within { IfSome result (λ found. are_between (least_of version key) (most_of version key) (found.0 ∷ []) ≡ true) }
    ensures rest { IfSome result (λ found. IsTrue (list_all is_number (words_of found.1.now))) }
    ensures outside { IfNone result (are_between (least_of version key) (most_of version key) (map value_of (words_of words.now)) ≡ false) }
{
    let (number, rest) = read_number(words, version, key)?;
    Some((number as i32, rest))
}

/// The first of the corners, if its numbers may stand after the key, and the words after it.
fn read_corner(words: &[u8], version: u8, key: Key) -> Option<(Vertex, &[u8])>
    requires numbers { IsTrue (list_all is_number (words_of words.now)) }
    requires two { 1 < length (words_of words.now) }
    requires low { i32.MIN ≤ℤ least_of version key }
    requires high { most_of version key ≤ℤ i32.MAX }
    ensures value { IfSome result (λ found. map value_of (words_of words.now)
        ≡ found.0.x ∷ found.0.y ∷ map value_of (words_of found.1.now)) }
    ensures within { IfSome result (λ found. are_between (least_of version key) (most_of version key) (found.0.x ∷ found.0.y ∷ []) ≡ true) }
    ensures rest { IfSome result (λ found. IsTrue (list_all is_number (words_of found.1.now))) }
    ensures outside { IfNone result (are_between (least_of version key) (most_of version key) (map value_of (words_of words.now)) ≡ false) }
{
    let (x, rest) = read_coordinate(words, version, key)?;
    let (y, rest) = read_coordinate(rest, version, key)?;
    Some((Vertex { x, y }, rest))
}

/// The corners that the numbers give, two for each. The error is `Range` if a number may not stand after the key.
fn read_corners(
    alloc: Global,
    words: &[u8],
    version: u8,
    key: Key,
) -> Result<Vec<Vertex>, LineRefusal>
    requires numbers { IsTrue (list_all is_number (words_of words.now)) }
    requires pairs { length (words_of words.now) % 2 ≡ 0 }
    requires low { i32.MIN ≤ℤ least_of version key }
    requires high { most_of version key ≤ℤ i32.MAX }
    ensures value { IfOk result (λ corners. map value_of (words_of words.now) ≡ corner_numbers corners.items) }
    ensures within { OnOk result (are_between (least_of version key) (most_of version key) (map value_of (words_of words.now)) ≡ true) }
    ensures outside { IfErr result (IsLineRefusal
        (if are_between (least_of version key) (most_of version key) (map value_of (words_of words.now)) then None else Some kinds.Range)) }
{
    let mut corners = Vec::new(alloc);
    let mut rest = words;
    while next_word(rest).is_some() {
        let (corner, after) = read_corner(rest, version, key).ok_or(Kind::Range)?;
        corners.push(corner)?;
        rest = after;
    }
    Ok(corners)
}

/// The obstacle that the numbers give, two for each corner.
///
/// # Errors
///
/// `Range` if a coordinate is out of its range, `Corners` if the corners are not strictly convex and counterclockwise, and
/// `Memory` if out of memory.
pub(crate) fn read_obstacle(alloc: Global, words: &[u8], version: u8) -> Result<Poly, LineRefusal>
    requires numbers { IsTrue (list_all is_number (words_of words.now)) }
    requires pairs { length (words_of words.now) % 2 ≡ 0 }
    ensures value { IfOk result (λ corners. map value_of (words_of words.now) ≡ corner_numbers corners) }
    ensures sound { OnOk result (first_failing (number_checks version keys.Obstacle (map value_of (words_of words.now))) ≡ None) }
    ensures refused { IfErr result (IsLineRefusal (first_failing (number_checks version keys.Obstacle (map value_of (words_of words.now))))) }
{
    let corners = read_corners(alloc, words, version, Key::Obstacle)?;
    if !is_convex(corners.as_slice()) {
        return Err(LineRefusal::Fault(Kind::Corners));
    }
    Ok(Poly::from_vec(corners))
}

/// Whether the corners are one, or strictly convex and counterclockwise.
fn is_point_or_convex(corners: &[Vertex]) -> bool
    requires { AreBoundedCorners corners.now }
    ensures { result ≡ (length corners.now == 1 || is_strictly_convex corners.now) }
{
    corners.len() == 1 || is_convex(corners)
}

/// The body that the numbers give, two for each corner; a body of one corner is a point.
///
/// # Errors
///
/// `Range` if a coordinate is out of its range, `Corners` if three corners or more are not strictly convex and
/// counterclockwise, and `Memory` if out of memory.
pub(crate) fn read_body(alloc: Global, words: &[u8], version: u8) -> Result<Poly, LineRefusal>
    requires numbers { IsTrue (list_all is_number (words_of words.now)) }
    requires pairs { length (words_of words.now) % 2 ≡ 0 }
    ensures value { IfOk result (λ corners. map value_of (words_of words.now) ≡ corner_numbers corners) }
    ensures sound { OnOk result (first_failing (number_checks version keys.Body (map value_of (words_of words.now))) ≡ None) }
    ensures refused { IfErr result (IsLineRefusal (first_failing (number_checks version keys.Body (map value_of (words_of words.now))))) }
{
    let corners = read_corners(alloc, words, version, Key::Body)?;
    if !is_point_or_convex(corners.as_slice()) {
        return Err(LineRefusal::Fault(Kind::Corners));
    }
    Ok(Poly::from_vec(corners))
}
