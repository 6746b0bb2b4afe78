//! The versions, the keys of lines, and the tables of what may stand after each key, and how often, by the version.

ghost use Rattle.std.specs.Prelude.{◌≡◌, pos};
ghost use Rattle.plan_model.specs.Texts.Keys.{every_key, fits_words, is_key, key_among, key_of, least_of, most_corners, most_lines, most_of, rival_of};
ghost use Rattle.plan_model.specs.Scenes.Limits.{by_version, most_obstacle_coordinate};
ghost use Rattle.plan_model.specs.Texts.SceneGrammar.{is_supported};

use plan_model::{
    Key, LEAST_BODY_COORDINATE, LEAST_CORNERS, LEAST_OBSTACLE_COORDINATE,
    LEAST_OBSTACLE_COORDINATE_OF_VERSION_2, LEAST_SIDE, LEAST_STEP, LEAST_STRIPS,
    MOST_BODY_COORDINATE, MOST_BODY_CORNERS, MOST_CLEARANCE, MOST_GAMMA, MOST_GOALS, MOST_MARKS,
    MOST_OBSTACLE_COORDINATE, MOST_OBSTACLE_COORDINATE_OF_VERSION_2, MOST_OBSTACLE_CORNERS,
    MOST_OBSTACLES, MOST_SEED, MOST_SIDE, MOST_SIDE_OF_VERSION_2, MOST_STEP,
    MOST_STEP_OF_VERSION_2, MOST_STRIPS, NumberRange,
};

/// The word that a scene text begins with.
pub(crate) const FORMAT_NAME: &str = "prrt";

/// The key of the version that a word names.
pub(crate) fn key_of(version: u8, word: &[u8]) -> Option<Key>
    ensures { result ≡ key_of version word.now }
{
    let key = named_key(word)?;
    if is_key(version, key) {
        Some(key)
    } else {
        None
    }
}

/// Whether the key is one of the version.
fn is_key(version: u8, key: Key) -> bool
    ensures { result ≡ is_key version key }
{
    match key {
        Key::Clearance | Key::Informed => version != 1,
        _ => true,
    }
}

/// The key of any version that a word names.
fn named_key(word: &[u8]) -> Option<Key>
    ensures { result ≡ key_among word.now every_key }
{
    match word {
        b"room" => Some(Key::Room),
        b"body" => Some(Key::Body),
        b"obstacle" => Some(Key::Obstacle),
        b"clearance" => Some(Key::Clearance),
        b"start" => Some(Key::Start),
        b"goal" => Some(Key::Goal),
        b"step" => Some(Key::Step),
        b"gamma" => Some(Key::Gamma),
        b"seed" => Some(Key::Seed),
        b"strips" => Some(Key::Strips),
        b"informed" => Some(Key::Informed),
        b"marks" => Some(Key::Marks),
        b"mark" => Some(Key::Mark),
        _ => None,
    }
}

/// Whether the reader supports the key. It supports all of them now; a key of a later version is refused by this until it is read.
pub(crate) fn is_supported(_key: Key) -> bool
    ensures { result ≡ is_supported _key }
{
    true
}

/// Whether so many words may stand after the key.
pub(crate) fn fits_words(key: Key, count: usize) -> bool
    ensures { result ≡ fits_words key count }
{
    match key {
        Key::Room | Key::Start | Key::Mark => count == 2,
        Key::Body => count == 2 || (count % 2 == 0 && 2 * LEAST_CORNERS <= count),
        Key::Obstacle => count % 2 == 0 && 2 * LEAST_CORNERS <= count,
        Key::Goal => count == 4,
        Key::Clearance
        | Key::Step
        | Key::Gamma
        | Key::Seed
        | Key::Strips
        | Key::Informed
        | Key::Marks => count == 1,
    }
}

/// The most corners that a line with the key gives.
pub(crate) fn most_corners(key: Key) -> usize
    ensures { result ≡ most_corners key }
{
    match key {
        Key::Body => MOST_BODY_CORNERS,
        Key::Obstacle => MOST_OBSTACLE_CORNERS,
        _ => 2,
    }
}

/// How many lines with the key may stand.
pub(crate) fn most_lines(version: u8, key: Key) -> usize
    ensures { result ≡ most_lines version key }
{
    match key {
        Key::Obstacle => MOST_OBSTACLES,
        Key::Goal => by_version(version, 1, MOST_GOALS),
        Key::Mark => MOST_MARKS as usize,
        _ => 1,
    }
}

/// The key that may not stand beside this one.
pub(crate) fn rival_of(key: Key) -> Option<Key>
    ensures { result ≡ rival_of key }
{
    match key {
        Key::Marks => Some(Key::Mark),
        Key::Mark => Some(Key::Marks),
        _ => None,
    }
}

/// The numbers that may stand after the key.
pub(crate) fn range_of(version: u8, key: Key) -> NumberRange
    ensures least { result.least ≡ least_of version key }
    ensures most { pos result.most ≡ most_of version key }
{
    NumberRange {
        least: least_of(version, key),
        most: most_of(version, key),
    }
}

/// The first value in version 1, and the second one in version 2.
fn by_version<T: Copy>(version: u8, first: T, second: T) -> T
    ensures { result ≡ by_version version first second }
{
    if version == 1 { first } else { second }
}

/// The least number that may stand after the key.
fn least_of(version: u8, key: Key) -> i32
    ensures { result ≡ least_of version key }
{
    match key {
        Key::Room => LEAST_SIDE as i32,
        Key::Body => LEAST_BODY_COORDINATE,
        Key::Obstacle => by_version(
            version,
            LEAST_OBSTACLE_COORDINATE,
            LEAST_OBSTACLE_COORDINATE_OF_VERSION_2,
        ),
        Key::Step => LEAST_STEP as i32,
        Key::Strips => LEAST_STRIPS as i32,
        _ => 0,
    }
}

/// The greatest number that may stand after the key.
fn most_of(version: u8, key: Key) -> u64
    ensures { pos result ≡ most_of version key }
{
    match key {
        Key::Body => MOST_BODY_COORDINATE as u64,
        Key::Obstacle => most_obstacle_coordinate(version),
        Key::Clearance => u64::from(by_version(version, 0, MOST_CLEARANCE)),
        Key::Step => u64::from(by_version(version, MOST_STEP, MOST_STEP_OF_VERSION_2)),
        Key::Gamma => u64::from(MOST_GAMMA),
        Key::Seed => MOST_SEED,
        Key::Strips => u64::from(MOST_STRIPS),
        Key::Informed => by_version(version, 0, 1),
        Key::Marks => u64::from(MOST_MARKS),
        _ => u64::from(by_version(version, MOST_SIDE, MOST_SIDE_OF_VERSION_2)),
    }
}

/// The greatest coordinate of an obstacle's corner.
fn most_obstacle_coordinate(version: u8) -> u64
    ensures { pos result ≡ most_obstacle_coordinate version }
{
    if version == 1 {
        MOST_OBSTACLE_COORDINATE as u64
    } else {
        MOST_OBSTACLE_COORDINATE_OF_VERSION_2 as u64
    }
}
