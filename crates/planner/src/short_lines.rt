//! Lines that take no memory.

ghost use Rattle.std.specs.Prelude.{◌≡◌, ◌≤◌, ◌<◌, ◌+◌, ◌++◌, length, decimal};

use arrayvec::ArrayString;
use itoa::Buffer;

/// Room for the longest line: the number of a line has at most ten digits, the name of a kind at most ten letters.
pub(crate) const LINE_CAPACITY: usize = 64;

/// A line.
pub(crate) type Line = ArrayString<LINE_CAPACITY>;

/// Adds to a line.
pub(crate) fn push(line: &mut Line, piece: &str)
    requires { length line.old.bytes + length piece.now ≤ LINE_CAPACITY }
    ensures { line.new.bytes ≡ line.old.bytes ++ piece.now }
{
    line.try_push_str(piece).unwrap()
}

/// Adds a number to a line.
pub(crate) fn push_number(line: &mut Line, number: u32)
    requires { length line.old.bytes + 10 ≤ LINE_CAPACITY }
    ensures value { line.new.bytes ≡ line.old.bytes ++ decimal number }
    ensures short { length line.new.bytes ≤ length line.old.bytes + 10 }
{
    let mut buffer = Buffer::new();
    push(line, buffer.format(number));
}

/// The line that begins with this text.
pub(crate) fn line_from(text: &str) -> Line
    requires { length text.now < LINE_CAPACITY }
    ensures text { result.bytes ≡ text.now }
    ensures short { length result.bytes < LINE_CAPACITY }
{
    let mut line = Line::new();
    push(&mut line, text);
    line
}
