//! The bytes of a source, read to its end.

ghost use Rattle.std.specs.Prelude.{◌≡◌, ◌≤◌, length, true, false, IsTrue, IfOk, OnOk, OnErr, IsErrOf};
ghost use Rattle.std.specs.Io.KnownBytes.{IsAtEnd};
ghost use Rattle.plan_model.specs.Texts.Streams.{FaultsRose, counted_up};
ghost use Rattle.plan_model.specs.declared.limits.TheConstants.{MOST_TEXT_BYTES};
ghost use Rattle.scene_text.specs.Fetching.{CameTooLong, Fetches, IsAllOf, ReadsWithin};
ghost use Rattle.scene_text.specs.declared.fetching.FetchFault.TheVariants as faults;

use plan_model::{Failed, MOST_TEXT_BYTES, Source};
use std::alloc::{AllocError, Global};
use std::error::Error;
use std::fmt;

/// The most bytes that one read asks for.
const MOST_IN_PIECE: usize = 8192;

/// Why a source could not be read to its end.
#[derive(Clone, Copy, Debug, PartialEq, Eq)]
pub enum FetchFault {
    /// A read failed, and the source's count of faults rose.
    Read,
    /// More than `MOST_TEXT_BYTES` bytes came. One more than these was read.
    TooLong,
    /// The program is out of memory for the bytes.
    Memory,
}

impl fmt::Display for FetchFault {
    ghost use Rattle.std.specs.Prelude.{Some};
    ghost use Rattle.scene_text.specs.Fetching.{fault_message};

    ghost output = { λ fault. Some (fault_message fault) };

    fn fmt<W: fmt::Write>(&self, f: &mut fmt::Formatter<W>) -> fmt::Result {
        match self {
            FetchFault::Read => write!(f, "read failed"),
            FetchFault::TooLong => write!(f, "text longer than {MOST_TEXT_BYTES} bytes"),
            FetchFault::Memory => write!(f, "out of memory"),
        }
    }
}

impl Error for FetchFault {}

impl From<Failed> for FetchFault {
    ghost from_gives = { λ _ fault. fault ≡ faults.Read };

    fn from(_error: Failed) -> FetchFault {
        FetchFault::Read
    }
}

impl From<AllocError> for FetchFault {
    ghost from_gives = { λ _ fault. fault ≡ faults.Memory };

    fn from(_error: AllocError) -> FetchFault {
        FetchFault::Memory
    }
}

/// All bytes of a source that has not given its end, which may be none. It is read until it gives the end, or until one byte
/// more than `MOST_TEXT_BYTES` came. O(n) for n bytes.
///
/// # Errors
///
/// `Read` if a read failed, so only if the source's count of faults rose, `TooLong` exactly if more than `MOST_TEXT_BYTES`
/// bytes came, and `Memory` if out of memory for the bytes. The source has then not given its end, and what was read of it
/// is gone.
pub fn fetch<S: Source>(alloc: Global, source: &mut S) -> Result<Vec<u8>, FetchFault>
    requires { (S.state source.old).has_ended ≡ false }
    ensures end { OnOk result ((S.state source.new).has_ended ≡ true) }
    ensures no_end { OnErr result ((S.state source.new).has_ended ≡ false) }
    // the bytes that came were the next ones of the source; a text is those bytes
    ensures came { Fetches (S.state source.old).bytes_left (S.state source.new).bytes_left result }
    // and it is all bytes of the source, if they are known
    ensures bytes { IfOk result (λ text. IsAllOf (S.state source.old).bytes_left text.items) }
    ensures none_left { OnOk result (IsAtEnd (S.state source.new).bytes_left) }
    ensures small { IfOk result (λ text. length text.items ≤ MOST_TEXT_BYTES) }
    ensures too_long { IsErrOf result FetchFault.TooLong → CameTooLong (S.state source.old).bytes_left (S.state source.new).bytes_left }
    ensures within { ReadsWithin (S.state source.old).bytes_left (S.state source.new).bytes_left }
    ensures read { IsErrOf result FetchFault.Read → FaultsRose (S.state source.old).fault_count (S.state source.new).fault_count }
    ensures later { (S.state source.old).fault_count ≤ (S.state source.new).fault_count }
    // if the source counts failures alone, a read failed exactly if the result says so, and none was tried again
    ensures one_fault { IsTrue (S.state source.old).counts_failures_alone → IsErrOf result FetchFault.Read
        → (S.state source.new).fault_count ≡ counted_up (S.state source.old).fault_count }
    ensures no_fault { IsTrue (S.state source.old).counts_failures_alone → ¬ IsErrOf result FetchFault.Read
        → (S.state source.new).fault_count ≡ (S.state source.old).fault_count }
{
    let mut text = Vec::new(alloc);
    let mut buffer = [0; MOST_IN_PIECE];
    loop {
        let room = MOST_TEXT_BYTES - text.len();
        let piece = &mut buffer[..MOST_IN_PIECE.min(room + 1)];
        let count = source.read(piece)?;
        if count == 0 {
            return Ok(text);
        }
        if count > room {
            return Err(FetchFault::TooLong);
        }
        text.extend_from_slice(&piece[..count])?;
    }
}
