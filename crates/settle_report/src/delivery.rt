//! Writing a whole text to a sink.

ghost use Rattle.std.specs.Prelude.{◌≡◌, ◌≤◌, IsTrue, OnOk, OnErr};
ghost use Rattle.std.specs.Io.KnownBytes.{Appends};
ghost use Rattle.plan_model.specs.Texts.Streams.{FaultsRose, counted_up};
ghost use Rattle.settle_report.specs.SettledMarks.{AppendsPrefix};

use plan_model::{Failed, Sink};

/// Writes the text to the sink. Each write is handed the whole rest of the text; an empty text takes no write. It goes on
/// only after a write that took a byte.
///
/// # Errors
///
/// `Failed` if a write failed, so only if the sink's count of faults rose. The sink then took a proper prefix of the text.
pub fn deliver<K: Sink>(sink: &mut K, text: &[u8]) -> Result<(), Failed>
    ensures all { OnOk result (Appends (K.state sink.old).bytes_taken (K.state sink.new).bytes_taken text.now) }
    ensures prefix { OnErr result (AppendsPrefix (K.state sink.old).bytes_taken (K.state sink.new).bytes_taken text.now) }
    ensures failed { OnErr result (FaultsRose (K.state sink.old).fault_count (K.state sink.new).fault_count) }
    ensures later { (K.state sink.old).fault_count ≤ (K.state sink.new).fault_count }
    // if the sink counts failures alone, no write failed, or one did and was not tried again
    ensures no_fault { IsTrue (K.state sink.old).counts_failures_alone
        → OnOk result ((K.state sink.new).fault_count ≡ (K.state sink.old).fault_count) }
    ensures one_fault { IsTrue (K.state sink.old).counts_failures_alone
        → OnErr result ((K.state sink.new).fault_count ≡ counted_up (K.state sink.old).fault_count) }
{
    let mut written = 0;
    while written < text.len() {
        written += sink.write(&text[written..])?;
    }
    Ok(())
}
