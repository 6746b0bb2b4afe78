//! Laws of what is read.

ghost use Rattle.planner.specs.Inputs.{HasOneCause, ReadsOneMore};

/// Over a source whose bytes are known: that more came than a text may have and that a read failed exclude each other, and of
/// a text that is too long just one byte more is read than a text may have.
pub fn unfinished_reads_have_one_cause()
    ensures one_cause { HasOneCause }
    ensures one_more { ReadsOneMore }
{}
