//! The bytes of a report, read line by line into lists.

pub(crate) mod count_readers;
pub(crate) mod fields;
pub(crate) mod front_lines;
pub(crate) mod line_readers;
pub(crate) mod mark_fields;
pub(crate) mod mark_readers;
pub(crate) mod number_words;
pub(crate) mod sheets;
