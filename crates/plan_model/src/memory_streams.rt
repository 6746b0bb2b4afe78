//! Sources and sinks in memory: a source that never fails, and a source and a sink that fail chosen calls.

mod mem_sink;
mod mem_source;
mod numbered_calls;
mod sure_source;
mod unread;

pub use mem_sink::MemSink;
pub use mem_source::MemSource;
pub use sure_source::SureSource;
