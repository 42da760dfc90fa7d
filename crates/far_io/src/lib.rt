//! Sources and sinks of bytes that count their failed calls, readers of lines over them, and implementations in memory and over std.
//!
//! Contracts see the bytes a [`Source`] has left and a [`Sink`] holds, if its type reports them, and the count of its failed calls. Generic
//! code cannot raise that count. A contract that ties an error to a raised count therefore rejects code that gives up without a failed
//! call.
#![tactic(auto)]

mod buffer;
mod lines;
mod memory;
mod part;
mod plan;
mod sink;
mod source;
mod standard;
mod store;
mod sure;
mod text;

pub use lines::{LineReader, NextLine};
pub use memory::{MemSink, MemSource};
pub use sink::{Sink, WriteFailed, write_all_of};
pub use source::{InputFault, ReadFailed, Source, read_all};
pub use standard::{StdSink, StdSource};
pub use sure::{SureSink, SureSource};
pub use text::{NextText, TextReader};
