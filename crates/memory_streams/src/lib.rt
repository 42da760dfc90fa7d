//! Streams over slices of a caller: a source that reads one, and a sink that fills one and counts the bytes that do not fit.
//!
//! No call takes memory or fails. One run of a program therefore reports the length of its output, and leaves the whole output in a slice
//! that is long enough.
#![tactic(auto)]

mod beyond;
mod sink;
mod source;
mod written;

pub use sink::SliceSink;
pub use source::SliceSource;
