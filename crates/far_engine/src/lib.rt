//! The program `far` as a library. `program` does all of its work, and `run` returns the fault instead of the status. `run_command` runs a
//! command that is already read. Each call is generic in its source, its sink and its counter of steps, so one proof covers them all.
//!
//! `run_in_memory` runs the program over a caller's memory: its words, its input, its answer and the line of its fault are slices of bytes.
//! A caller that cannot know the length of an answer calls twice, since the run reports the lengths of the whole texts.
#![tactic(auto)]

mod command;
mod engine;
mod frame_lines;
mod frames;
mod in_memory;
mod input;
pub mod laws;
mod memory_words;
mod mesh_part;

pub use command::run_command;
pub use engine::{program, run};
pub use far_fault::{
    FarFault, LimitCause, OverflowKind, PlaceFault, TableCause, Track, report, status,
};
pub use in_memory::{Ran, run_in_memory};
