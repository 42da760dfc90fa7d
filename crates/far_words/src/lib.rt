//! Reads the words of a command line as a command with all its options, or reports the place of the first bad word.
//!
//! The words are those after the name of the program, and places are counted from 0. A command reads a mesh (`ReadCommand`), takes a stored
//! table (`StoredCommand`), makes its mesh (`MakeCommand`), or writes while it reads (`StreamCommand`). `command_table` lists the commands
//! and options. No call takes memory.
#![tactic(auto)]

mod command;
pub mod laws;
mod number;
mod options;
mod read;
mod table;

pub use command::{
    By, Command, FramesOptions, GenOptions, LimitOptions, MakeCommand, MapOptions, PatchOptions,
    ReadCommand, RefineOptions, Select, SparseOptions, SparseUv, StoredCommand, StreamCommand, Uv,
};
pub use read::{read_words, read_words_by};
pub use table::{CommandRule, OptionRule, ValueKind, command_table};
