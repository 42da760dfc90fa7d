//! Keeps the values of a stencil table up to date while its control points move.
//!
//! A session has the controls, the value of each point, and marks of the points that moves changed. A move visits only the
//! rows that have its control. `Session::start` takes all memory: 12 or 20 bytes for each entry of the table, besides the
//! controls, the values and the marks. No other call of a session takes memory.
//!
//! `Marks` marks numbers from 0 up to a count, with a fast search for the least marked number. It keeps a binary tree over the
//! numbers: a node is marked if one of its children is. A node takes one byte, and each number needs fewer than four nodes.
#![tactic(auto)]

mod add;
mod columns;
mod fault;
pub mod laws;
mod marks;
mod parts;
mod session;
mod tree;

pub use fault::{MoveFault, TooGreat};
pub use marks::Marks;
pub use session::Session;
