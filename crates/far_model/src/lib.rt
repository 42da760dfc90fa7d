//! The definitions of the program `far`: the words of its command line, its commands, and its answers to words and bytes.
//!
//! They use the definitions of `subdiv_model`. The public functions have empty bodies: their clauses are worked examples, proved
//! by computing both sides.
#![tactic(auto)]

pub mod answers;
pub mod frames;
pub mod stored;
pub mod streams;
pub mod words;
