//! Writes text to a sink through one buffer: bytes, whole numbers, exact fractions and rounded decimals.
//!
//! An [`Out`] keeps the sink of a caller while it gathers text in a buffer of 4,096 bytes. A longer piece goes straight to the sink. No
//! call takes memory.
#![tactic(auto)]

pub mod laws;
mod numbers;
mod put;
mod rounding;
mod terms;
mod waiting;

pub use put::Out;
