//! The interface for C: calls over a caller's arrays. All but `far_run` and `far_fault_line` return a status: 0 if the call succeeded, 1 if
//! an array is too short. Else it is the status of the fault, whose record the call writes. With status 1 a call writes the counts that it
//! has, and of a text the beginning.
//!
//! The proofs do not cover what C passes. A pointer must not be null, and an array must have its stated length. An array that a call
//! writes must not overlap another argument, nor belong to another thread's call.
#![tactic(auto)]

mod fault;
mod faults;
mod fractions;
mod level;
mod numbers;
mod origins;
mod points;
mod rows;
mod run;
mod sparse;
mod status;
mod stored;
mod tables;
mod text;
mod textures;
