//! Laws of output: the reader returns exactly the numbers, lines and meshes that the program writes.
//!
//! Each public function has an empty body: its clauses are the laws.
#![tactic(auto)]

pub mod faults;
pub mod lines;
pub mod meshes;
pub mod numbers;
