//! Laws of OBJ text: normal forms of numerals, ranges of numbers that are read, and the faults and meshes of whole texts.
//!
//! Each public function has an empty body: its clauses are the laws. The proofs of other crates cite the lemmas behind them.
#![tactic(auto)]

pub mod numerals;
pub mod short_numbers;
pub mod texts;
