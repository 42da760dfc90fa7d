//! Laws of whole numbers, fractions and their texts, with the lemmas on numbers, counts and lists that the proofs of other crates
//! cite.
//!
//! Each public function has an empty body: its clauses are the laws.
#![tactic(auto)]

pub mod numbers;
