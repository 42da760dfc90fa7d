//! Laws of stored tables: how their texts are read, which table `verify` accepts, and which points `apply` writes.
//!
//! Each public function has an empty body: its clauses are the laws. Rows are counted from 0.
#![tactic(auto)]

pub mod applied;
pub mod differences;
pub mod evaluated;
pub mod own_tables;
pub mod texts;
pub mod verified;
