//! Laws that connect several parts of the definitions: continued refinement, sharp texture seams, and tags from text to level 0.
//!
//! Each public function has an empty body: its clauses are the laws. No other crate cites them.
#![tactic(auto)]

pub mod continued;
pub mod seams;
pub mod tags;
