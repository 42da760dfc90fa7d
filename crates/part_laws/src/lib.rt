//! Laws of parts: some faces of a level, under other point numbers, give the same rules and masks where no face is missing.
//!
//! Each public function has an empty body: its clauses are the laws. A "name" is the number that a point of the part has in the
//! whole. To follow a part through levels, begin with `levels_are_parts_of_themselves`; `parts_of_next_levels_are_parts` is the
//! step.
#![tactic(auto)]

pub mod children;
pub mod levels;
pub mod masks;
pub mod parts;
pub mod values;
