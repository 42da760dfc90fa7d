//! Refines a channel of values to a depth, level by level or by one table, and composes the table of a channel. A `BaseChannel` holds
//! level 0, the scheme and the bounds of the control numbers. The controls are whole numbers; each refined value has the common
//! denominator of its point. Each call returns the last level of at most 10, or the first level that it cannot make, counted from 1, with
//! the cause.
//!
//! `refine_sparse` refines a channel at chosen faces only. Each level after level 0 contains the faces around the chosen ones, and each
//! point has the value that it has in the whole level. Rows come from sparse levels only: the call makes no whole level after level 0. It
//! keeps one table for each level and evaluates each at the points of that level.
#![tactic(auto)]

mod base;
mod by_table;
mod compose;
mod evaluated;
mod path;
mod refine;
mod sparse_compose;
mod sparse_points;
mod sparse_refine;
mod sparse_rows;
mod sparse_valued;
mod table;
mod values;

pub use base::BaseChannel;
pub use by_table::refine_by_table;
pub use compose::{ComposedChannel, compose_channel};
pub use evaluated::evaluate;
pub use path::{Path, refine_along};
pub use refine::{RefinedChannel, refine_channel};
pub use sparse_refine::refine_sparse;
pub use table::ByTable;
pub use values::ByValues;
