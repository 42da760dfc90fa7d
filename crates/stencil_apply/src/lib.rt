//! Builds and evaluates stencil tables: each row gives one refined point as a weighted mean of control points, with exact
//! weights.
//!
//! A row has a denominator and, for each control point it depends on, a numerator. Tables grow row by row; the evaluation
//! takes ranges of rows. Source: the stencil tables of OpenSubdiv's Far layer; exact numerators over a denominator for each
//! row are this library's own.
#![tactic(auto)]

mod apply;
mod arrays;
mod builder;
mod entry;
pub mod laws;
mod push;
mod table;

pub use apply::{apply_range, scale_fits, sum_at, sum_width};
pub use builder::TableBuilder;
pub use entry::Entry;
pub use table::StencilTable;
