//! Writes stencil tables into flat arrays that the caller owns, with exact weights or with weights as floating-point numbers.
//!
//! `counts_of` returns the lengths that the arrays need. These calls take no memory, and none reports an error.
//!
//! The crate also reads, writes, makes and checks stored tables in a caller's memory. A table comes from the bytes of its text
//! or from rows in arrays. A check compares a text with the table of a mesh in arrays. An error is a `FaultRecord` of
//! `array_answers`; `table_file` defines the text.
#![tactic(auto)]

mod check;
mod doubles;
mod entries;
mod exact_rows;
mod floats;
mod numbers;
mod places;
mod read;
mod rows;
mod table;
mod write;

pub use check::check_stored;
pub use doubles::put_weights64;
pub use exact_rows::ExactRows;
pub use floats::put_weights32;
pub use numbers::{put_denominators, put_numerators};
pub use places::{
    DoublePlaces, ExactPlaces, FloatPlaces, TableCounts, counts_of, put_double_table,
    put_exact_table, put_float_table,
};
pub use read::read_stored;
pub use rows::{put_indices, put_starts};
pub use table::table_of_rows;
pub use write::write_stored;
