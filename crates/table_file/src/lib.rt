//! Writes stencil tables as text, reads them back, and finds the first row at which two tables differ.
#![tactic(auto)]

mod difference;
mod fault;
mod header;
mod line;
mod number;
mod put;
mod reader;
mod row;
mod rows;
mod words;

pub use difference::first_difference;
pub use fault::{TableCause, TableFault, TableReadFault};
pub use put::put_table;
pub use reader::{ReadTable, read_table};
