//! Natural numbers of 64 or 128 bits, and lists of numbers that all have one of these widths.
//!
//! A list takes 8 or 16 bytes for each number, and returns each number in 128 bits. `with_capacity`, `zeros`, `reserve` and `widen` take
//! memory; no other call does.
#![tactic(auto)]

mod list;
mod natural;
mod slice;
mod width;

pub use list::NumberList;
pub use natural::Natural;
pub use slice::NumberSlice;
pub use width::{Width, width_of};
