//! Reads the parts of OBJ text exactly: lines, words, numerals, indices and digits.
//!
//! The calls take bytes, round nothing and take no memory. A numeral becomes a numerator of at most 37 digits over a denominator from 1 to
//! 10^37, in lowest terms. The crate `subdiv_model` defines lines, words and numerals.
#![tactic(auto)]

mod decimal;
mod digits;
mod fraction;
mod index;
mod line;
mod numeral;
mod sign;
mod terms;

pub use digits::digits_up_to;
pub use index::read_index;
pub use line::{Words, line_end, words_of};
pub use numeral::{Numeral, NumeralFault, read_numeral};
