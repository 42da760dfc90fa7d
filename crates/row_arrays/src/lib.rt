//! Evaluates rows exactly over flat arrays of a caller, and rounds fractions to the nearest doubles or floats.
//!
//! Controls may have any number of components. Ranges of rows are independent, so threads may share them.
//!
//! The crate also turns doubles or floats of a caller into whole numerators over one denominator: exactly, or rounded to a
//! grid. These calls take the bits of the numbers. No call of the crate takes memory.
#![tactic(auto)]

mod amount;
mod apply;
mod floats;
mod fraction_fault;
mod fractions;
mod grid;
mod number_fault;
mod product;
mod round;
mod row;
mod rows;
mod scale;
mod sum;

pub use apply::apply_rows;
pub use fraction_fault::FractionFault;
pub use fractions::FractionArrays;
pub use grid::{round_binary32s, round_binary64s};
pub use number_fault::NumberFault;
pub use round::{round_fractions32, round_fractions64};
pub use rows::{ControlArrays, RowArrays, RowFault, RowRange};
pub use scale::{scale_binary32s, scale_binary64s};
