//! The refused number of a list, and its fault.

ghost use Rattle.std.specs.Prelude.{Some};
ghost use Rattle.row_arrays.specs.NumberFaultText.{number_fault_text};

use nearest_float::FloatFault;
use std::fmt;

/// The first number that a call refused.
#[derive(Clone, Copy, Debug, PartialEq, Eq)]
pub struct NumberFault {
    /// Its place, counted from 0.
    pub place: usize,
    /// Its fault.
    pub fault: FloatFault,
}

impl fmt::Display for NumberFault {
    ghost output = { λ fault. Some (number_fault_text fault) };

    fn fmt<W: fmt::Write>(&self, f: &mut fmt::Formatter<W>) -> fmt::Result {
        let NumberFault { place, fault } = *self;
        write!(f, "number {place}: {fault}")
    }
}

impl std::error::Error for NumberFault {}
