//! The fault that stopped the rounding of fractions.

ghost use Rattle.std.specs.Prelude.{Some};
ghost use Rattle.row_arrays.specs.FaultText.{fraction_fault_text};

use std::fmt;

/// The fault that stopped the rounding of fractions. Nothing was written.
#[derive(Clone, Copy, Debug, PartialEq, Eq)]
pub enum FractionFault {
    /// `per` is 0, the output has fewer places than there are numerators, or denominators are missing.
    Short,
    /// The denominator at this place, counted from 0, times the scale is 0, or 2^127 or more.
    Denominator(usize),
    /// The numerator at this place, counted from 0, is -2^127.
    Numerator(usize),
}

impl fmt::Display for FractionFault {
    ghost output = { λ fault. Some (fraction_fault_text fault) };

    fn fmt<W: fmt::Write>(&self, f: &mut fmt::Formatter<W>) -> fmt::Result {
        match *self {
            FractionFault::Short => f.write_str("an array is too short"),
            FractionFault::Denominator(place) => write!(
                f,
                "denominator {place} is out of its range"
            ),
            FractionFault::Numerator(place) => write!(f, "numerator {place} is out of its range"),
        }
    }
}

impl std::error::Error for FractionFault {}
