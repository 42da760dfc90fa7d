//! The faults of bits without a fraction.

ghost use Rattle.std.specs.Prelude.{Some};
ghost use Rattle.nearest_float.specs.FaultText.{float_fault_text, list_fault_text};

use ratio128::Memory;
use std::alloc::AllocError;
use std::fmt;

/// The fault of a number without an exact fraction.
#[derive(Clone, Copy, Debug, PartialEq, Eq)]
pub enum FloatFault {
    /// The bits spell an infinity or NaN.
    NotFinite,
    /// In lowest terms, the numerator is 2^127 or more in amount, or the denominator is above 2^126.
    TooWide,
}

impl fmt::Display for FloatFault {
    ghost output = { λ fault. Some (float_fault_text fault) };

    fn fmt<W: fmt::Write>(&self, f: &mut fmt::Formatter<W>) -> fmt::Result {
        match self {
            FloatFault::NotFinite => f.write_str("not a finite number"),
            FloatFault::TooWide => f.write_str("the fraction is too wide"),
        }
    }
}

impl std::error::Error for FloatFault {}

/// The fault of a list of numbers.
#[derive(Clone, Copy, Debug, PartialEq, Eq)]
pub enum ListFault {
    /// The place, counted from 0, and the fault of the first number without a fraction.
    At(usize, FloatFault),
    /// Memory ran out.
    Memory,
}

impl fmt::Display for ListFault {
    ghost output = { λ fault. Some (list_fault_text fault) };

    fn fmt<W: fmt::Write>(&self, f: &mut fmt::Formatter<W>) -> fmt::Result {
        match *self {
            ListFault::At(place, fault) => write!(f, "number {place}: {fault}"),
            ListFault::Memory => f.write_str(Memory.text()),
        }
    }
}

impl std::error::Error for ListFault {}

impl From<AllocError> for ListFault {
    ghost use Rattle.std.specs.Prelude.{◌≡◌};
    ghost use Rattle.nearest_float.specs.declared.fault.ListFault.TheVariants.{Memory};

    ghost from_gives = { λ _ e. e ≡ Memory };

    fn from(_: AllocError) -> ListFault {
        ListFault::Memory
    }
}
