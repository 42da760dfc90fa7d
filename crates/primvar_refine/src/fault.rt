//! The fault that keeps values from being refined.

ghost use Rattle.std.specs.Prelude.{Some};
ghost use Rattle.primvar_refine.specs.FaultText.{fault_text};

use ratio128::Memory;
use std::fmt;

/// The fault that keeps a level from values.
#[derive(Clone, Copy, Debug, PartialEq, Eq)]
pub enum ValueFault {
    /// At this vertex of the parent, the weight between the rules of two levels has a denominator above 2^60.
    Transition(u32),
    /// The common denominator of this child point is above 2^126 - 1.
    Denominator(u32),
    /// This child point is the first with the greatest denominator. That denominator times a bound of all values is above
    /// 2^126 - 1.
    TooBig(u32),
    /// Memory ran out.
    Memory,
}

impl From<Memory> for ValueFault {
    ghost use Rattle.std.specs.Prelude.{◌≡◌};
    ghost use Rattle.primvar_refine.specs.declared.fault.ValueFault.TheVariants as fault;

    ghost from_gives = { λ _ e. e ≡ fault.Memory };

    fn from(_: Memory) -> ValueFault {
        ValueFault::Memory
    }
}

impl fmt::Display for ValueFault {
    ghost output = { λ fault. Some (fault_text fault) };

    fn fmt<W: fmt::Write>(&self, f: &mut fmt::Formatter<W>) -> fmt::Result {
        match *self {
            ValueFault::Transition(v) => write!(f, "vertex {v}: a denominator passes 2^60"),
            ValueFault::Denominator(p) => write!(f, "point {p}: the denominator is too great"),
            ValueFault::TooBig(p) => write!(f, "point {p}: a numerator may be too great"),
            ValueFault::Memory => f.write_str("out of memory"),
        }
    }
}

impl std::error::Error for ValueFault {}
