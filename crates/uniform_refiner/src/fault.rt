//! The fault of a refinement.

ghost use Rattle.std.specs.Prelude.{Some};
ghost use Rattle.uniform_refiner.specs.FaultText.{fault_text};

use ratio128::Memory;
use std::fmt;

/// The fault of a refinement that returns no level.
#[derive(Clone, Copy, Debug, PartialEq, Eq)]
pub enum RefineFault {
    /// The next level would have this many faces, which is more than 2^22.
    TooLarge(u64),
    /// The halves of semi-sharp edges at this vertex exceed the bounds of a sharpness.
    Chaikin(u32),
    /// Memory ran out.
    Memory,
}

impl fmt::Display for RefineFault {
    ghost output = { λ fault. Some (fault_text fault) };

    fn fmt<W: fmt::Write>(&self, f: &mut fmt::Formatter<W>) -> fmt::Result {
        match *self {
            RefineFault::TooLarge(count) => write!(f, "too many faces: {count}"),
            RefineFault::Chaikin(v) => write!(f, "vertex {v}: chaikin overflow"),
            RefineFault::Memory => f.write_str("out of memory"),
        }
    }
}

impl std::error::Error for RefineFault {}

impl From<Memory> for RefineFault {
    ghost use Rattle.std.specs.Prelude.{◌≡◌};
    ghost use Rattle.uniform_refiner.specs.declared.fault.RefineFault.TheVariants as fault;

    ghost from_gives = { λ _ e. e ≡ fault.Memory };

    fn from(_: Memory) -> RefineFault {
        RefineFault::Memory
    }
}
