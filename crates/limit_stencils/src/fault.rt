//! The faults of limit tables.

use ratio128::Memory;

/// The first fault that keeps a level of quads from a limit table.
#[derive(Clone, Copy, Debug, PartialEq, Eq)]
pub enum QuadFault {
    /// The least point without a limit mask is a dart: exactly one of its edges is infinitely sharp, and nothing there is semi-sharp.
    Dart(u32),
    /// The least point without a limit mask is semi-sharp or has a semi-sharp edge.
    SemiSharp(u32),
    /// The least point whose limit point has a common denominator above 2^126 - 1. Every point has a limit mask.
    Denominator(u32),
    /// The rows would have more than 2^27 entries.
    TooManyEntries,
    /// Memory ran out.
    Memory,
}

/// The first fault that keeps a level from a limit table. The variants are in the order of the search, but one search finds `Dart` and
/// `SemiSharp`.
#[derive(Clone, Copy, Debug, PartialEq, Eq)]
pub enum LimitFault {
    /// The least face that does not have four corners.
    NotQuads(u32),
    /// The least point without a limit mask is a dart: exactly one of its edges is infinitely sharp, and nothing there is semi-sharp.
    Dart(u32),
    /// The least point without a limit mask is semi-sharp or has a semi-sharp edge.
    SemiSharp(u32),
    /// The least point whose limit point has a common denominator above 2^126 - 1. Every point has a limit mask.
    Denominator(u32),
    /// The rows would have more than 2^27 entries.
    TooManyEntries,
    /// Memory ran out.
    Memory,
}

impl From<Memory> for QuadFault {
    ghost use Rattle.std.specs.Prelude.{◌≡◌};
    ghost use Rattle.limit_stencils.specs.declared.fault.QuadFault.TheVariants as fault;

    ghost from_gives = { λ _ e. e ≡ fault.Memory };

    fn from(_: Memory) -> QuadFault {
        QuadFault::Memory
    }
}

impl From<Memory> for LimitFault {
    ghost use Rattle.std.specs.Prelude.{◌≡◌};
    ghost use Rattle.limit_stencils.specs.declared.fault.LimitFault.TheVariants as fault;

    ghost from_gives = { λ _ e. e ≡ fault.Memory };

    fn from(_: Memory) -> LimitFault {
        LimitFault::Memory
    }
}
