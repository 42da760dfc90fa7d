//! The fault of a walk.

use ratio128::Memory;

/// The kind of a number that exceeds its bound.
#[derive(Clone, Copy, Debug, PartialEq, Eq)]
pub enum OverflowKind {
    /// The denominator of the sharpness of the half of an edge is above 2^60, under the method `Chaikin`.
    Chaikin,
    /// The denominator of the weight between the rules of two levels is above 2^60.
    Transition,
    /// The common denominator of a point is above 2^126 - 1.
    Denominator,
    /// A numerator over the greatest common denominator is above 2^126 - 1.
    Value,
}

/// The cause that a level is not made, or that the data cannot follow to it. All steps and carriers report these causes.
#[derive(Clone, Copy, Debug, PartialEq, Eq)]
pub enum Cause {
    /// The level would have `count` faces, more than 2^22.
    TooManyFaces { count: u64 },
    /// A number exceeds its bound.
    Overflow(OverflowKind),
    /// The table of the level would have more than 2^27 entries.
    TooManyEntries,
    /// Memory ran out.
    Memory,
}

impl From<Memory> for Cause {
    ghost use Rattle.std.specs.Prelude.{◌≡◌};
    ghost use Rattle.level_walk.specs.declared.fault.Cause.TheVariants as cause;

    ghost from_gives = { λ _ e. e ≡ cause.Memory };

    fn from(_: Memory) -> Cause {
        Cause::Memory
    }
}

/// The fault of a walk that stops: the number of the first level that is not reached, counted from 1, and the cause. The
/// number is 0 where memory runs out outside of the walk.
#[derive(Clone, Copy, Debug, PartialEq, Eq)]
pub struct WalkFault {
    /// The number of the level.
    pub level: u32,
    /// The cause.
    pub cause: Cause,
}

impl From<Memory> for WalkFault {
    ghost use Rattle.std.specs.Prelude.{◌≡◌};
    ghost use Rattle.level_walk.specs.declared.fault.Cause.TheVariants as cause;

    ghost from_gives = { λ _ e. e ≡ record { level = 0; cause = cause.Memory } };

    fn from(_: Memory) -> WalkFault {
        WalkFault {
            level: 0,
            cause: Cause::Memory,
        }
    }
}
