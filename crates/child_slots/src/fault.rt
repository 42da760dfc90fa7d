//! The fault of the halves of edges.

use ratio128::Memory;

/// The fault of halves of edges that get no sharpness.
#[derive(Clone, Copy, Debug, PartialEq, Eq)]
pub enum HalfFault {
    /// The halves of semi-sharp edges at this vertex exceed the bounds of a sharpness.
    Chaikin(u32),
    /// Memory ran out.
    Memory,
}

impl From<Memory> for HalfFault {
    ghost use Rattle.std.specs.Prelude.{◌≡◌};
    ghost use Rattle.child_slots.specs.declared.fault.HalfFault.TheVariants as fault;

    ghost from_gives = { λ _ e. e ≡ fault.Memory };

    fn from(_: Memory) -> HalfFault {
        HalfFault::Memory
    }
}
