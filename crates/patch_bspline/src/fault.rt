//! The faults of a patch.

use ratio128::Memory;

/// The first fault that keeps a face from a patch table. The variants are in the order of the search.
#[derive(Clone, Copy, Debug, PartialEq, Eq)]
pub enum PatchFault {
    /// The level has no face of this number.
    NoFace,
    /// The face is not a quad, or one of its corners is not regular. A regular corner is smooth, not on a boundary, and has four quads
    /// around it.
    NotRegular,
    /// The least row, counted from 0, whose common denominator passes 2^126 - 1.
    Denominator(u32),
    /// The rows would have more than 2^27 entries.
    TooManyEntries,
    /// Memory ran out.
    Memory,
}

impl From<Memory> for PatchFault {
    ghost use Rattle.std.specs.Prelude.{◌≡◌};
    ghost use Rattle.patch_bspline.specs.declared.fault.PatchFault.TheVariants as fault;

    ghost from_gives = { λ _ e. e ≡ fault.Memory };

    fn from(_: Memory) -> PatchFault {
        PatchFault::Memory
    }
}
