//! The faults of `compose_masks` and `evaluate_masks`.

use ratio128::Memory;

/// The fault that kept [`compose_masks`](crate::compose_masks) from a table, or [`evaluate_masks`](crate::evaluate_masks) from the values.
///
/// A later variant is only reported if no row has an earlier fault. `Memory` can occur at any time.
#[derive(Clone, Copy, Debug, PartialEq, Eq)]
pub enum RowFault {
    /// The common denominator of a row is above 2^126 - 1. `row` is the least such row, counted from 0.
    Denominator { row: u32 },
    /// The rows would have more than 2^27 entries together.
    TooManyEntries,
    /// Memory ran out.
    Memory,
}

impl From<Memory> for RowFault {
    ghost use Rattle.std.specs.Prelude.{◌≡◌};
    ghost use Rattle.stencil_factory.specs.declared.row_fault.RowFault.TheVariants as fault;

    ghost from_gives = { λ _ e. e ≡ fault.Memory };

    fn from(_: Memory) -> RowFault {
        RowFault::Memory
    }
}
