//! The faults of `compose_level`.

use ratio128::Memory;

/// The fault that kept [`compose_level`](crate::compose_level) from a table.
///
/// A later variant is only reported if the whole level has none of the earlier faults. `Memory` can occur at any time.
#[derive(Clone, Copy, Debug, PartialEq, Eq)]
pub enum TableFault {
    /// At a vertex of the parent, the weight between the rules of two levels has a denominator above 2^60. `point` is the least such
    /// vertex among those with a child point.
    Transition { point: u32 },
    /// The common denominator of a child point is above 2^126 - 1. `point` is the least such point of the child.
    Denominator { point: u32 },
    /// The rows of the child would have more than 2^27 entries together.
    TooManyEntries,
    /// Memory ran out.
    Memory,
}

impl From<Memory> for TableFault {
    ghost use Rattle.std.specs.Prelude.{◌≡◌};
    ghost use Rattle.stencil_factory.specs.declared.fault.TableFault.TheVariants as fault;

    ghost from_gives = { λ _ e. e ≡ fault.Memory };

    fn from(_: Memory) -> TableFault {
        TableFault::Memory
    }
}
