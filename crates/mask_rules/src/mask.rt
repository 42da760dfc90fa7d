//! The parts of a mask.

ghost use Rattle.std.specs.Prelude.{Some};
ghost use Rattle.mask_rules.specs.FaultText.{fault_text};

use ratio128::Memory;
use std::fmt;

/// The scheme that refines a level.
#[derive(Clone, Copy, Debug, PartialEq, Eq)]
pub enum Scheme {
    /// Catmull and Clark's scheme: edges and vertices move by their sharpness.
    CatmullClark,
    /// The linear scheme: a vertex keeps its place, and an edge gets its middle point.
    Linear,
}

/// The source of a term, numbered from 0.
#[derive(Clone, Copy, Debug, PartialEq, Eq)]
pub enum At {
    /// A point of the level.
    Point(u32),
    /// The new point of a face of the level.
    FacePoint(u32),
}

/// A source and its whole weight.
#[derive(Clone, Copy, Debug, PartialEq, Eq)]
pub struct Term {
    /// The source.
    pub at: At,
    /// The weight, over the denominator of the mask.
    pub weight: u128,
}

/// The fault that keeps a vertex from a mask.
#[derive(Clone, Copy, Debug, PartialEq, Eq)]
pub enum MaskFault {
    /// The weight between the masks of two levels has a denominator above 2^60.
    Transition,
    /// Memory ran out.
    Memory,
}

impl From<Memory> for MaskFault {
    ghost use Rattle.std.specs.Prelude.{◌≡◌};
    ghost use Rattle.mask_rules.specs.declared.mask.MaskFault.TheVariants as fault;

    ghost from_gives = { λ _ e. e ≡ fault.Memory };

    fn from(_: Memory) -> MaskFault {
        MaskFault::Memory
    }
}

impl fmt::Display for MaskFault {
    ghost output = { λ fault. Some (fault_text fault) };

    fn fmt<W: fmt::Write>(&self, f: &mut fmt::Formatter<W>) -> fmt::Result {
        match *self {
            MaskFault::Transition => f.write_str("a denominator passes 2^60"),
            MaskFault::Memory => f.write_str("out of memory"),
        }
    }
}

impl std::error::Error for MaskFault {}

impl Default for Term {
    fn default() -> Term {
        Term {
            at: At::Point(0),
            weight: 0,
        }
    }
}
