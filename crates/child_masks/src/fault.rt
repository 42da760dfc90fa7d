//! The fault that keeps child points from masks.

use ratio128::Memory;

/// The fault that keeps the child points of a level from masks, or from common denominators within the bound.
#[derive(Clone, Copy, Debug, PartialEq, Eq)]
pub enum SurveyFault {
    /// At this vertex of the parent, the weight between the rules of two levels has a denominator above 2^60.
    Transition(u32),
    /// The common denominator of this child point is above 2^126 - 1.
    Denominator(u32),
    /// Memory ran out.
    Memory,
}

impl From<Memory> for SurveyFault {
    ghost use Rattle.std.specs.Prelude.{◌≡◌};
    ghost use Rattle.child_masks.specs.declared.fault.SurveyFault.TheVariants as fault;

    ghost from_gives = { λ _ e. e ≡ fault.Memory };

    fn from(_: Memory) -> SurveyFault {
        SurveyFault::Memory
    }
}
