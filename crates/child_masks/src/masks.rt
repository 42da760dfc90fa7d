//! The mask of a child point.

ghost use Rattle.std.specs.Prelude.{◌≡◌};
ghost use Rattle.mask_rules.specs.View.{terms_of};
ghost use Rattle.child_masks.specs.View.{seen_terms};

use crate::kept::KeptMask;
use mask_rules::{MadeMask, Term};

/// The mask of a child point.
#[derive(Drop)]
pub enum PointMask<'a> {
    /// The mean of the corners of this face of the parent, for a point that comes from the face.
    Corners(u32),
    /// The mask of a vertex or an edge of the parent, for a point that comes from it.
    Terms(TermMask<'a>),
}

/// The mask of a vertex or an edge.
#[derive(Drop)]
pub enum TermMask<'a> {
    /// The mask is the last one that was made in `made`.
    Made,
    /// The mask is a kept one.
    Kept(KeptMask<'a>),
}

impl TermMask<'_> {
    /// Returns the terms; `made` must contain the last mask that was made. Each source occurs once, with a weight above 0.
    pub fn terms<'b>(&'b self, made: &'b MadeMask) -> &'b [Term]
        ensures { terms_of result.now ≡ (seen_terms made.now self.now).terms }
    {
        match self {
            TermMask::Made => made.terms(),
            TermMask::Kept(mask) => mask.terms(),
        }
    }

    /// Returns the denominator, which is the sum of the weights; `made` must contain the last mask that was made.
    pub fn denominator(&self, made: &MadeMask) -> u128
        ensures { result ≡ (seen_terms made.now self.now).denominator }
    {
        match self {
            TermMask::Made => made.denominator(),
            TermMask::Kept(mask) => mask.denominator(),
        }
    }
}
