//! A place in which short masks are made one after another, without memory.

ghost use Rattle.std.specs.Prelude.{◌≡◌, ◌<◌, [], ◌++◌, ◌∷◌, length};
ghost use Rattle.subdiv_model.specs.Mask.{weigh};
ghost use Rattle.mask_rules.specs.View.{source_of, terms_of};

use crate::mask::{At, Term};
use std::marker::Model;

/// A mask of at most 16 terms. Each `put_` call replaces the mask made before. Only the terms of the last mask are written.
#[derive(Drop)]
pub struct MadeMask {
    pub(crate) terms: [Term; 16],
    pub(crate) len: usize,
    pub(crate) denominator: u128,
}

impl Model for MadeMask {
    ghost use Rattle.std.specs.Prelude.{◌≤◌, take};
    ghost use Rattle.subdiv_model.specs.Mask.{Mask};
    ghost use Rattle.mask_rules.specs.View.{terms_of};

    ghost Value = { Mask };

    ghost view = { λ m. record { terms = terms_of (take m.len m.terms); denominator = m.denominator } };

    ghost invariant = { λ m. m.len ≤ 16 };
}

impl MadeMask {
    /// Returns an empty mask: no term, and the denominator 0.
    pub fn new() -> MadeMask
        ensures { result ≡ record { terms = []; denominator = 0 } }
    {
        MadeMask {
            terms: [Term::default(); 16],
            len: 0,
            denominator: 0,
        }
    }

    /// Returns the terms, in an order that no contract fixes. After a `put_` call each source occurs once, with a weight
    /// above 0.
    pub fn terms(&self) -> &[Term]
        ensures { terms_of result.now ≡ self.now.terms }
    {
        &self.terms[..self.len]
    }

    /// Returns the denominator, which is the sum of the weights.
    pub fn denominator(&self) -> u128
        ensures { result ≡ self.now.denominator }
    {
        self.denominator
    }

    // Removes all terms and sets the denominator.
    pub(crate) fn start(&mut self, denominator: u128)
        ensures { self.new ≡ record { terms = []; denominator = denominator } }
    {
        self.len = 0;
        self.denominator = denominator;
    }

    // Adds a term.
    pub(crate) fn put(&mut self, at: At, weight: u128)
        requires { length self.old.terms < 16 }
        ensures { self.new ≡ record { terms = self.old.terms ++ weigh weight (source_of at) ∷ []; denominator = self.old.denominator } }
    {
        self.terms[self.len] = Term { at, weight };
        self.len += 1;
    }
}
