//! The denominators and faces that the terms of a mask use.

ghost use Rattle.std.specs.Prelude.{◌≡◌, ℕ, [], ◌∷◌, length, map};
ghost use Rattle.std.specs.List.{All};
ghost use Rattle.subdiv_model.specs.Mask.{SourcePoint};
ghost use Rattle.subdiv_model.specs.Multiples.{lcm_of_all};
ghost use Rattle.mask_rules.specs.View.{source_of, term_of, terms_of};
ghost use Rattle.child_masks.specs.Survey.{within_bound};
ghost use Rattle.child_masks.specs.Found.{IsAmong, IsFaceAmong, HaveDenominators, AreMarked};

use crate::common::common_multiple;
use mask_rules::{At, Term};

// Returns the denominator of a source, from those of the points and of the new points of the faces.
fn denominator_at(at: At, dens: &[u128], faces: &[u128]) -> u128
    requires { IsAmong (length dens.now) (length faces.now) (source_of at) }
    ensures { (denominator : SourcePoint → ℕ) → HaveDenominators denominator dens.now faces.now → result ≡ within_bound (denominator (source_of at)) }
{
    match at {
        At::Point(v) => dens[v as usize],
        At::FacePoint(f) => faces[f as usize],
    }
}

/// Returns the least common multiple of the denominators of all sources.
pub(crate) fn multiple_of_terms(terms: &[Term], dens: &[u128], faces: &[u128]) -> u128
    requires { All (λ t. IsAmong (length dens.now) (length faces.now) (source_of t.at)) terms.now }
    ensures { (denominator : SourcePoint → ℕ) → HaveDenominators denominator dens.now faces.now
        → result ≡ within_bound (lcm_of_all (map (λ t. denominator t.source) (terms_of terms.now))) }
{
    let mut multiple = 1;
    for term in terms {
        multiple = common_multiple(multiple, denominator_at(term.at, dens, faces));
    }
    multiple
}

// Marks the face that a term uses.
fn mark_face(named: &mut [bool], term: &Term)
    requires { IsFaceAmong (length named.old) (source_of term.now.at) }
    ensures { AreMarked named.old (term_of term.now ∷ []) named.new }
{
    if let At::FacePoint(f) = term.at {
        named[f as usize] = true;
    }
}

/// Marks each face that a term uses.
pub(crate) fn mark_faces(named: &mut [bool], terms: &[Term])
    requires { All (λ t. IsFaceAmong (length named.old) (source_of t.at)) terms.now }
    ensures { AreMarked named.old (terms_of terms.now) named.new }
{
    for term in terms {
        mark_face(named, term);
    }
}
