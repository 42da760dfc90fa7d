//! Adds the terms of a mask as weights of the level's points. A face point becomes equal weights of the corners of its face.

ghost use Rattle.std.specs.Prelude.{◌≡◌, ◌*◌, ◌/◌, ◌<◌, ◌≤◌, [], ◌∷◌, length, get_or};
ghost use Rattle.std.specs.List.{All, AllByRecursion};
ghost use Rattle.subdiv_model.specs.Channel.{number_bound};
ghost use Rattle.mask_rules.specs.View.{source_of, terms_of};
ghost use Rattle.child_masks.specs.Found.{ArePointDenominators};
ghost use Rattle.place_sums.specs.Sums.{added_at, added_shares};
ghost use Rattle.stencil_factory.specs.Flat.{corner_shares, source_shares, flat_shares, CanAddAll, CanWeigh, CanWeighTerm};

use level_topology::Level;
use mask_rules::{At, Term};
use number_width::Natural;
use place_sums::PlaceSums;
use ratio128::quotient;

/// Returns `weight * (multiple / den)`. It skips the division if `den` equals `multiple`.
pub(crate) fn weight_over(weight: u128, multiple: u128, den: u128) -> u128
    requires positive { 0 < den }
    requires small { weight * (multiple / den) ≤ number_bound }
    ensures { result ≡ weight * (multiple / den) }
{
    if den == multiple {
        return weight;
    }
    weight * quotient(multiple, den)
}

/// Adds `factor * (multiple / den)` at each corner, where `den` is the corner's denominator.
pub(crate) fn add_corners<T: Natural>(
    sums: &mut PlaceSums<T>,
    corners: &[u32],
    factor: u128,
    multiple: u128,
    dens: &[u128],
)
    requires within { All (λ v. v < length dens.now) corners.now }
    requires positive { All (λ den. 0 < den) dens.now }
    requires can { CanAddAll T.most (corner_shares dens.now factor multiple corners.now) sums.old }
    ensures { sums.new ≡ added_shares 1 (corner_shares dens.now factor multiple corners.now) sums.old }
{
    let mut rest = corners;
    while let [v, others @ ..] = rest {
        let amount = weight_over(factor, multiple, dens[*v as usize]);
        sums.add(*v, T::of(amount));
        rest = others;
    }
}

/// Adds `weight * (multiple / den)` at a point, where `den` is the point's denominator.
pub(crate) fn add_point<T: Natural>(
    sums: &mut PlaceSums<T>,
    point: u32,
    weight: u128,
    multiple: u128,
    dens: &[u128],
)
    requires known { point < length dens.now }
    requires positive { All (λ den. 0 < den) dens.now }
    requires can { CanAddAll T.most ((point, weight * (multiple / get_or dens.now point 1)) ∷ []) sums.old }
    ensures { sums.new ≡ added_at point (weight * (multiple / get_or dens.now point 1)) sums.old }
{
    let amount = weight_over(weight, multiple, dens[point as usize]);
    sums.add(point, T::of(amount));
}

// Adds one term of a mask, over `multiple`, a multiple of the denominator of the term's source.
fn add_term<T: Natural>(
    sums: &mut PlaceSums<T>,
    parent: &Level,
    term: &Term,
    multiple: u128,
    dens: &[u128],
    faces: &[u128],
)
    requires dens { ArePointDenominators parent.now.level dens.now }
    requires weigh { CanWeigh parent.now.level dens.now faces.now multiple term.now.weight (source_of term.now.at) }
    requires can { CanAddAll T.most (source_shares parent.now.level dens.now faces.now multiple term.now.weight (source_of term.now.at)) sums.old }
    ensures { sums.new ≡ added_shares 1 (source_shares parent.now.level dens.now faces.now multiple term.now.weight (source_of term.now.at)) sums.old }
{
    match term.at {
        At::Point(v) => {
            let amount = weight_over(term.weight, multiple, dens[v as usize]);
            sums.add(v, T::of(amount));
        }
        At::FacePoint(f) => {
            parent.facts();
            let corners = parent.face_vertices(f);
            let den = faces[f as usize];
            let factor = weight_over(term.weight, multiple, den);
            add_corners(
                sums,
                corners,
                factor,
                quotient(den, corners.len() as u128),
                dens,
            );
        }
    }
}

/// Adds all terms of a mask, over `multiple`, a common multiple of the denominators of their sources.
pub(crate) fn add_terms<T: Natural>(
    sums: &mut PlaceSums<T>,
    parent: &Level,
    terms: &[Term],
    multiple: u128,
    dens: &[u128],
    faces: &[u128],
)
    requires dens { ArePointDenominators parent.now.level dens.now }
    requires weigh { AllByRecursion (CanWeighTerm parent.now.level dens.now faces.now multiple) (terms_of terms.now) }
    requires can { CanAddAll T.most (flat_shares parent.now.level dens.now faces.now multiple (terms_of terms.now)) sums.old }
    ensures { sums.new ≡ added_shares 1 (flat_shares parent.now.level dens.now faces.now multiple (terms_of terms.now)) sums.old }
{
    let mut rest = terms;
    while let [term, others @ ..] = rest {
        add_term(sums, parent, term, multiple, dens, faces);
        rest = others;
    }
}
