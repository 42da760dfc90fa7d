//! Gives a child point as weights of the level's points.

ghost use Rattle.std.specs.Prelude.{◌≡◌, ◌<◌, ◌≤◌, length, get_or, replicate};
ghost use Rattle.subdiv_model.specs.Mask.{face_mask};
ghost use Rattle.subdiv_model.specs.Refined.{mask_denominator, source_denominator};
ghost use Rattle.subdiv_model.specs.Channel.{number_bound};
ghost use Rattle.level_topology.specs.Child.{FromVertex};
ghost use Rattle.mask_rules.specs.View.{scheme_of};
ghost use Rattle.child_masks.specs.Masks.{CanRefine, mask_from};
ghost use Rattle.child_masks.specs.Survey.{IsSurvey};
ghost use Rattle.child_masks.specs.Found.{ArePointDenominators};
ghost use Rattle.stencil_factory.specs.Flat.{IsWeighed};

use crate::flat::{add_corners, add_terms};
use child_masks::{PointMask, Survey};
use level_topology::{Child, Level};
use mask_rules::{MadeMask, Scheme, face_mask};
use number_width::Natural;
use place_sums::PlaceSums;
use ratio128::quotient;

// Adds the weights of the face point of face `f`: one weight for each corner.
fn weigh_face<T: Natural>(parent: &Level, f: u32, den: u128, dens: &[u128], sums: &mut PlaceSums<T>)
    requires known { f < length parent.now.level.polygons }
    requires dens { ArePointDenominators parent.now.level dens.now }
    requires den { den ≡ mask_denominator (source_denominator parent.now.level dens.now) (face_mask parent.now.level f) }
    requires short { den ≤ number_bound }
    requires fits { den ≤ T.most }
    requires clear { sums.old ≡ replicate parent.now.level.point_count 0 }
    ensures { IsWeighed parent.now.level dens.now (face_mask parent.now.level f) sums.new }
{
    parent.facts();
    let mask = face_mask(parent, f);
    let multiple = quotient(den, mask.size() as u128);
    add_corners(sums, parent.face_vertices(f), 1, multiple, dens);
}

/// Adds the weights of child point `p` to `sums`, which has a 0 for each point of the level. `den` is the common denominator of
/// the child point, and `dens` are the denominators of the level's points. Each weight is the factor for the row of its point.
pub(crate) fn weigh_mask<T: Natural>(
    parent: &Level,
    child: &Child,
    p: u32,
    scheme: Scheme,
    survey: &Survey,
    den: u128,
    made: &mut MadeMask,
    dens: &[u128],
    sums: &mut PlaceSums<T>,
)
    requires child { CanRefine parent.now child.now (scheme_of scheme) }
    requires known { p < length child.now.origins }
    requires dens { ArePointDenominators parent.now.level dens.now }
    requires survey { IsSurvey parent.now (scheme_of scheme) child.now.origins dens.now survey.now }
    requires den { den ≡ mask_denominator (source_denominator parent.now.level dens.now) (mask_from parent.now.level (scheme_of scheme) (get_or child.now.origins p (FromVertex 0))) }
    requires short { den ≤ number_bound }
    requires fits { den ≤ T.most }
    requires clear { sums.old ≡ replicate parent.now.level.point_count 0 }
    ensures { IsWeighed parent.now.level dens.now (mask_from parent.now.level (scheme_of scheme) (get_or child.now.origins p (FromVertex 0))) sums.new }
{
    parent.facts();
    child.facts();
    match survey.mask(parent, child, p, scheme, made) {
        PointMask::Corners(f) => weigh_face(parent, f, den, dens, sums),
        PointMask::Terms(mask) => {
            let multiple = quotient(den, mask.denominator(made));
            add_terms(
                sums,
                parent,
                mask.terms(made),
                multiple,
                dens,
                &survey.faces,
            );
        }
    }
}
