//! Finds the points of a level that the mask of a child point names. A face point names the corners of its face.

ghost use Rattle.std.specs.Prelude.{◌≡◌, ◌+◌, ◌^◌, ◌<◌, length, get_or, OnOk};
ghost use Rattle.std.specs.List.{AllByRecursion};
ghost use Rattle.level_topology.specs.Child.{FromVertex};
ghost use Rattle.mask_rules.specs.View.{scheme_of, source_of, terms_of};
ghost use Rattle.child_masks.specs.Masks.{CanRefine, mask_from};
ghost use Rattle.child_masks.specs.MaskOf.{AreKeptFor};
ghost use Rattle.stencil_factory.specs.PlaceSet.{with_places};
ghost use Rattle.stencil_factory.specs.Named.{points_of, with_terms, CanName, CanNameTerm, AreNamed};

use crate::place_set::PlaceSet;
use child_masks::{PointMask, Survey};
use level_topology::{Child, Level};
use mask_rules::{At, MadeMask, Scheme, Term};
use ratio128::Memory;

// Adds the points that a term names to the set.
fn name_term(members: &mut PlaceSet, parent: &Level, term: &Term) -> Result<(), Memory>
    requires { CanName parent.now.level members.old.count (source_of term.now.at) }
    ensures { OnOk result (members.new ≡ with_places (points_of parent.now.level (source_of term.now.at)) members.old) }
{
    match term.at {
        At::Point(v) => members.add(v),
        At::FacePoint(f) => members.add_all(parent.face_vertices(f)),
    }
}

// Adds the points that the terms name to the set.
fn name_terms(members: &mut PlaceSet, parent: &Level, terms: &[Term]) -> Result<(), Memory>
    requires { AllByRecursion (CanNameTerm parent.now.level members.old.count) (terms_of terms.now) }
    ensures { OnOk result (members.new ≡ with_terms parent.now.level (terms_of terms.now) members.old) }
{
    let mut rest = terms;
    while let [term, others @ ..] = rest {
        name_term(members, parent, term)?;
        rest = others;
    }
    Ok(())
}

/// Empties the set, then adds the points of the level that the mask of child point `p` names.
pub(crate) fn name_point(
    parent: &Level,
    child: &Child,
    p: u32,
    scheme: Scheme,
    survey: &Survey,
    made: &mut MadeMask,
    members: &mut PlaceSet,
) -> Result<(), Memory>
    requires child { CanRefine parent.now child.now (scheme_of scheme) }
    requires known { p < length child.now.origins }
    requires masks { AreKeptFor parent.now (scheme_of scheme) child.now.origins survey.now.masks }
    requires count { members.old.count ≡ parent.now.level.point_count }
    requires mark { members.old.mark + 1 < 2 ^ 32 }
    ensures { OnOk result (AreNamed parent.now.level (mask_from parent.now.level (scheme_of scheme) (get_or child.now.origins p (FromVertex 0))) (members.old.mark + 1) members.new) }
{
    parent.facts();
    child.facts();
    members.start();
    match survey.mask(parent, child, p, scheme, made) {
        PointMask::Corners(f) => members.add_all(parent.face_vertices(f)),
        PointMask::Terms(mask) => name_terms(members, parent, mask.terms(made)),
    }
}
