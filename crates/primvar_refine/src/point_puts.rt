//! The values of the child points that come from vertices and edges.

ghost use Rattle.std.specs.Prelude.{◌≡◌, ◌+◌, ◌<◌, true, length};
ghost use Rattle.std.specs.List.{sum_by};
ghost use Rattle.mask_rules.specs.View.{scheme_of};
ghost use Rattle.child_masks.specs.Masks.{origin_at, is_from_face, CanRefine};
ghost use Rattle.child_masks.specs.MaskOf.{AreKeptFor};
ghost use Rattle.primvar_refine.specs.Rows.{row_at};
ghost use Rattle.primvar_refine.specs.View.{rows_of};
ghost use Rattle.primvar_refine.specs.Made.{CanMakePoint, IsPut, IsOtherMade, KeepDens, AreAllFacesMade, AreOthersMade, terms_of_other};
ghost use Rattle.primvar_refine.specs.Places.{all_origins};
ghost use Rattle.primvar_refine.specs.Ready.{IsReadyFor};

use crate::Valued;
use crate::places::Places;
use crate::puts::{den_at, put_value};
use crate::sums::{SumStart, sum_of_terms};
use child_masks::{PointMask, Survey};
use level_topology::{Child, Level};
use mask_rules::{MadeMask, Scheme};
use ratio128::{Primvar, Steps, quotient};
use std::sync::ledger::Ledger;

// Writes the value of a child point, unless it comes from a face.
fn put_point<P: Primvar<L>, L: Ledger>(
    parent: &Level,
    child: &Child,
    p: u32,
    scheme: Scheme,
    survey: &Survey,
    made_mask: &mut MadeMask,
    places: &[u32],
    values: &[Valued<P>],
    start: &SumStart<'_, P>,
    made: &mut [Valued<P>],
    steps: &mut Steps<L>,
)
    requires child { CanRefine parent.now child.now (scheme_of scheme) }
    requires known { p < length child.now.origins }
    requires masks { AreKeptFor parent.now (scheme_of scheme) child.now.origins survey.now.masks }
    requires inside { p < length made.old }
    requires can { CanMakePoint start.now.width parent.now.level (scheme_of scheme) (rows_of P.numbers values.now) child.now.origins places.now
        (rows_of P.numbers made.old) p }
    requires alike { length (P.numbers start.now.zero.now) ≡ length (row_at (rows_of P.numbers values.now) 0).numbers }
    ensures put { IsPut (rows_of P.numbers made.old) p (rows_of P.numbers made.new) }
    ensures same { is_from_face (origin_at child.now.origins p) ≡ true → made.new ≡ made.old }
    ensures made { IsOtherMade parent.now.level (scheme_of scheme) (rows_of P.numbers values.now) child.now.origins (rows_of P.numbers made.new) p }
    ensures steps { steps.new ≡ steps.old + terms_of_other parent.now.level (scheme_of scheme) (origin_at child.now.origins p) }
{
    match survey.mask(parent, child, p, scheme, made_mask) {
        PointMask::Corners(_) => {}
        PointMask::Terms(mask) => {
            let den = den_at(made, p as usize);
            let multiple = quotient(den, mask.denominator(made_mask));
            let terms = mask.terms(made_mask);
            let value = sum_of_terms(terms, multiple, values, made, places, start, steps);
            put_value(made, p as usize, value);
        }
    }
}

/// Writes the value of each child point that comes from a vertex or an edge.
pub(crate) fn put_points<P: Primvar<L>, L: Ledger>(
    parent: &Level,
    child: &Child,
    scheme: Scheme,
    survey: &Survey,
    places: &Places,
    values: &[Valued<P>],
    start: &SumStart<'_, P>,
    made: &mut [Valued<P>],
    steps: &mut Steps<L>,
)
    requires ready { IsReadyFor start.now.width parent.now child.now (scheme_of scheme) (rows_of P.numbers values.now) survey.now places.now (rows_of P.numbers made.old) }
    requires masks { AreKeptFor parent.now (scheme_of scheme) child.now.origins survey.now.masks }
    requires faces { AreAllFacesMade parent.now.level (rows_of P.numbers values.now) (all_origins child.now.origins places.now.hidden.items) (rows_of P.numbers made.old) }
    requires alike { length (P.numbers start.now.zero.now) ≡ length (row_at (rows_of P.numbers values.now) 0).numbers }
    ensures dens { KeepDens (rows_of P.numbers made.old) (rows_of P.numbers made.new) }
    ensures faces { AreAllFacesMade parent.now.level (rows_of P.numbers values.now) (all_origins child.now.origins places.now.hidden.items) (rows_of P.numbers made.new) }
    ensures made { AreOthersMade parent.now.level (scheme_of scheme) (rows_of P.numbers values.now) child.now.origins (length child.now.origins) (rows_of P.numbers made.new) }
    ensures steps { steps.new ≡ steps.old + sum_by (terms_of_other parent.now.level (scheme_of scheme)) child.now.origins }
{
    parent.facts();
    child.facts();
    let mut made_mask = MadeMask::new();
    for p in 0..child.level().points() {
        put_point(
            parent,
            child,
            p,
            scheme,
            survey,
            &mut made_mask,
            &places.of_faces,
            values,
            start,
            made,
            steps,
        );
    }
}
