//! The values of the new points of faces.

ghost use Rattle.std.specs.Prelude.{◌≡◌, ◌+◌, ◌<◌, [], length};
ghost use Rattle.subdiv_model.specs.Mask.{face_mask};
ghost use Rattle.primvar_refine.specs.Rows.{row_at};
ghost use Rattle.primvar_refine.specs.View.{rows_of};
ghost use Rattle.primvar_refine.specs.Made.{IsMade, CanMake};

use crate::Valued;
use crate::sums::{SumStart, sum_of_corners};
use level_topology::Level;
use mask_rules::face_mask;
use ratio128::{Primvar, Steps, quotient};
use std::sync::ledger::Ledger;

/// Returns the value of the new point of a face over its common denominator.
pub(crate) fn face_value<P: Primvar<L>, L: Ledger>(
    parent: &Level,
    f: u32,
    den: u128,
    values: &[Valued<P>],
    start: &SumStart<'_, P>,
    steps: &mut Steps<L>,
) -> P
    requires known { f < length parent.now.level.polygons }
    requires can { CanMake start.now.width parent.now.level (rows_of P.numbers values.now) [] [] (face_mask parent.now.level f) den }
    requires alike { length (P.numbers start.now.zero.now) ≡ length (row_at (rows_of P.numbers values.now) 0).numbers }
    ensures made { IsMade parent.now.level (rows_of P.numbers values.now) (face_mask parent.now.level f) (record { numbers = P.numbers result; den = den }) }
    ensures steps { steps.new ≡ steps.old + length (face_mask parent.now.level f).terms }
{
    let mask = face_mask(parent, f);
    let corners = parent.face_vertices(f);
    let multiple = quotient(den, mask.size() as u128);
    sum_of_corners(corners, multiple, values, start, steps)
}
