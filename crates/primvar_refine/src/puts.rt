//! Values written to their places in the new list.

ghost use Rattle.std.specs.Prelude.{◌≡◌, ◌+◌, ◌<◌, [], length};
ghost use Rattle.subdiv_model.specs.Mask.{face_mask};
ghost use Rattle.primvar_refine.specs.Rows.{row_at};
ghost use Rattle.primvar_refine.specs.View.{rows_of};
ghost use Rattle.primvar_refine.specs.Made.{IsPut, IsMade, CanMake};

use crate::Valued;
use crate::mask_values::face_value;
use crate::sums::SumStart;
use level_topology::Level;
use ratio128::{Primvar, Steps};
use std::sync::ledger::Ledger;

/// Returns the denominator at a place.
pub(crate) fn den_at<P: Primvar<L>, L: Ledger>(made: &[Valued<P>], p: usize) -> u128
    requires { p < length made.now }
    ensures { result ≡ (row_at (rows_of P.numbers made.now) p).den }
{
    made[p].den
}

/// Writes a value over the denominator at its place.
pub(crate) fn put_value<P: Primvar<L>, L: Ledger>(made: &mut [Valued<P>], p: usize, value: P)
    requires { p < length made.old }
    ensures put { IsPut (rows_of P.numbers made.old) p (rows_of P.numbers made.new) }
    ensures there { row_at (rows_of P.numbers made.new) p ≡ record { numbers = P.numbers value; den = (row_at (rows_of P.numbers made.old) p).den } }
{
    made[p].value = value;
}

/// Writes the value of the new point of a face.
pub(crate) fn put_face<P: Primvar<L>, L: Ledger>(
    parent: &Level,
    f: u32,
    p: usize,
    values: &[Valued<P>],
    start: &SumStart<'_, P>,
    made: &mut [Valued<P>],
    steps: &mut Steps<L>,
)
    requires known { f < length parent.now.level.polygons }
    requires inside { p < length made.old }
    requires can { CanMake start.now.width parent.now.level (rows_of P.numbers values.now) [] [] (face_mask parent.now.level f) (row_at (rows_of P.numbers made.old) p).den }
    requires alike { length (P.numbers start.now.zero.now) ≡ length (row_at (rows_of P.numbers values.now) 0).numbers }
    ensures put { IsPut (rows_of P.numbers made.old) p (rows_of P.numbers made.new) }
    ensures made { IsMade parent.now.level (rows_of P.numbers values.now) (face_mask parent.now.level f) (row_at (rows_of P.numbers made.new) p) }
    ensures steps { steps.new ≡ steps.old + length (face_mask parent.now.level f).terms }
{
    let den = den_at(made, p);
    let value = face_value(parent, f, den, values, start, steps);
    put_value(made, p, value);
}
