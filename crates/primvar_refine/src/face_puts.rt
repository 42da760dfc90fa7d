//! The values of the new points of faces: those with a child point, and the hidden ones.

ghost use Rattle.std.specs.Prelude.{◌≡◌, ℕ, ◌+◌, ◌<◌, ◌≤◌, length};
ghost use Rattle.std.specs.List.{All, sum_by};
ghost use Rattle.primvar_refine.specs.Rows.{row_at};
ghost use Rattle.primvar_refine.specs.View.{rows_of};
ghost use Rattle.primvar_refine.specs.Made.{CanMakeFaces, CanMakeHidden, AreFacesMade, AreHiddenMade, KeepDens, terms_of_face, terms_of_hidden};

use crate::Valued;
use crate::puts::put_face;
use crate::sums::SumStart;
use level_topology::{Child, Level, Origin};
use ratio128::{Primvar, Steps};
use std::sync::ledger::Ledger;

/// Writes the value of each child point that comes from a face.
pub(crate) fn put_faces<P: Primvar<L>, L: Ledger>(
    parent: &Level,
    child: &Child,
    values: &[Valued<P>],
    start: &SumStart<'_, P>,
    made: &mut [Valued<P>],
    steps: &mut Steps<L>,
)
    requires faces { length child.now.parent_sizes ≡ length parent.now.level.polygons }
    requires fits { length child.now.origins ≤ length made.old }
    requires can { CanMakeFaces start.now.width parent.now.level (rows_of P.numbers values.now) child.now.origins (rows_of P.numbers made.old) }
    requires alike { length (P.numbers start.now.zero.now) ≡ length (row_at (rows_of P.numbers values.now) 0).numbers }
    ensures dens { KeepDens (rows_of P.numbers made.old) (rows_of P.numbers made.new) }
    ensures made { AreFacesMade parent.now.level (rows_of P.numbers values.now) child.now.origins (length child.now.origins) (rows_of P.numbers made.new) }
    ensures steps { steps.new ≡ steps.old + sum_by (terms_of_face parent.now.level) child.now.origins }
{
    child.facts();
    for p in 0..child.level().points() {
        match child.origin(p) {
            Origin::Face(f) => put_face(parent, f, p as usize, values, start, made, steps),
            Origin::Vertex(_) | Origin::Edge(_) => {}
        }
    }
}

/// Writes the value of each hidden face, from the place `first` on.
pub(crate) fn put_hidden<P: Primvar<L>, L: Ledger>(
    parent: &Level,
    hidden: &[u32],
    first: usize,
    values: &[Valued<P>],
    start: &SumStart<'_, P>,
    made: &mut [Valued<P>],
    steps: &mut Steps<L>,
)
    requires known { All (λ f. f < length parent.now.level.polygons) hidden.now }
    requires len { first + length hidden.now ≡ length made.old }
    requires can { CanMakeHidden start.now.width parent.now.level (rows_of P.numbers values.now) first hidden.now (rows_of P.numbers made.old) }
    requires alike { length (P.numbers start.now.zero.now) ≡ length (row_at (rows_of P.numbers values.now) 0).numbers }
    ensures dens { KeepDens (rows_of P.numbers made.old) (rows_of P.numbers made.new) }
    ensures kept { (q : ℕ) → q < first → row_at (rows_of P.numbers made.new) q ≡ row_at (rows_of P.numbers made.old) q }
    ensures made { AreHiddenMade parent.now.level (rows_of P.numbers values.now) first hidden.now (length hidden.now) (rows_of P.numbers made.new) }
    ensures steps { steps.new ≡ steps.old + sum_by (terms_of_hidden parent.now.level) hidden.now }
{
    for i in 0..hidden.len() {
        put_face(parent, hidden[i], first + i, values, start, made, steps);
    }
}
