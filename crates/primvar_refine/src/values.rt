//! The values of a level's points, after a survey without a fault.

ghost use Rattle.std.specs.Prelude.{◌≡◌, ◌+◌, ◌*◌, ◌<◌, ◌≤◌, ◌++◌, ◌∷◌, [], length, map, get_or, IfOk, OnOk};
ghost use Rattle.std.specs.List.{All};
ghost use Rattle.std.specs.Vec.{vec_capacity};
ghost use Rattle.mask_rules.specs.View.{scheme_of};
ghost use Rattle.primvar_refine.specs.Rows.{dens_of, row_at, AreGood};
ghost use Rattle.primvar_refine.specs.View.{rows_of};
ghost use Rattle.primvar_refine.specs.Width.{HasSums};
ghost use Rattle.child_masks.specs.Masks.{CanRefine, step_terms};
ghost use Rattle.primvar_refine.specs.Step.{AreRefined};
ghost use Rattle.child_masks.specs.Survey.{IsSurvey};
ghost use Rattle.child_masks.specs.MaskOf.{AreKeptFor};
ghost use Rattle.primvar_refine.specs.Made.{KeepDens};
ghost use Rattle.primvar_refine.specs.Ready.{IsReadyFor, AreAllMade, all_terms};

use crate::Valued;
use crate::face_puts::{put_faces, put_hidden};
use crate::places::{Places, find_places};
use crate::point_puts::put_points;
use crate::sums::SumStart;
use child_masks::Survey;
use level_topology::{Child, Level};
use mask_rules::Scheme;
use ratio128::{Memory, Primvar, Steps};
use std::alloc::Global;
use std::sync::ledger::Ledger;

// Adds a zero over a denominator, in reserved memory.
fn push_zero<P: Primvar<L>, L: Ledger>(made: &mut Vec<Valued<P>>, zero: &P, den: u128)
    requires { length made.old.items < vec_capacity made.old }
    ensures dens { dens_of (rows_of P.numbers made.new.items) ≡ dens_of (rows_of P.numbers made.old.items) ++ den ∷ [] }
    ensures count { length made.new.items ≡ length made.old.items + 1 }
    ensures capacity { vec_capacity made.new ≡ vec_capacity made.old }
{
    made.push_reserved(Valued {
        value: zero.cleared(),
        den,
    });
}

// Adds a zero over its denominator for each hidden face, in reserved memory.
fn push_hidden<P: Primvar<L>, L: Ledger>(
    made: &mut Vec<Valued<P>>,
    zero: &P,
    dens: &[u128],
    hidden: &[u32],
)
    requires known { All (λ f. f < length dens.now) hidden.now }
    requires fits { length made.old.items + length hidden.now ≤ vec_capacity made.old }
    ensures { dens_of (rows_of P.numbers made.new.items) ≡ dens_of (rows_of P.numbers made.old.items) ++ map (λ f. get_or dens.now f 0) hidden.now }
{
    for f in hidden {
        push_zero(made, zero, dens[*f as usize]);
    }
}

// Returns a zero over its denominator for each child point, then for each hidden face.
fn zeros<P: Primvar<L>, L: Ledger>(
    alloc: Global,
    zero: &P,
    dens: &[u128],
    of_faces: &[u128],
    hidden: &[u32],
) -> Result<Vec<Valued<P>>, Memory>
    requires { All (λ f. f < length of_faces.now) hidden.now }
    ensures { IfOk result (λ made. dens_of (rows_of P.numbers made.items) ≡ dens.now ++ map (λ f. get_or of_faces.now f 0) hidden.now) }
{
    let mut made = Vec::with_capacity(alloc, dens.len() + hidden.len())?;
    for den in dens {
        push_zero(&mut made, zero, *den);
    }
    push_hidden(&mut made, zero, of_faces, hidden);
    Ok(made)
}

// Writes the value of each place of the list, first those of faces.
fn put_all<P: Primvar<L>, L: Ledger>(
    parent: &Level,
    child: &Child,
    scheme: Scheme,
    survey: &Survey,
    places: &Places,
    values: &[Valued<P>],
    start: &SumStart<'_, P>,
    made: &mut [Valued<P>],
    steps: &mut Steps<L>,
)
    requires ready { IsReadyFor start.now.width parent.now child.now (scheme_of scheme) (rows_of P.numbers values.now) survey.now places.now (rows_of P.numbers made.old) }
    requires masks { AreKeptFor parent.now (scheme_of scheme) child.now.origins survey.now.masks }
    requires alike { length (P.numbers start.now.zero.now) ≡ length (row_at (rows_of P.numbers values.now) 0).numbers }
    ensures dens { KeepDens (rows_of P.numbers made.old) (rows_of P.numbers made.new) }
    ensures made { AreAllMade parent.now child.now (scheme_of scheme) (rows_of P.numbers values.now) places.now.hidden.items (rows_of P.numbers made.new) }
    ensures steps { steps.new ≡ steps.old + all_terms parent.now child.now (scheme_of scheme) places.now.hidden.items }
{
    parent.facts();
    child.facts();
    let first = child.level().points() as usize;
    put_faces(parent, child, values, start, made, steps);
    put_hidden(parent, &places.hidden, first, values, start, made, steps);
    put_points(
        parent, child, scheme, survey, places, values, start, made, steps,
    );
}

/// Returns the values of the points of a child, after a survey without a fault. The zero has as many numbers as each value.
/// Each mask term is one step, and so is each corner of a hidden face. Reports `Memory` where memory runs out.
pub(crate) fn make_values<P: Primvar<L>, L: Ledger>(
    alloc: Global,
    parent: &Level,
    child: &Child,
    values: &[Valued<P>],
    start: &SumStart<'_, P>,
    scheme: Scheme,
    survey: &Survey,
    steps: &mut Steps<L>,
) -> Result<Vec<Valued<P>>, Memory>
    requires child { CanRefine parent.now child.now (scheme_of scheme) }
    requires each { length values.now ≡ parent.now.level.point_count }
    requires good { AreGood (rows_of P.numbers values.now) }
    requires alike { length (P.numbers start.now.zero.now) ≡ length (row_at (rows_of P.numbers values.now) 0).numbers }
    requires survey { IsSurvey parent.now (scheme_of scheme) child.now.origins (dens_of (rows_of P.numbers values.now)) survey.now }
    requires sums { HasSums start.now.width survey.now.dens.items (rows_of P.numbers values.now) }
    ensures refined { IfOk result (λ refined. AreRefined parent.now.level (scheme_of scheme) child.now.origins (rows_of P.numbers values.now) (rows_of P.numbers refined.items)) }
    ensures taken { OnOk result (steps.new ≡ steps.old + step_terms parent.now.level (scheme_of scheme) child.now.origins) }
    ensures steps { steps.new ≤ steps.old + step_terms parent.now.level (scheme_of scheme) child.now.origins }
    ensures later { steps.old ≤ steps.new }
{
    parent.facts();
    child.facts();
    let places = find_places(alloc, child, survey)?;
    let mut made = zeros(
        alloc,
        start.zero,
        &survey.dens,
        &survey.faces,
        &places.hidden,
    )?;
    put_all(
        parent, child, scheme, survey, &places, values, start, &mut made, steps,
    );
    made.truncate(survey.dens.len());
    Ok(made)
}
