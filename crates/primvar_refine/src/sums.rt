//! Weighted sums of values.

ghost use Rattle.std.specs.Prelude.{◌≡◌, ◌+◌, ◌*◌, ◌/◌, ◌<◌, ◌≤◌, pos, [], length};
ghost use Rattle.std.specs.List.{All};
ghost use Rattle.subdiv_model.specs.Mask.{weigh_points};
ghost use Rattle.subdiv_model.specs.Channel.{number_bound};
ghost use Rattle.ratio128.specs.Numbers.{plus_times, greatest_amount, zeros};
ghost use Rattle.mask_rules.specs.View.{source_of, terms_of};
ghost use Rattle.primvar_refine.specs.View.{row_of, rows_of};
ghost use Rattle.primvar_refine.specs.Width.{sum_bound};
ghost use Rattle.primvar_refine.specs.Sums.{source_row, HasRow, CanSumRows, term_sums};

use crate::Valued;
use mask_rules::{At, Term};
use number_width::Width;
use ratio128::{Primvar, Steps, quotient};
use std::sync::ledger::Ledger;

/// The start of each sum of a level: a list of zeros, and the width of the numbers.
#[derive(Drop)]
pub(crate) struct SumStart<'a, P> {
    pub(crate) zero: &'a P,
    pub(crate) width: Width,
}

// Returns a weight over a multiple of a denominator. It divides only if the two differ.
fn weight_over(weight: u128, multiple: u128, den: u128) -> u128
    requires positive { 0 < den }
    requires small { weight * (multiple / den) ≤ number_bound }
    ensures { result ≡ weight * (multiple / den) }
{
    if den == multiple {
        return weight;
    }
    weight * quotient(multiple, den)
}

// Adds a weighted value, with numbers over a multiple of its denominator, to a sum of a width.
fn add_over<P: Primvar<L>, L: Ledger>(
    sum: &mut P,
    width: Width,
    weight: u128,
    multiple: u128,
    source: &Valued<P>,
    steps: &mut Steps<L>,
)
    requires positive { 0 < source.now.den }
    requires same_length { length (P.numbers sum.old) ≡ length (P.numbers source.now.value) }
    requires some { 0 < weight * (multiple / source.now.den) }
    requires small { weight * (multiple / source.now.den) ≤ sum_bound width }
    requires fits { greatest_amount (P.numbers sum.old) + weight * (multiple / source.now.den) * greatest_amount (P.numbers source.now.value) ≤ sum_bound width }
    ensures added { P.numbers sum.new ≡ plus_times (pos (weight * (multiple / source.now.den))) (P.numbers sum.old) (P.numbers source.now.value) }
    ensures step { steps.new ≡ steps.old + 1 }
{
    let factor = weight_over(weight, multiple, source.den);
    match width {
        Width::Narrow => sum.add_narrow(factor as u64, &source.value, steps),
        Width::Wide => sum.add_with_weight(factor as i128, &source.value, steps),
    }
}

// Returns the value of a source: a point's own, or that at the place of a face.
fn source<'a, P: Primvar<L>, L: Ledger>(
    at: At,
    values: &'a [Valued<P>],
    made: &'a [Valued<P>],
    places: &[u32],
) -> &'a Valued<P>
    requires { HasRow (rows_of P.numbers values.now) (rows_of P.numbers made.now) places.now (source_of at) }
    ensures { row_of P.numbers result.now ≡ source_row (rows_of P.numbers values.now) (rows_of P.numbers made.now) places.now (source_of at) }
{
    match at {
        At::Point(v) => &values[v as usize],
        At::FacePoint(f) => &made[places[f as usize] as usize],
    }
}

/// Returns the sum of the terms over a multiple of the denominators of their sources. Each term is one step.
pub(crate) fn sum_of_terms<P: Primvar<L>, L: Ledger>(
    terms: &[Term],
    multiple: u128,
    values: &[Valued<P>],
    made: &[Valued<P>],
    places: &[u32],
    start: &SumStart<'_, P>,
    steps: &mut Steps<L>,
) -> P
    requires there { All (λ t. HasRow (rows_of P.numbers values.now) (rows_of P.numbers made.now) places.now (source_of t.at)) terms.now }
    requires can { CanSumRows start.now.width multiple (length (P.numbers start.now.zero.now)) (rows_of P.numbers values.now) (rows_of P.numbers made.now)
        places.now (terms_of terms.now) }
    ensures sum { P.numbers result ≡ term_sums multiple (source_row (rows_of P.numbers values.now) (rows_of P.numbers made.now) places.now)
        (zeros (P.numbers start.now.zero.now)) (terms_of terms.now) }
    ensures steps { steps.new ≡ steps.old + length terms.now }
{
    let width = start.width;
    let mut sum = start.zero.cleared();
    for term in terms {
        add_over(
            &mut sum,
            width,
            term.weight,
            multiple,
            source(term.at, values, made, places),
            steps,
        );
    }
    sum
}

/// Returns the sum of the corners of a face over a multiple of their denominators. Each corner is one step.
pub(crate) fn sum_of_corners<P: Primvar<L>, L: Ledger>(
    corners: &[u32],
    multiple: u128,
    values: &[Valued<P>],
    start: &SumStart<'_, P>,
    steps: &mut Steps<L>,
) -> P
    requires there { All (λ v. v < length values.now) corners.now }
    requires can { CanSumRows start.now.width multiple (length (P.numbers start.now.zero.now)) (rows_of P.numbers values.now) [] [] (weigh_points 1 corners.now) }
    ensures sum { P.numbers result ≡ term_sums multiple (source_row (rows_of P.numbers values.now) [] [])
        (zeros (P.numbers start.now.zero.now)) (weigh_points 1 corners.now) }
    ensures steps { steps.new ≡ steps.old + length corners.now }
{
    let width = start.width;
    let mut sum = start.zero.cleared();
    for v in corners {
        add_over(&mut sum, width, 1, multiple, &values[*v as usize], steps);
    }
    sum
}
