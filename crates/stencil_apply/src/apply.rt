//! The evaluation of a stencil table.

ghost use Rattle.std.specs.Prelude.{◌≡◌, ℕ, ◌+◌, ◌-◌, ◌*◌, ◌<◌, ◌≤◌, length, map, slice_index_or, nat_le};
ghost use Rattle.std.specs.List.{All, zip};
ghost use Rattle.subdiv_model.specs.Channel.{number_bound};
ghost use Rattle.ratio128.specs.Numbers.{zeros, greatest_amount};
ghost use Rattle.stencil_apply.specs.Table.{row_at, entries_of, greatest_of, rows_in, sum_of_shares, row_sum};
ghost use Rattle.number_width.specs.declared.width.Width.TheVariants.{Narrow};
ghost use Rattle.stencil_apply.specs.Means.{CanSum, CanSumNarrow, word_bound, sum_width_of};

use crate::table::StencilTable;
use number_width::{Natural, NumberSlice, Width};
use ratio128::limits::NUMBER_BOUND;
use ratio128::{Primvar, Steps, times_within};
use std::sync::ledger::Ledger;

/// Returns whether the greatest denominator times `greatest` is at most 2^126 - 1. [`apply_range`] needs this for each amount
/// in the controls.
pub fn scale_fits(table: &StencilTable, greatest: u128) -> bool
    ensures { result ≡ nat_le (greatest_of table.now * greatest) number_bound }
{
    times_within(table.greatest(), greatest, NUMBER_BOUND).is_some()
}

// The greatest signed 64-bit number.
const WORD_BOUND: u128 = (1 << 63) - 1;

/// Returns the width of sums over these controls, for [`sum_at`]. It is [`Width::Narrow`] exactly where the greatest
/// denominator times the greatest amount in the controls is at most 2^63 - 1. The amount counts as 1 if all numbers are 0.
/// The call visits each control once.
pub fn sum_width<P: Primvar<L>, L: Ledger>(table: &StencilTable, controls: &[P]) -> Width
    ensures width { result ≡ sum_width_of table.now (map P.numbers controls.now) }
    ensures narrow { result ≡ Narrow → CanSumNarrow table.now (map P.numbers controls.now) }
{
    let mut greatest: u128 = 1;
    for control in controls {
        greatest = greatest.max(control.greatest());
    }
    match times_within(table.greatest(), greatest, WORD_BOUND) {
        Some(_) => Width::Narrow,
        None => Width::Wide,
    }
}

// Returns the sum of a row in 64 bits. Each entry is one step.
fn sum_narrow<T: Natural, P: Primvar<L>, L: Ledger>(
    indices: &[u32],
    numerators: &[T],
    controls: &[P],
    like: &P,
    steps: &mut Steps<L>,
) -> P
    requires equal { length numerators.now ≡ length indices.now }
    requires fits { CanSum word_bound (zip indices.now (map T.value numerators.now)) (map P.numbers controls.now) }
    requires same_length { All (λ control. length (P.numbers control) ≡ length (P.numbers like.now)) controls.now }
    ensures sum { P.numbers result ≡ sum_of_shares (zeros (P.numbers like.now)) (map P.numbers controls.now) (zip indices.now (map T.value numerators.now)) }
    ensures steps { steps.new ≡ steps.old + length indices.now }
{
    let mut sum = like.cleared();
    for at in 0..indices.len() {
        let control = &controls[indices[at] as usize];
        sum.add_narrow(numerators[at].wide() as u64, control, steps);
    }
    sum
}

// Returns the sum of a row in 128 bits. Each entry is one step.
fn sum_wide<T: Natural, P: Primvar<L>, L: Ledger>(
    indices: &[u32],
    numerators: &[T],
    controls: &[P],
    like: &P,
    steps: &mut Steps<L>,
) -> P
    requires equal { length numerators.now ≡ length indices.now }
    requires fits { CanSum number_bound (zip indices.now (map T.value numerators.now)) (map P.numbers controls.now) }
    requires same_length { All (λ control. length (P.numbers control) ≡ length (P.numbers like.now)) controls.now }
    ensures sum { P.numbers result ≡ sum_of_shares (zeros (P.numbers like.now)) (map P.numbers controls.now) (zip indices.now (map T.value numerators.now)) }
    ensures steps { steps.new ≡ steps.old + length indices.now }
{
    let mut sum = like.cleared();
    for at in 0..indices.len() {
        let control = &controls[indices[at] as usize];
        sum.add_with_weight(numerators[at].wide() as i128, control, steps);
    }
    sum
}

// Returns the sum of a row's numerators times its controls, as long as `like`. Each entry is one step.
fn sum_row<T: Natural, P: Primvar<L>, L: Ledger>(
    indices: &[u32],
    numerators: &[T],
    controls: &[P],
    like: &P,
    width: Width,
    steps: &mut Steps<L>,
) -> P
    requires equal { length numerators.now ≡ length indices.now }
    requires fits { CanSum number_bound (zip indices.now (map T.value numerators.now)) (map P.numbers controls.now) }
    requires narrow { width ≡ Narrow → CanSum word_bound (zip indices.now (map T.value numerators.now)) (map P.numbers controls.now) }
    requires same_length { All (λ control. length (P.numbers control) ≡ length (P.numbers like.now)) controls.now }
    ensures sum { P.numbers result ≡ sum_of_shares (zeros (P.numbers like.now)) (map P.numbers controls.now) (zip indices.now (map T.value numerators.now)) }
    ensures steps { steps.new ≡ steps.old + length indices.now }
{
    match width {
        Width::Narrow => sum_narrow(indices, numerators, controls, like, steps),
        Width::Wide => sum_wide(indices, numerators, controls, like, steps),
    }
}

/// Returns the sum of row `row`, counted from 0: its numerators times the numbers of their controls. The sum is as long as
/// `like`, and each entry is one step. The call takes no memory.
///
/// There is a control for each control point of the table, all lists of one length. The greatest denominator of the table
/// times each amount in the controls is at most 2^126 - 1, which [`scale_fits`] tests. For [`Width::Narrow`] that product and
/// the greatest denominator must be at most 2^63 - 1; [`sum_width`] returns a width that fits.
pub fn sum_at<P: Primvar<L>, L: Ledger>(
    table: &StencilTable,
    row: u32,
    controls: &[P],
    like: &P,
    width: Width,
    steps: &mut Steps<L>,
) -> P
    requires inside { row < length table.now.rows }
    requires controls { length controls.now ≡ table.now.controls }
    requires same_length { All (λ control. length (P.numbers control) ≡ length (P.numbers like.now)) controls.now }
    requires fits { All (λ control. greatest_of table.now * greatest_amount (P.numbers control) ≤ number_bound) controls.now }
    requires narrow { width ≡ Narrow → CanSumNarrow table.now (map P.numbers controls.now) }
    ensures sum { P.numbers result ≡ row_sum table.now row (map P.numbers controls.now) (P.numbers like.now) }
    ensures steps { steps.new ≡ steps.old + length (row_at table.now row).shares }
{
    table.facts();
    let indices = table.row_indices(row);
    match table.row_numerators(row) {
        NumberSlice::Narrow(numerators) => sum_row(
            indices, numerators, controls, like, width, steps,
        ),
        NumberSlice::Wide(numerators) => sum_row(indices, numerators, controls, like, width, steps),
    }
}

// Returns the width of sums for this many rows. It reads the controls only if there are no more of them than rows.
fn range_width<P: Primvar<L>, L: Ledger>(table: &StencilTable, controls: &[P], rows: usize) -> Width
    ensures { result ≡ Narrow → CanSumNarrow table.now (map P.numbers controls.now) }
{
    if controls.len() <= rows {
        sum_width::<P, L>(table, controls)
    } else {
        Width::Wide
    }
}

/// Writes the sums of the rows from `from` to `to` - 1, counted from 0, to `out`. A sum is that of the row's numerators times
/// the numbers of their controls. Over the row's denominator it is the weighted mean of those controls. Each entry of these
/// rows is one step. The call takes no memory.
///
/// There is a control for each control point of the table and a place for each row of the range, all lists of one length. The
/// greatest denominator of the table times each amount in the controls is at most 2^126 - 1, which [`scale_fits`] tests.
pub fn apply_range<P: Primvar<L>, L: Ledger>(
    table: &StencilTable,
    controls: &[P],
    from: u32,
    to: u32,
    out: &mut [P],
    steps: &mut Steps<L>,
)
    requires controls { length controls.now ≡ table.now.controls }
    requires forward { from ≤ to }
    requires inside { to ≤ length table.now.rows }
    requires places { length out.old ≡ to - from }
    requires same_length { All (λ place. All (λ control. length (P.numbers control) ≡ length (P.numbers place)) controls.now) out.old }
    requires fits { All (λ control. greatest_of table.now * greatest_amount (P.numbers control) ≤ number_bound) controls.now }
    ensures sums { (k : ℕ) (d : P) → k < length out.old
        → P.numbers (slice_index_or out.new k d) ≡ row_sum table.now (from + k) (map P.numbers controls.now) (P.numbers (slice_index_or out.old k d)) }
    ensures len { length out.new ≡ length out.old }
    ensures steps { steps.new ≡ steps.old + entries_of (rows_in table.now from to) }
{
    let width = range_width::<P, L>(table, controls, out.len());
    for k in 0..out.len() {
        out[k] = sum_at(table, from + k as u32, controls, &out[k], width, steps);
    }
}
