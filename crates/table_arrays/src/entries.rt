//! The entries of a row.

ghost use Rattle.std.specs.Prelude.{◌≡◌, ◌≤◌, ◌<◌, true, length, nat_eq, IfOk, OnOk};
ghost use Rattle.subdiv_model.specs.Channel.{number_bound};
ghost use Rattle.subdiv_model.specs.ReadTable.{are_shares_in_range, is_term};
ghost use Rattle.subdiv_model.specs.Table.{total_of};
ghost use Rattle.stencil_apply.specs.Arrays.{row_of, shares_of};
ghost use Rattle.table_arrays.specs.Entries.{IsJudged, is_row};
ghost use Rattle.table_arrays.specs.Rows.{is_in_shape, share_range};

use crate::exact_rows::{ExactRows, denominator_of};
use ratio128::Memory;
use stencil_apply::Entry;

const NUMBER_LIMIT: u128 = (1 << 126) - 1;

// Copies the entries from one place up to another.
fn copy_entries(
    rows: &ExactRows,
    from: usize,
    to: usize,
    entries: &mut Vec<Entry>,
) -> Result<(), Memory>
    requires forward { from ≤ to }
    requires indices { to ≤ length rows.now.indices.now }
    requires numerators { to ≤ length rows.now.numerators.now }
    ensures { OnOk result (shares_of entries.new.items ≡ share_range rows.now from to) }
{
    entries.clear();
    for at in from..to {
        entries.push(Entry {
            index: rows.indices[at],
            numerator: rows.numerators[at].natural(),
        })?;
    }
    Ok(())
}

// Returns whether a number may be a denominator or a numerator.
fn is_term(number: u128) -> bool
    ensures { result ≡ is_term number }
{
    1 <= number && number <= NUMBER_LIMIT
}

// Returns whether the control points ascend and exist, and the numerators are within their limits.
fn are_in_range(entries: &[Entry], controls: u32) -> bool
    ensures { result ≡ are_shares_in_range controls 0 (shares_of entries.now) }
{
    let mut least = 0;
    let mut rest = entries;
    while let [entry, others @ ..] = rest {
        if entry.index < least || controls <= entry.index || !is_term(entry.numerator) {
            return false;
        }
        least = entry.index + 1;
        rest = others;
    }
    true
}

// Returns whether the numerators sum to the denominator.
fn sum_to(entries: &[Entry], denominator: u128) -> bool
    requires { denominator ≤ number_bound }
    ensures { result ≡ nat_eq (total_of (shares_of entries.now)) denominator }
{
    let mut total: u128 = 0;
    for entry in entries {
        total = total.saturating_add(entry.numerator);
    }
    total == denominator
}

// Returns whether the entries are a row over the denominator.
fn are_row(entries: &[Entry], denominator: u128, controls: u32) -> bool
    ensures { result ≡ is_row controls (row_of denominator entries.now) }
{
    is_term(denominator) && are_in_range(entries, controls) && sum_to(entries, denominator)
}

// Copies the entries of a row of the arrays, and returns whether the row is valid.
pub(crate) fn read_row(rows: &ExactRows, r: usize, entries: &mut Vec<Entry>) -> Result<bool, Memory>
    requires shape { is_in_shape rows.now ≡ true }
    requires inside { r < length rows.now.denominators.now }
    ensures { IfOk result (λ good. IsJudged rows.now r entries.new.items good) }
{
    let from = rows.starts[r] as usize;
    let to = rows.starts[r + 1] as usize;
    if to < from || rows.indices.len() < to {
        return Ok(false);
    }
    copy_entries(rows, from, to, entries)?;
    Ok(are_row(entries, denominator_of(rows, r), rows.controls))
}
