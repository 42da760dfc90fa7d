//! Composes the table of masks that the caller supplies.

ghost use Rattle.std.specs.Prelude.{◌≡◌, ◌<◌, ◌≤◌, [], ◌∷◌, ◌++◌, length, IfOk, OnOk, MatchResult};
ghost use Rattle.subdiv_model.specs.Refined.{mask_denominator, source_denominator};
ghost use Rattle.child_masks.specs.Survey.{within_bound};
ghost use Rattle.subdiv_model.specs.Channel.{entry_bound};
ghost use Rattle.stencil_factory.specs.Rows.{dens_of};
ghost use Rattle.stencil_factory.specs.MaskRows.{mask_at, AreRowDenominators, IsRowFault, IsRowComposition};

use crate::compose::compose_rows;
use crate::narrow::compose_narrow;
use crate::point_masks::{PointMasks, PointWeights};
use crate::point_rows::PointRows;
use crate::row_fault::RowFault;
use crate::weights::multiple_of_weights;
use ratio128::limits::{ENTRY_BOUND, NUMBER_BOUND};
use ratio128::{Memory, times_within};
use std::alloc::Global;
use stencil_apply::StencilTable;

// Returns the common denominator of row `row`, or 0 if it is above 2^126 - 1.
fn denominator_of_row<M: PointMasks>(
    table: &StencilTable,
    masks: &M,
    row: u32,
    weights: &mut PointWeights,
) -> Result<u128, Memory>
    requires each { length table.now.rows ≡ (M.level masks.now).point_count }
    requires known { row < length (M.masks masks.now) }
    ensures positive { OnOk result (0 < mask_denominator (source_denominator (M.level masks.now) (dens_of table.now)) (mask_at (M.masks masks.now) row)) }
    ensures den { IfOk result (λ den. den ≡ within_bound (mask_denominator (source_denominator (M.level masks.now) (dens_of table.now)) (mask_at (M.masks masks.now) row))) }
{
    table.facts();
    masks.put(row, weights)?;
    let multiple = multiple_of_weights(weights.weights(), table.denominators());
    let den = times_within(weights.denominator(), multiple, NUMBER_BOUND).unwrap_or(0);
    Ok(den)
}

// Appends the denominator of a row.
fn keep(dens: &mut Vec<u128>, den: u128) -> Result<(), Memory>
    ensures { OnOk result (dens.new.items ≡ dens.old.items ++ den ∷ []) }
{
    dens.push(den)?;
    Ok(())
}

// Returns the common denominators of all rows. The error names the first row whose denominator is above 2^126 - 1.
fn denominators_of_rows<M: PointMasks>(
    alloc: Global,
    table: &StencilTable,
    masks: &M,
) -> Result<Vec<u128>, RowFault>
    requires each { length table.now.rows ≡ (M.level masks.now).point_count }
    ensures { MatchResult result
        (λ dens. AreRowDenominators (M.level masks.now) table.now (M.masks masks.now) dens.items)
        (IsRowFault (M.level masks.now) (M.masks masks.now) table.now) }
{
    let mut weights = PointWeights::new(alloc);
    let mut dens = Vec::new(alloc);
    for row in 0..masks.count() {
        let den = denominator_of_row(table, masks, row, &mut weights)?;
        if den == 0 {
            return Err(RowFault::Denominator { row });
        }
        keep(&mut dens, den)?;
    }
    Ok(dens)
}

// Returns the capacity to start with: twice the entries of the table, at most 2^27. Rows of neighbours share control points.
fn capacity_for(table: &StencilTable) -> u64
    ensures { result ≤ entry_bound }
{
    table.entries().saturating_mul(2).min(ENTRY_BOUND)
}

// Returns the table of the masks. It finds all denominators before it composes the first row.
fn compose_surveyed<M: PointMasks>(
    alloc: Global,
    table: &StencilTable,
    masks: &M,
) -> Result<StencilTable, RowFault>
    requires { length table.now.rows ≡ (M.level masks.now).point_count }
    ensures { IsRowComposition (M.level masks.now) (M.masks masks.now) table.now result }
{
    let dens = denominators_of_rows(alloc, table, masks)?;
    compose_rows(
        alloc,
        table,
        &PointRows { masks },
        &dens,
        capacity_for(table),
    )
}

/// Returns the table of the masks, one row for each mask, over the control points of `table`.
///
/// `table` has one row for each point of the level. A new row gives the control points that its mask depends on, ascending, over
/// the mask's common denominator. A point of weight 0 adds no control points.
///
/// The errors are those of [`RowFault`], checked in the order of its variants.
///
/// This visits each mask once if each denominator has 64 bits and the rows have at most three times the entries of `table`.
/// Otherwise it visits the masks again: for the denominators, for the rows, and once more if it has to count the entries.
pub fn compose_masks<M: PointMasks>(
    alloc: Global,
    table: &StencilTable,
    masks: &M,
) -> Result<StencilTable, RowFault>
    requires { length table.now.rows ≡ (M.level masks.now).point_count }
    ensures { IsRowComposition (M.level masks.now) (M.masks masks.now) table.now result }
{
    match compose_narrow(alloc, table, masks)? {
        Some(composed) => Ok(composed),
        None => compose_surveyed(alloc, table, masks),
    }
}
