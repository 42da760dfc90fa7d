//! Evaluates the rows of masks over controls. It makes no table of these rows.

ghost use Rattle.std.specs.Prelude.{◌≡◌, ℕ, ◌+◌, ◌≤◌, ◌<◌, [], length, map, replicate, min, Err, IfOk, OnOk, MatchResult};
ghost use Rattle.std.specs.Vec.{vec_capacity};
ghost use Rattle.subdiv_model.specs.Channel.{entry_bound};
ghost use Rattle.subdiv_model.specs.Refined.{mask_denominator, source_denominator};
ghost use Rattle.stencil_apply.specs.Means.{word_bound};
ghost use Rattle.stencil_factory.specs.Rows.{dens_of};
ghost use Rattle.place_sums.specs.Sums.{shares_from};
ghost use Rattle.stencil_factory.specs.Composing.{IsComposedRow};
ghost use Rattle.stencil_factory.specs.MaskRows.{mask_at, mask_entries, IsRowFault};
ghost use Rattle.stencil_factory.specs.MaskValues.{CanEvaluateMasks, AreMaskValues};
ghost use Rattle.stencil_factory.specs.declared.row_fault.RowFault.TheVariants.{Denominator};

use crate::denominators::Denominators;
use crate::point_masks::{PointMasks, PointWeights};
use crate::row_fault::RowFault;
use crate::weighted_rows::add_weighted_rows;
use place_sums::PlaceSums;
use ratio128::limits::ENTRY_BOUND;
use ratio128::{Memory, Primvar, Steps, Valued};
use std::alloc::Global;
use std::sync::ledger::Ledger;
use stencil_apply::StencilTable;

// The buffers for one row: the weights of the level's points and the sums of the control points.
#[derive(Drop)]
struct SumBuffers {
    weights: PointWeights,
    sums: PlaceSums<u64>,
}

impl SumBuffers {
    // Returns buffers for rows over `controls` control points. All sums are 0.
    fn new(alloc: Global, controls: u32) -> Result<SumBuffers, Memory>
        ensures { IfOk result (λ buffers. buffers.sums ≡ replicate controls 0) }
    {
        Ok(SumBuffers {
            sums: PlaceSums::new(alloc, controls)?,
            weights: PointWeights::new(alloc),
        })
    }
}

// Adds the numerators of row `row` at their control points, where all sums are 0. Returns the row's denominator. `dens` are
// those of the table's rows.
fn sum_mask<M: PointMasks>(
    table: &StencilTable,
    masks: &M,
    row: u32,
    dens: &Denominators,
    buffers: &mut SumBuffers,
) -> Result<u128, Memory>
    requires each { length table.now.rows ≡ (M.level masks.now).point_count }
    requires known { row < length (M.masks masks.now) }
    requires short { mask_denominator (source_denominator (M.level masks.now) (dens_of table.now)) (mask_at (M.masks masks.now) row) ≤ word_bound }
    requires dens { dens.now ≡ dens_of table.now }
    requires clear { buffers.old.sums ≡ replicate table.now.controls 0 }
    ensures places { OnOk result (length buffers.new.sums ≡ table.now.controls) }
    ensures row { IfOk result (λ den. IsComposedRow (M.level masks.now) table.now (mask_at (M.masks masks.now) row) (record { den = den; shares = shares_from 0 buffers.new.sums })) }
{
    table.facts();
    masks.put(row, &mut buffers.weights)?;
    let weights = buffers.weights.weights();
    let multiple = dens.multiple_of(weights);
    add_weighted_rows(table, weights, multiple, dens, &mut buffers.sums);
    Ok(buffers.weights.denominator() * multiple)
}

// Appends the value of each row to `values`, which has the capacity for it. Each entry is one step.
fn push_values<M: PointMasks, P: Primvar<L>, L: Ledger>(
    table: &StencilTable,
    masks: &M,
    controls: &[P],
    buffers: &mut SumBuffers,
    values: &mut Vec<Valued<P>>,
    steps: &mut Steps<L>,
) -> Result<(), RowFault>
    requires each { length table.now.rows ≡ (M.level masks.now).point_count }
    requires can { CanEvaluateMasks (M.level masks.now) (M.masks masks.now) table.now (map P.numbers controls.now) }
    requires clear { buffers.old.sums ≡ replicate table.now.controls 0 }
    requires none { values.old.items ≡ [] }
    requires fits { min (length (M.masks masks.now)) entry_bound ≤ vec_capacity values.old }
    ensures values { MatchResult result
        (λ _. AreMaskValues (M.level masks.now) (M.masks masks.now) table.now (map P.numbers controls.now) (map (λ v. (P.numbers v.value, v.den)) values.new.items))
        (IsRowFault (M.level masks.now) (M.masks masks.now) table.now) }
    ensures within { (row : ℕ) → result ≡ Err (Denominator row) → ⊥ }
    ensures taken { OnOk result (steps.new ≡ steps.old + mask_entries (M.level masks.now) table.now (M.masks masks.now)) }
    ensures steps { steps.new ≤ steps.old + mask_entries (M.level masks.now) table.now (M.masks masks.now) }
    ensures later { steps.old ≤ steps.new }
{
    table.facts();
    let dens = Denominators::tested(table.denominators());
    let mut entries: u64 = 0;
    for row in 0..masks.count() {
        let den = sum_mask(table, masks, row, &dens, buffers)?;
        let row_entries = buffers.sums.count() as u64;
        if row_entries > ENTRY_BOUND - entries {
            return Err(RowFault::TooManyEntries);
        }
        entries += row_entries;
        let value = buffers.sums.take_sum(controls, &controls[0], steps);
        values.push_reserved(Valued { value, den });
    }
    Ok(())
}

// Returns an empty list with the capacity for the values of `rows` rows, at most 2^27.
fn list_for<P: Drop>(alloc: Global, rows: u32) -> Result<Vec<Valued<P>>, Memory>
    ensures none { IfOk result (λ values. values.items ≡ []) }
    ensures fits { IfOk result (λ values. min rows entry_bound ≤ vec_capacity values) }
{
    let values = Vec::with_capacity(alloc, rows.min(ENTRY_BOUND as u32) as usize)?;
    Ok(values)
}

/// Returns the value of each row of the masks over `controls`, with the row's denominator. The rows are those of
/// [`compose_masks`](crate::compose_masks); this makes no table of them. Each entry of the rows is one step.
///
/// `table` has one row for each point of the level. `controls` has one value for each control point of `table`, as many numbers for
/// each. No common denominator of a row is above 2^63 - 1, nor its product with an amount in the controls.
///
/// The errors are `TooManyEntries` and `Memory` of [`RowFault`]. This visits each mask once.
pub fn evaluate_masks<M: PointMasks, P: Primvar<L>, L: Ledger>(
    alloc: Global,
    table: &StencilTable,
    masks: &M,
    controls: &[P],
    steps: &mut Steps<L>,
) -> Result<Vec<Valued<P>>, RowFault>
    requires each { length table.now.rows ≡ (M.level masks.now).point_count }
    requires can { CanEvaluateMasks (M.level masks.now) (M.masks masks.now) table.now (map P.numbers controls.now) }
    ensures values { MatchResult result
        (λ values. AreMaskValues (M.level masks.now) (M.masks masks.now) table.now (map P.numbers controls.now) (map (λ v. (P.numbers v.value, v.den)) values.items))
        (IsRowFault (M.level masks.now) (M.masks masks.now) table.now) }
    ensures within { (row : ℕ) → result ≡ Err (Denominator row) → ⊥ }
    ensures taken { OnOk result (steps.new ≡ steps.old + mask_entries (M.level masks.now) table.now (M.masks masks.now)) }
    ensures steps { steps.new ≤ steps.old + mask_entries (M.level masks.now) table.now (M.masks masks.now) }
    ensures later { steps.old ≤ steps.new }
{
    let mut values = list_for(alloc, masks.count())?;
    let mut buffers = SumBuffers::new(alloc, table.controls())?;
    push_values(table, masks, controls, &mut buffers, &mut values, steps)?;
    Ok(values)
}
