//! Composes the table of masks in one visit, with numerators of 64 bits.

ghost use Rattle.std.specs.Prelude.{◌≡◌, ◌+◌, ◌^◌, ◌<◌, ◌≤◌, length, replicate, take, true, IfOk, OnOk, IfSome};
ghost use Rattle.stencil_apply.specs.Table.{entries_of};
ghost use Rattle.stencil_apply.specs.Built.{no_rows};
ghost use Rattle.stencil_factory.specs.Composing.{IsComposedRow, AreComposedRows};
ghost use Rattle.stencil_factory.specs.MaskRows.{mask_at, AreMaskRows};

use crate::compose::put_entries;
use crate::denominators::Denominators;
use crate::point_masks::{PointMasks, PointWeights};
use crate::weighted_rows::add_weighted_rows;
use number_width::Width;
use place_sums::{Entries, PlaceSums};
use ratio128::limits::ENTRY_BOUND;
use ratio128::{Memory, times_within};
use std::alloc::Global;
use stencil_apply::{StencilTable, TableBuilder};

// The greatest number of 64 bits, the bound of denominators here.
const WORD_BOUND: u128 = u64::MAX as u128;

// The buffers for one row: the weights of the level's points and the entries of the control points.
#[derive(Drop)]
struct NarrowBuffers {
    weights: PointWeights,
    controls: PlaceSums<u64>,
    entries: Entries<u64>,
}

impl NarrowBuffers {
    // Returns buffers for rows over `controls` control points. All sums are 0.
    fn new(alloc: Global, controls: u32) -> Result<NarrowBuffers, Memory>
        ensures { IfOk result (λ buffers. buffers.controls ≡ replicate controls 0) }
    {
        Ok(NarrowBuffers {
            controls: PlaceSums::new(alloc, controls)?,
            weights: PointWeights::new(alloc),
            entries: Entries::new(alloc),
        })
    }
}

// Replaces `buffers.entries` by the entries of row `row`. Returns the row's denominator, or 0 if it has more than 64 bits.
fn compose_row<M: PointMasks>(
    table: &StencilTable,
    masks: &M,
    row: u32,
    buffers: &mut NarrowBuffers,
) -> Result<u128, Memory>
    requires each { length table.now.rows ≡ (M.level masks.now).point_count }
    requires known { row < length (M.masks masks.now) }
    requires clear { buffers.old.controls ≡ replicate table.now.controls 0 }
    ensures clear { OnOk result (buffers.new.controls ≡ replicate table.now.controls 0) }
    ensures row { IfOk result (λ den. 0 < den → IsComposedRow (M.level masks.now) table.now (mask_at (M.masks masks.now) row) (record { den = den; shares = buffers.new.entries })) }
{
    table.facts();
    masks.put(row, &mut buffers.weights)?;
    let weights = buffers.weights.weights();
    let dens = Denominators::untested(table.denominators());
    let multiple = dens.multiple_of(weights);
    let den = times_within(buffers.weights.denominator(), multiple, WORD_BOUND).unwrap_or(0);
    if den == 0 {
        return Ok(0);
    }
    add_weighted_rows(table, weights, multiple, &dens, &mut buffers.controls);
    buffers.controls.take(&mut buffers.entries)?;
    Ok(den)
}

// Composes row `row` and appends it. Returns `false`, without the row, if its denominator has more than 64 bits or the table is full.
fn put_row<M: PointMasks>(
    table: &StencilTable,
    masks: &M,
    row: u32,
    buffers: &mut NarrowBuffers,
    builder: &mut TableBuilder,
) -> Result<bool, Memory>
    requires each { length table.now.rows ≡ (M.level masks.now).point_count }
    requires known { row < length (M.masks masks.now) }
    requires clear { buffers.old.controls ≡ replicate table.now.controls 0 }
    requires same { builder.old.table.controls ≡ table.now.controls }
    requires few { entries_of builder.old.table.rows + builder.old.room_entries ≤ 2 ^ 27 }
    requires done { AreComposedRows (M.level masks.now) table.now (take row (M.masks masks.now)) builder.old.table.rows }
    ensures clear { OnOk result (buffers.new.controls ≡ replicate table.now.controls 0) }
    ensures same { OnOk result (builder.new.table.controls ≡ table.now.controls) }
    ensures few { OnOk result (entries_of builder.new.table.rows + builder.new.room_entries ≤ 2 ^ 27) }
    ensures done { IfOk result (λ put. put ≡ true → AreComposedRows (M.level masks.now) table.now (take (row + 1) (M.masks masks.now)) builder.new.table.rows) }
{
    let den = compose_row(table, masks, row, buffers)?;
    let (_, left) = builder.room();
    if den == 0 || buffers.entries.indices().len() as u64 > left {
        return Ok(false);
    }
    put_entries(den, &buffers.entries, builder)?;
    Ok(true)
}

// Composes and appends all rows. Returns `false` if a denominator has more than 64 bits or the table is full.
fn put_rows<M: PointMasks>(
    table: &StencilTable,
    masks: &M,
    buffers: &mut NarrowBuffers,
    builder: &mut TableBuilder,
) -> Result<bool, Memory>
    requires each { length table.now.rows ≡ (M.level masks.now).point_count }
    requires clear { buffers.old.controls ≡ replicate table.now.controls 0 }
    requires none { builder.old.table ≡ no_rows table.now.controls }
    requires few { builder.old.room_entries ≤ 2 ^ 27 }
    ensures { IfOk result (λ put. put ≡ true → AreMaskRows (M.level masks.now) (M.masks masks.now) table.now builder.new.table) }
{
    for row in 0..masks.count() {
        if !put_row(table, masks, row, buffers, builder)? {
            return Ok(false);
        }
    }
    Ok(true)
}

// Allocates the buffers, then composes and appends all rows. Returns `false` if a denominator has more than 64 bits or the table is full.
fn put_all_rows<M: PointMasks>(
    alloc: Global,
    table: &StencilTable,
    masks: &M,
    builder: &mut TableBuilder,
) -> Result<bool, Memory>
    requires each { length table.now.rows ≡ (M.level masks.now).point_count }
    requires none { builder.old.table ≡ no_rows table.now.controls }
    requires few { builder.old.room_entries ≤ 2 ^ 27 }
    ensures { IfOk result (λ put. put ≡ true → AreMaskRows (M.level masks.now) (M.masks masks.now) table.now builder.new.table) }
{
    let mut buffers = NarrowBuffers::new(alloc, table.controls())?;
    put_rows(table, masks, &mut buffers, builder)
}

/// Returns the table of the masks, made in one visit of the masks.
///
/// It returns `None` if a common denominator has more than 64 bits. It also returns `None` if the rows have more than three times the
/// entries of `table`, or more than 2^27. It composes rows until it finds that out.
pub(crate) fn compose_narrow<M: PointMasks>(
    alloc: Global,
    table: &StencilTable,
    masks: &M,
) -> Result<Option<StencilTable>, Memory>
    requires { length table.now.rows ≡ (M.level masks.now).point_count }
    ensures { IfOk result (λ composed. IfSome composed (AreMaskRows (M.level masks.now) (M.masks masks.now) table.now)) }
{
    table.facts();
    let rows = masks.count().min(ENTRY_BOUND as u32);
    let entries = table.entries().saturating_mul(3).min(ENTRY_BOUND);
    let mut builder = TableBuilder::with_room(
        alloc,
        table.controls(),
        rows,
        entries,
        Width::Narrow,
    )?;
    if put_all_rows(alloc, table, masks, &mut builder)? {
        Ok(Some(builder.finish()))
    } else {
        Ok(None)
    }
}
