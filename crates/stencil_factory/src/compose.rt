//! Composes the rows of a table: each is a sum of rows of the table of a level's points.

ghost use Rattle.std.specs.Prelude.{◌≡◌, ◌+◌, ◌-◌, ◌*◌, ◌^◌, ◌<◌, ◌≤◌, List, length, max, replicate, take, true, false, IfOk, OnOk};
ghost use Rattle.std.specs.List.{All, fold};
ghost use Rattle.number_width.specs.Numbers.{width_for, most_of};
ghost use Rattle.subdiv_model.specs.Refined.{mask_denominator, source_denominator};
ghost use Rattle.subdiv_model.specs.Channel.{number_bound, entry_bound};
ghost use Rattle.stencil_apply.specs.Table.{IsRow, entries_of, row_at, total_of};
ghost use Rattle.stencil_apply.specs.Built.{no_rows, with_row};
ghost use Rattle.stencil_factory.specs.Rows.{dens_of};
ghost use Rattle.place_sums.specs.Sums.{added_shares, shares_from, sum_of};
ghost use Rattle.stencil_factory.specs.Composing.{added_rows, CanAddRows, IsComposedRow, AreComposedRows};
ghost use Rattle.stencil_factory.specs.MaskRows.{mask_at, mask_entries, AreFew, AreRowDenominators, AreAdded, IsRowComposition};

use crate::count::count_entries;
use crate::row_fault::RowFault;
use crate::rows::RowMasks;
use number_width::{Natural, NumberSlice, Width, width_of};
use place_sums::{Entries, PlaceSums};
use ratio128::Memory;
use ratio128::limits::ENTRY_BOUND;
use std::alloc::Global;
use stencil_apply::{StencilTable, TableBuilder};

// The buffers for one row: its mask, the weights of the level's points, and the entries of the control points.
// `counted` is true once the entries of all rows were counted and are at most 2^27.
#[derive(Drop)]
struct Buffers<T: Natural, M> {
    mask: M,
    points: PlaceSums<T>,
    weights: Entries<T>,
    controls: PlaceSums<T>,
    entries: Entries<T>,
    counted: bool,
}

impl<T: Natural, M: Drop> Buffers<T, M> {
    // Returns buffers for a level with `points` points over `controls` control points. All sums are 0.
    fn new(alloc: Global, mask: M, points: u32, controls: u32) -> Result<Buffers<T, M>, Memory>
        ensures clear { IfOk result (λ buffers. (buffers.mask ≡ mask) × (buffers.points ≡ replicate points 0) × (buffers.controls ≡ replicate controls 0)) }
        ensures counted { IfOk result (λ buffers. buffers.counted ≡ false) }
    {
        Ok(Buffers {
            mask,
            points: PlaceSums::new(alloc, points)?,
            weights: Entries::new(alloc),
            controls: PlaceSums::new(alloc, controls)?,
            entries: Entries::new(alloc),
            counted: false,
        })
    }
}

/// Adds the row of `point`, times `factor`, to the sums of the control points.
#[inline(always)]
pub(crate) fn add_row<T: Natural>(
    table: &StencilTable,
    point: u32,
    factor: T,
    sums: &mut PlaceSums<T>,
)
    requires known { point < length table.now.rows }
    requires places { length sums.old ≡ table.now.controls }
    requires some { 0 < T.value factor }
    requires fits { sum_of sums.old + T.value factor * total_of (row_at table.now point).shares ≤ T.most }
    ensures { sums.new ≡ added_shares (T.value factor) (row_at table.now point).shares sums.old }
{
    table.facts();
    let indices = table.row_indices(point);
    match table.row_numerators(point) {
        NumberSlice::Narrow(numerators) => sums.add_shares(factor, indices, numerators),
        NumberSlice::Wide(numerators) => sums.add_shares(factor, indices, numerators),
    }
}

// Adds the row of each point in `weights`, times its weight, to the sums of the control points.
fn add_rows<T: Natural>(table: &StencilTable, weights: &Entries<T>, sums: &mut PlaceSums<T>)
    requires { CanAddRows T.most table.now weights.now sums.old }
    ensures added { sums.new ≡ added_rows table.now weights.now sums.old }
    ensures places { length sums.new ≡ table.now.controls }
{
    table.facts();
    let points = weights.indices();
    let factors = weights.numerators();
    for i in 0..points.len() {
        add_row(table, points[i], factors[i], sums);
    }
}

// Replaces `entries` by the weighted sum of rows, ascending by control point. All sums are 0 again afterwards.
fn sum_rows<T: Natural>(
    table: &StencilTable,
    weights: &Entries<T>,
    sums: &mut PlaceSums<T>,
    entries: &mut Entries<T>,
) -> Result<(), Memory>
    requires clear { sums.old ≡ replicate table.now.controls 0 }
    requires can { CanAddRows T.most table.now weights.now sums.old }
    ensures clear { OnOk result (sums.new ≡ replicate table.now.controls 0) }
    ensures entries { OnOk result (entries.new ≡ shares_from 0 (added_rows table.now weights.now (replicate table.now.controls 0))) }
{
    add_rows(table, weights, sums);
    sums.take(entries)
}

// Replaces `buffers.entries` by the entries of row `row`, over the denominator `den`.
fn compose_row<T: Natural, R: RowMasks>(
    table: &StencilTable,
    rows: &R,
    row: u32,
    den: u128,
    buffers: &mut Buffers<T, R::Buffer>,
) -> Result<(), Memory>
    requires ready { R.IsReady rows.now }
    requires found { R.IsFound rows.now (dens_of table.now) }
    requires each { length table.now.rows ≡ (R.level rows.now).point_count }
    requires known { row < length (R.masks rows.now) }
    requires den { den ≡ mask_denominator (source_denominator (R.level rows.now) (dens_of table.now)) (mask_at (R.masks rows.now) row) }
    requires positive { 0 < den }
    requires short { den ≤ number_bound }
    requires fits { den ≤ T.most }
    requires clear { R.IsClear rows.now buffers.old.mask }
    requires points { buffers.old.points ≡ replicate (R.level rows.now).point_count 0 }
    requires controls { buffers.old.controls ≡ replicate table.now.controls 0 }
    ensures clear { OnOk result (R.IsClear rows.now buffers.new.mask) }
    ensures points { OnOk result (buffers.new.points ≡ replicate (R.level rows.now).point_count 0) }
    ensures controls { OnOk result (buffers.new.controls ≡ replicate table.now.controls 0) }
    ensures counted { OnOk result (buffers.new.counted ≡ buffers.old.counted) }
    ensures row { OnOk result (IsComposedRow (R.level rows.now) table.now (mask_at (R.masks rows.now) row) (record { den = den; shares = buffers.new.entries })) }
{
    table.facts();
    let dens = table.denominators();
    rows.weigh(row, den, dens, &mut buffers.mask, &mut buffers.points)?;
    buffers.points.take_unsorted(&mut buffers.weights)?;
    sum_rows(
        table,
        &buffers.weights,
        &mut buffers.controls,
        &mut buffers.entries,
    )
}

/// Appends a row with these entries over the denominator `den`.
#[inline]
pub(crate) fn put_entries<T: Natural>(
    den: u128,
    entries: &Entries<T>,
    builder: &mut TableBuilder,
) -> Result<(), Memory>
    requires row { IsRow builder.old.table.controls (record { den = den; shares = entries.now }) }
    requires rows { length builder.old.table.rows < 2 ^ 27 }
    requires entries { entries_of builder.old.table.rows + length entries.now ≤ 2 ^ 27 }
    ensures added { OnOk result (builder.new.table ≡ with_row (record { den = den; shares = entries.now }) builder.old.table) }
    ensures capacity { OnOk result (builder.new.room_entries ≡ builder.old.room_entries - length entries.now) }
{
    builder.add_parts(den, entries.indices(), entries.numerators())
}

// Returns whether a row of `count` entries can be added. If the table lacks capacity for it, this counts the entries of all rows, once.
// It returns `false` if all rows together have more than 2^27 entries.
fn can_add<R: RowMasks>(
    alloc: Global,
    table: &StencilTable,
    rows: &R,
    builder: &TableBuilder,
    count: u64,
    counted: &mut bool,
) -> Result<bool, Memory>
    requires ready { R.IsReady rows.now }
    requires each { length table.now.rows ≡ (R.level rows.now).point_count }
    requires few { AreFew (mask_entries (R.level rows.now) table.now (R.masks rows.now)) (entries_of builder.now.table.rows) builder.now.room_entries }
    requires counted { counted.old ≡ true → mask_entries (R.level rows.now) table.now (R.masks rows.now) ≤ entry_bound }
    ensures few { IfOk result (λ can. can ≡ true → AreFew (mask_entries (R.level rows.now) table.now (R.masks rows.now))
        (entries_of builder.now.table.rows + count) (builder.now.room_entries - count)) }
    ensures many { IfOk result (λ can. can ≡ false → entry_bound < mask_entries (R.level rows.now) table.now (R.masks rows.now)) }
    ensures counted { OnOk result (counted.new ≡ true → mask_entries (R.level rows.now) table.now (R.masks rows.now) ≤ entry_bound) }
{
    let (_, left) = builder.room();
    if *counted || count <= left {
        return Ok(true);
    }
    match count_entries(alloc, table, rows)? {
        Some(_) => {
            *counted = true;
            Ok(true)
        }
        None => Ok(false),
    }
}

// Composes row `row` and appends it. Returns `false`, without the row, if all rows together have more than 2^27 entries.
fn put_row<T: Natural, R: RowMasks>(
    alloc: Global,
    table: &StencilTable,
    rows: &R,
    row: u32,
    den: u128,
    buffers: &mut Buffers<T, R::Buffer>,
    builder: &mut TableBuilder,
) -> Result<bool, Memory>
    requires ready { R.IsReady rows.now }
    requires found { R.IsFound rows.now (dens_of table.now) }
    requires each { length table.now.rows ≡ (R.level rows.now).point_count }
    requires known { row < length (R.masks rows.now) }
    requires den { den ≡ mask_denominator (source_denominator (R.level rows.now) (dens_of table.now)) (mask_at (R.masks rows.now) row) }
    requires positive { 0 < den }
    requires short { den ≤ number_bound }
    requires fits { den ≤ T.most }
    requires few { AreFew (mask_entries (R.level rows.now) table.now (R.masks rows.now)) (entries_of builder.old.table.rows) builder.old.room_entries }
    requires counted { buffers.old.counted ≡ true → mask_entries (R.level rows.now) table.now (R.masks rows.now) ≤ entry_bound }
    requires clear { R.IsClear rows.now buffers.old.mask }
    requires points { buffers.old.points ≡ replicate (R.level rows.now).point_count 0 }
    requires controls { buffers.old.controls ≡ replicate table.now.controls 0 }
    requires same { builder.old.table.controls ≡ table.now.controls }
    requires done { AreComposedRows (R.level rows.now) table.now (take row (R.masks rows.now)) builder.old.table.rows }
    ensures clear { OnOk result (R.IsClear rows.now buffers.new.mask) }
    ensures points { OnOk result (buffers.new.points ≡ replicate (R.level rows.now).point_count 0) }
    ensures controls { OnOk result (buffers.new.controls ≡ replicate table.now.controls 0) }
    ensures counted { OnOk result (buffers.new.counted ≡ true → mask_entries (R.level rows.now) table.now (R.masks rows.now) ≤ entry_bound) }
    ensures same { OnOk result (builder.new.table.controls ≡ table.now.controls) }
    ensures few { IfOk result (λ put. put ≡ true → AreFew (mask_entries (R.level rows.now) table.now (R.masks rows.now)) (entries_of builder.new.table.rows) builder.new.room_entries) }
    ensures done { IfOk result (λ put. put ≡ true → AreComposedRows (R.level rows.now) table.now (take (row + 1) (R.masks rows.now)) builder.new.table.rows) }
    ensures many { IfOk result (λ put. put ≡ false → entry_bound < mask_entries (R.level rows.now) table.now (R.masks rows.now)) }
{
    compose_row(table, rows, row, den, buffers)?;
    let count = buffers.entries.indices().len() as u64;
    if !can_add(alloc, table, rows, builder, count, &mut buffers.counted)? {
        return Ok(false);
    }
    put_entries(den, &buffers.entries, builder)?;
    Ok(true)
}

// Composes and appends all rows. Returns `false` if they have more than 2^27 entries together.
fn put_rows<T: Natural, R: RowMasks>(
    alloc: Global,
    table: &StencilTable,
    rows: &R,
    dens: &[u128],
    buffers: &mut Buffers<T, R::Buffer>,
    builder: &mut TableBuilder,
) -> Result<bool, Memory>
    requires ready { R.IsReady rows.now }
    requires found { R.IsFound rows.now (dens_of table.now) }
    requires each { length table.now.rows ≡ (R.level rows.now).point_count }
    requires dens { AreRowDenominators (R.level rows.now) table.now (R.masks rows.now) dens.now }
    requires fits { All (λ den. den ≤ T.most) dens.now }
    requires clear { R.IsClear rows.now buffers.old.mask }
    requires points { buffers.old.points ≡ replicate (R.level rows.now).point_count 0 }
    requires controls { buffers.old.controls ≡ replicate table.now.controls 0 }
    requires counted { buffers.old.counted ≡ false }
    requires none { builder.old.table ≡ no_rows table.now.controls }
    requires capacity { builder.old.room_entries ≤ entry_bound }
    ensures { IfOk result (AreAdded (R.level rows.now) (R.masks rows.now) table.now builder.new.table) }
{
    for row in 0..rows.count() {
        let den = dens[row as usize];
        if !put_row(alloc, table, rows, row, den, buffers, builder)? {
            return Ok(false);
        }
    }
    Ok(true)
}

// Composes and appends all rows, with sums of type `T`. Returns `false` if they have more than 2^27 entries together.
fn put_rows_as<T: Natural, R: RowMasks>(
    alloc: Global,
    table: &StencilTable,
    rows: &R,
    dens: &[u128],
    builder: &mut TableBuilder,
) -> Result<bool, Memory>
    requires ready { R.IsReady rows.now }
    requires found { R.IsFound rows.now (dens_of table.now) }
    requires each { length table.now.rows ≡ (R.level rows.now).point_count }
    requires dens { AreRowDenominators (R.level rows.now) table.now (R.masks rows.now) dens.now }
    requires fits { All (λ den. den ≤ T.most) dens.now }
    requires none { builder.old.table ≡ no_rows table.now.controls }
    requires capacity { builder.old.room_entries ≤ entry_bound }
    ensures { IfOk result (AreAdded (R.level rows.now) (R.masks rows.now) table.now builder.new.table) }
{
    let made = rows.buffer(alloc)?;
    let mut buffers = Buffers::<T, R::Buffer>::new(alloc, made, table.rows(), table.controls())?;
    put_rows(alloc, table, rows, dens, &mut buffers, builder)
}

// Composes and appends all rows, with sums of the given width, which holds each denominator.
// Returns `false` if the rows have more than 2^27 entries together.
fn put_rows_in<R: RowMasks>(
    alloc: Global,
    table: &StencilTable,
    rows: &R,
    dens: &[u128],
    width: Width,
    builder: &mut TableBuilder,
) -> Result<bool, Memory>
    requires ready { R.IsReady rows.now }
    requires found { R.IsFound rows.now (dens_of table.now) }
    requires each { length table.now.rows ≡ (R.level rows.now).point_count }
    requires dens { AreRowDenominators (R.level rows.now) table.now (R.masks rows.now) dens.now }
    requires fits { All (λ den. den ≤ most_of width) dens.now }
    requires none { builder.old.table ≡ no_rows table.now.controls }
    requires capacity { builder.old.room_entries ≤ entry_bound }
    ensures { IfOk result (AreAdded (R.level rows.now) (R.masks rows.now) table.now builder.new.table) }
{
    match width {
        Width::Narrow => put_rows_as::<u64, R>(alloc, table, rows, dens, builder),
        Width::Wide => put_rows_as::<u128, R>(alloc, table, rows, dens, builder),
    }
}

// Returns the greatest denominator, or 1 for an empty list.
fn greatest_denominator(dens: &[u128]) -> u128
    ensures { result ≡ fold max 1 dens.now }
{
    let mut greatest = 1;
    for den in dens {
        greatest = greatest.max(*den);
    }
    greatest
}

// Returns the narrowest width that holds every denominator.
fn width_of_rows(dens: &[u128]) -> Width
    ensures { result ≡ width_for (fold max 1 dens.now) }
{
    width_of(greatest_denominator(dens))
}

/// Returns the table of the rows, whose common denominators are `dens`. The table starts with capacity for `capacity` entries.
///
/// If the rows need more, this counts the entries of all rows once, and the table grows. The error is
/// [`RowFault::TooManyEntries`] if they have more than 2^27 entries together, or [`RowFault::Memory`].
pub(crate) fn compose_rows<R: RowMasks>(
    alloc: Global,
    table: &StencilTable,
    rows: &R,
    dens: &[u128],
    capacity: u64,
) -> Result<StencilTable, RowFault>
    requires ready { R.IsReady rows.now }
    requires found { R.IsFound rows.now (dens_of table.now) }
    requires each { length table.now.rows ≡ (R.level rows.now).point_count }
    requires dens { AreRowDenominators (R.level rows.now) table.now (R.masks rows.now) dens.now }
    requires capacity { capacity ≤ entry_bound }
    ensures { IsRowComposition (R.level rows.now) (R.masks rows.now) table.now result }
{
    table.facts();
    let width = width_of_rows(dens);
    // Each row has at least one entry, so a table within its bound has at most 2^27 rows.
    let most = rows.count().min(ENTRY_BOUND as u32);
    let mut builder = TableBuilder::with_room(alloc, table.controls(), most, capacity, width)?;
    if !put_rows_in(alloc, table, rows, dens, width, &mut builder)? {
        return Err(RowFault::TooManyEntries);
    }
    Ok(builder.finish())
}
