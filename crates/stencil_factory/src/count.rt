//! Counts the entries of composed rows without computing their numerators.

ghost use Rattle.std.specs.Prelude.{◌≡◌, ◌+◌, ◌^◌, ◌<◌, ◌≤◌, [], nat_eq, length, replicate, set, IfOk, OnOk};
ghost use Rattle.std.specs.List.{All, count_by};
ghost use Rattle.subdiv_model.specs.Support.{mask_support, source_support};
ghost use Rattle.stencil_factory.specs.Rows.{supports_of};
ghost use Rattle.stencil_factory.specs.Marks.{marked_all, marked_rows, AreMarks};
ghost use Rattle.stencil_factory.specs.MaskRows.{mask_at, IsEntryCount};

use crate::place_set::PlaceSet;
use crate::rows::RowMasks;
use ratio128::Memory;
use ratio128::limits::ENTRY_BOUND;
use std::alloc::Global;
use stencil_apply::StencilTable;

// The buffers for counting: the mask of a row, the points of the level that it names, and a mark for each control point.
// A control point's mark is 1 more than the last row that depends on it, or 0.
#[derive(Drop)]
struct Marks<M> {
    mask: M,
    points: PlaceSet,
    marks: Vec<u32>,
}

impl<M: Drop> Marks<M> {
    // Returns buffers with `controls` marks of 0 and an empty set of the `points` points of the level.
    fn new(alloc: Global, mask: M, points: u32, controls: u32) -> Result<Marks<M>, Memory>
        ensures { IfOk result (λ buffers. (buffers.mask ≡ mask) × (buffers.points ≡ record { count = points; mark = 1; members = [] }) × (buffers.marks.items ≡ replicate controls 0)) }
    {
        Ok(Marks {
            mask,
            points: PlaceSet::new(alloc, points)?,
            marks: vec![in alloc; 0; controls as usize]?,
        })
    }
}

// Writes `mark` at a place. Returns 1 if that changed the place's mark, and 0 otherwise.
fn put_mark(marks: &mut Vec<u32>, place: u32, mark: u32) -> u64
    requires { place < length marks.old.items }
    ensures marked { marks.new.items ≡ set marks.old.items place mark }
    ensures fresh { result + count_by (nat_eq mark) marks.old.items ≡ count_by (nat_eq mark) marks.new.items }
{
    let fresh = marks[place as usize] != mark;
    marks[place as usize] = mark;
    u64::from(fresh)
}

// Writes `mark` at each of the places. Returns how many places changed their mark.
fn mark_all(marks: &mut Vec<u32>, places: &[u32], mark: u32) -> u64
    requires { All (λ place. place < length marks.old.items) places.now }
    ensures marked { marks.new.items ≡ marked_all mark places.now marks.old.items }
    ensures fresh { result + count_by (nat_eq mark) marks.old.items ≡ count_by (nat_eq mark) marks.new.items }
{
    let mut fresh = 0;
    let mut rest = places;
    while let [place, others @ ..] = rest {
        fresh += put_mark(marks, *place, mark);
        rest = others;
    }
    fresh
}

// Writes `mark` at each control point in the rows of the points. Returns how many control points changed their mark.
fn mark_rows(table: &StencilTable, points: &[u32], marks: &mut Vec<u32>, mark: u32) -> u64
    requires inside { All (λ point. point < length table.now.rows) points.now }
    requires each { length marks.old.items ≡ table.now.controls }
    ensures marked { marks.new.items ≡ marked_rows table.now mark points.now marks.old.items }
    ensures fresh { result + count_by (nat_eq mark) marks.old.items ≡ count_by (nat_eq mark) marks.new.items }
{
    table.facts();
    let mut fresh = 0;
    let mut rest = points;
    while let [point, others @ ..] = rest {
        fresh += mark_all(marks, table.row_indices(*point), mark);
        rest = others;
    }
    fresh
}

// Returns how many entries row `row` has.
fn count_row<R: RowMasks>(
    table: &StencilTable,
    rows: &R,
    row: u32,
    buffers: &mut Marks<R::Buffer>,
) -> Result<u64, Memory>
    requires ready { R.IsReady rows.now }
    requires each { length table.now.rows ≡ (R.level rows.now).point_count }
    requires known { row < length (R.masks rows.now) }
    requires few { row < 2 ^ 30 }
    requires clear { R.IsClear rows.now buffers.old.mask }
    requires points { buffers.old.points.count ≡ (R.level rows.now).point_count }
    requires round { buffers.old.points.mark ≡ row + 1 }
    requires marks { AreMarks table.now.controls row buffers.old.marks.items }
    ensures clear { OnOk result (R.IsClear rows.now buffers.new.mask) }
    ensures points { OnOk result (buffers.new.points.count ≡ (R.level rows.now).point_count) }
    ensures round { OnOk result (buffers.new.points.mark ≡ row + 2) }
    ensures marks { OnOk result (AreMarks table.now.controls (row + 1) buffers.new.marks.items) }
    ensures count { IfOk result (λ n. n ≡ length (mask_support table.now.controls
        (source_support table.now.controls (R.level rows.now) (supports_of table.now)) (mask_at (R.masks rows.now) row))) }
{
    table.facts();
    rows.name(row, &mut buffers.mask, &mut buffers.points)?;
    let points = buffers.points.places();
    Ok(mark_rows(table, points, &mut buffers.marks, row + 1))
}

/// Returns how many entries all rows have together, or `None` if these are more than 2^27.
pub(crate) fn count_entries<R: RowMasks>(
    alloc: Global,
    table: &StencilTable,
    rows: &R,
) -> Result<Option<u64>, Memory>
    requires ready { R.IsReady rows.now }
    requires each { length table.now.rows ≡ (R.level rows.now).point_count }
    ensures { IfOk result (IsEntryCount (R.level rows.now) (R.masks rows.now) table.now) }
{
    table.facts();
    let made = rows.buffer(alloc)?;
    let mut buffers = Marks::new(alloc, made, table.rows(), table.controls())?;
    let mut count = 0;
    for row in 0..rows.count() {
        count += count_row(table, rows, row, &mut buffers)?;
        if count > ENTRY_BOUND {
            return Ok(None);
        }
    }
    Ok(Some(count))
}
