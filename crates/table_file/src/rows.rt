//! The rows of a stored table, line by line.

ghost use Rattle.std.specs.Prelude.{◌≡◌, ◌+◌, ◌-◌, ◌<◌, ◌≤◌, ◌^◌, [], length, drop, None, IfOk, OnOk, MatchResult, option_map};
ghost use Rattle.subdiv_model.specs.ReadTable.{spaced_words, row_words_cause, row_of_words};
ghost use Rattle.stencil_apply.specs.Table.{IsRow, entries_of};
ghost use Rattle.stencil_apply.specs.Arrays.{row_of};
ghost use Rattle.stencil_apply.specs.Built.{no_rows, with_row};
ghost use Rattle.table_file.specs.View.{cause_of};
ghost use Rattle.table_file.specs.Read.{IsTableEnd, IsFaultOf};
ghost use Rattle.table_file.specs.Rows.{AreRowsOf, AreRowsWith, IsRowRead, read_on};

use crate::fault::{TableCause, TableReadFault};
use crate::header::Header;
use crate::line::line_at;
use crate::row::{cause_in_range, read_values, row_words};
use number_width::Width;
use ratio128::Memory;
use std::alloc::Global;
use stencil_apply::{Entry, TableBuilder};

// The rows that were read, the number of their entries, and a place for the entries of one row.
#[derive(Drop)]
pub(crate) struct Rows {
    pub(crate) builder: TableBuilder,
    row: Vec<Entry>,
    entries: u64,
}

// Returns no rows, with memory for those of a first line, but for no more than this many bytes can contain. A row has at
// least 8 bytes, and an entry 4.
pub(crate) fn rows_for(alloc: Global, header: &Header, bytes: usize) -> Result<Rows, Memory>
    requires { bytes ≤ 2 ^ 28 }
    ensures good { IfOk result (λ rows. AreRowsOf header.now rows) }
    ensures none { IfOk result (λ rows. rows.builder.table.rows ≡ []) }
{
    let rows = header.rows.min(bytes as u32 / 8);
    let entries = header.entries.min(bytes as u32 / 4);
    let builder = TableBuilder::with_room(
        alloc,
        header.controls,
        rows,
        u64::from(entries),
        Width::Narrow,
    )?;
    Ok(Rows {
        builder,
        row: Vec::new(alloc),
        entries: 0,
    })
}

// Adds the row that was read, over a denominator.
fn add_row(rows: &mut Rows, denominator: u128) -> Result<(), Memory>
    requires row { IsRow rows.old.builder.table.controls (row_of denominator rows.old.row.items) }
    requires rows { length rows.old.builder.table.rows < 2 ^ 27 }
    requires count { rows.old.entries ≡ entries_of rows.old.builder.table.rows }
    requires entries { rows.old.entries + length rows.old.row.items ≤ 2 ^ 27 }
    ensures added { OnOk result (rows.new.builder.table ≡ with_row (row_of denominator rows.old.row.items) rows.old.builder.table) }
    ensures entries { OnOk result (rows.new.entries ≡ rows.old.entries + length rows.old.row.items) }
{
    rows.builder.add_row(denominator, &rows.row)?;
    rows.entries += rows.row.len() as u64;
    Ok(())
}

// Reads the line of a row and adds the row, or returns the fault of the line. `left` rows follow it.
fn read_row(
    line: &[u8],
    header: &Header,
    left: u32,
    rows: &mut Rows,
) -> Result<Option<TableCause>, Memory>
    requires good { AreRowsOf header.now rows.old }
    requires few { length rows.old.builder.table.rows < 2 ^ 27 }
    ensures cause { IfOk result (λ cause. option_map cause_of cause
        ≡ row_words_cause header.now left (entries_of rows.old.builder.table.rows) (spaced_words line.now)) }
    ensures added { IfOk result (λ cause. cause ≡ None → AreRowsWith header.now rows.old rows.new (row_of_words (spaced_words line.now))) }
{
    let Some(words) = row_words(line) else {
        return Ok(Some(TableCause::Form));
    };
    let Some(denominator) = read_values(&words, header.controls, &mut rows.row)? else {
        return Ok(Some(TableCause::Range));
    };
    let cause = cause_in_range(denominator, &rows.row, header, left, rows.entries);
    if cause.is_some() {
        return Ok(cause);
    }
    add_row(rows, denominator)?;
    Ok(None)
}

// Reads the line of a row at a place, and returns the start of the next line. Rows are counted from 0.
fn read_line(
    bytes: &[u8],
    at: usize,
    header: &Header,
    number: u32,
    rows: &mut Rows,
) -> Result<usize, TableReadFault>
    requires inside { at ≤ length bytes.now }
    requires good { AreRowsOf header.now rows.old }
    requires number { length rows.old.builder.table.rows ≡ number }
    requires fewer { number < header.now.rows }
    ensures { MatchResult result (λ next. IsRowRead header.now bytes.now at rows.old rows.new next)
        (λ fault. IsFaultOf (read_on header.now rows.old (drop at bytes.now)) fault) }
{
    let left = header.rows - number - 1;
    let Some((line, next)) = line_at(bytes, at) else {
        return Err(TableReadFault::Table {
            line: number + 2,
            cause: TableCause::Form,
        });
    };
    match read_row(line, header, left, rows)? {
        Some(cause) => Err(TableReadFault::Table {
            line: number + 2,
            cause,
        }),
        None => Ok(next),
    }
}

// Reads all rows from a place on, and returns the place after them.
pub(crate) fn read_all(
    bytes: &[u8],
    from: usize,
    header: &Header,
    rows: &mut Rows,
) -> Result<usize, TableReadFault>
    requires inside { from ≤ length bytes.now }
    requires good { AreRowsOf header.now rows.old }
    requires none { rows.old.builder.table.rows ≡ [] }
    ensures read { IsTableEnd (read_on header.now rows.old (drop from bytes.now)) bytes.now rows.new.builder.table result }
    ensures few { OnOk result (rows.new.builder.table.controls ≤ 2 ^ 20) }
{
    let mut at = from;
    for number in 0..header.rows {
        at = read_line(bytes, at, header, number, rows)?;
    }
    Ok(at)
}
