//! The text of a table.

ghost use Rattle.std.specs.Prelude.{◌≡◌, ◌<◌, ◌∷◌, false, length};
ghost use Rattle.std.specs.List.{flat_map, zip};
ghost use Rattle.subdiv_model.specs.NumberText.{number_text};
ghost use Rattle.subdiv_model.specs.TableText.{table_line, row_text, text_of_table};
ghost use Rattle.number_width.specs.Numbers.{numbers_in};
ghost use Rattle.stencil_apply.specs.Table.{row_at, entries_of};
ghost use Rattle.obj_out.specs.Puts.{Puts};
ghost use Rattle.table_file.specs.Shares.{share_text};

use far_io::{Sink, WriteFailed};
use number_width::NumberSlice;
use obj_out::Out;
use stencil_apply::StencilTable;

// Writes the first line of a table, from its counts.
fn put_first_line<K: Sink>(
    out: &mut Out<'_, K>,
    controls: u64,
    rows: u64,
    entries: u64,
) -> Result<(), WriteFailed>
    ensures { Puts K.Sink out.old out.new (table_line controls rows entries) result }
{
    out.put_count(b"table controls", controls)?;
    out.put_count(b" rows", rows)?;
    out.put_count(b" entries", entries)?;
    out.put_byte(b'\n')
}

// Writes the number of control points, rows and entries of a table.
fn put_counts<K: Sink>(table: &StencilTable, out: &mut Out<'_, K>) -> Result<(), WriteFailed>
    ensures { Puts K.Sink out.old out.new (table_line table.now.controls (length table.now.rows) (entries_of table.now.rows)) result }
{
    put_first_line(
        out,
        table.controls() as u64,
        table.rows() as u64,
        table.entries(),
    )
}

// Writes a control point, counted from 0, after a space.
fn put_control<K: Sink>(out: &mut Out<'_, K>, control: u32) -> Result<(), WriteFailed>
    ensures { Puts K.Sink out.old out.new (32 ∷ number_text control) result }
{
    out.put_number_after(b' ', control as u64)
}

// Writes a control point with its numerator, each after a space.
fn put_share<K: Sink>(
    out: &mut Out<'_, K>,
    control: u32,
    numerator: u128,
) -> Result<(), WriteFailed>
    ensures { Puts K.Sink out.old out.new (share_text (control, numerator)) result }
{
    put_control(out, control)?;
    out.put_wide_after(b' ', numerator)
}

// Writes control points, each with its numerator.
fn put_shares<K: Sink>(
    out: &mut Out<'_, K>,
    indices: &[u32],
    numerators: &NumberSlice<'_>,
) -> Result<(), WriteFailed>
    requires fine { out.old.failed ≡ false }
    requires equal { length (numbers_in numerators.now) ≡ length indices.now }
    ensures { Puts K.Sink out.old out.new (flat_map share_text (zip indices.now (numbers_in numerators.now))) result }
{
    for at in 0..indices.len() {
        put_share(out, indices[at], numerators.get(at))?;
    }
    Ok(())
}

// Writes the denominator of a row, after a space.
fn put_denominator<K: Sink>(
    table: &StencilTable,
    row: u32,
    out: &mut Out<'_, K>,
) -> Result<(), WriteFailed>
    requires inside { row < length table.now.rows }
    ensures { Puts K.Sink out.old out.new (32 ∷ number_text (row_at table.now row).den) result }
{
    out.put_wide_after(b' ', table.denominator(row))
}

// Writes the line of a row.
fn put_row<K: Sink>(table: &StencilTable, row: u32, out: &mut Out<'_, K>) -> Result<(), WriteFailed>
    requires inside { row < length table.now.rows }
    ensures { Puts K.Sink out.old out.new (row_text (row_at table.now row)) result }
{
    out.put_byte(b's')?;
    put_denominator(table, row, out)?;
    put_shares(out, table.row_indices(row), &table.row_numerators(row))?;
    out.put_byte(b'\n')
}

// Writes a line for each row.
fn put_rows<K: Sink>(table: &StencilTable, out: &mut Out<'_, K>) -> Result<(), WriteFailed>
    requires fine { out.old.failed ≡ false }
    ensures { Puts K.Sink out.old out.new (flat_map row_text table.now.rows) result }
{
    for row in 0..table.rows() {
        put_row(table, row, out)?;
    }
    Ok(())
}

/// Writes the text of a table. Its first line contains the number of control points, rows and entries. Each row follows as a
/// line: its denominator, then each of its control points, counted from 0, and its numerator.
///
/// Reports `WriteFailed` where the sink fails; a prefix of the text is written then. The call takes no memory.
pub fn put_table<K: Sink>(table: &StencilTable, out: &mut Out<'_, K>) -> Result<(), WriteFailed>
    requires fine { out.old.failed ≡ false }
    ensures { Puts K.Sink out.old out.new (text_of_table table.now) result }
{
    put_counts(table, out)?;
    put_rows(table, out)
}
