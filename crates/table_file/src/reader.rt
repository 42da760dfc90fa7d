//! A stored table at the start of some bytes.

ghost use Rattle.std.specs.Prelude.{◌≡◌, ◌≤◌, ◌^◌, [], length, drop, MatchResult};
ghost use Rattle.subdiv_model.specs.ReadTable as model;
ghost use Rattle.table_file.specs.Read.{IsTableRead, IsReadUpTo, IsFaultOf};
ghost use Rattle.table_file.specs.Rows.{AreRowsOf, IsFirstRead, read_on};

use crate::fault::{TableCause, TableReadFault};
use crate::header::{Header, read_header};
use crate::line::line_at;
use crate::rows::{Rows, read_all, rows_for};
use std::alloc::Global;
use std::marker::Model;
use stencil_apply::StencilTable;

/// A table that was read, and the number of bytes of its text.
#[derive(Drop)]
pub struct ReadTable {
    table: StencilTable,
    end: usize,
}

impl Model for ReadTable {
    ghost use Rattle.std.specs.Prelude.{◌≤◌, ◌^◌};
    ghost use Rattle.table_file.specs.Read.{TableRead};

    ghost Value = { TableRead };

    ghost view = { λ r. record { table = r.table; end = r.end } };

    ghost invariant = { λ r. (r.table.controls ≤ 2 ^ 20) × (r.end ≤ 2 ^ 28) };
}

impl ReadTable {
    /// States the bounds of every table that was read to a proof; at run time it does nothing.
    pub fn facts(&self)
        ensures controls { self.now.table.controls ≤ 2 ^ 20 }
        ensures rows { length self.now.table.rows ≤ 2 ^ 27 }
        ensures end { self.now.end ≤ 2 ^ 28 }
    {
        self.table.facts();
    }

    /// Returns the number of bytes of the table's text.
    pub fn end(&self) -> usize
        ensures { result ≡ self.now.end }
    {
        self.end
    }

    /// Returns the table.
    pub fn table(&self) -> &StencilTable
        ensures { result.now ≡ self.now.table }
    {
        &self.table
    }

    /// Returns the table by value. The call takes no memory.
    pub fn into_table(self) -> StencilTable
        ensures { result ≡ self.table }
    {
        self.table
    }
}

// Reads the first line, and returns the start of the rows.
fn read_first(bytes: &[u8]) -> Result<(Header, usize), TableReadFault>
    ensures { MatchResult result (λ first. IsFirstRead bytes.now first.0 first.1) (λ fault. IsFaultOf (model.read_table bytes.now) fault) }
{
    let Some((line, next)) = line_at(bytes, 0) else {
        return Err(TableReadFault::Table {
            line: 1,
            cause: TableCause::Form,
        });
    };
    match read_header(line) {
        Ok(header) => Ok((header, next)),
        Err(cause) => Err(TableReadFault::Table { line: 1, cause }),
    }
}

// Reads the rows from a place on.
fn read_rest(
    bytes: &[u8],
    from: usize,
    header: &Header,
    mut rows: Rows,
) -> Result<ReadTable, TableReadFault>
    requires few { length bytes.now ≤ 2 ^ 28 }
    requires inside { from ≤ length bytes.now }
    requires good { AreRowsOf header.now rows }
    requires none { rows.builder.table.rows ≡ [] }
    ensures { let reading = read_on header.now rows (drop from bytes.now) in
        MatchResult result (λ found. IsReadUpTo reading bytes.now found.table found.end) (λ fault. IsFaultOf reading fault) }
{
    let end = read_all(bytes, from, header, &mut rows)?;
    Ok(ReadTable {
        table: rows.builder.finish(),
        end,
    })
}

/// Reads the table whose text begins the bytes. There are at most 2^28 bytes. The call does not read bytes after the text. It
/// reserves memory for the rows and entries of the first line, but for no more than the bytes can contain.
///
/// Reports [`TableReadFault::Table`] with the first bad line, counted from 1, and its cause. Reports
/// [`TableReadFault::Memory`] where memory runs out.
pub fn read_table(alloc: Global, bytes: &[u8]) -> Result<ReadTable, TableReadFault>
    requires { length bytes.now ≤ 2 ^ 28 }
    ensures { IsTableRead bytes.now result }
{
    let (header, from) = read_first(bytes)?;
    let rows = rows_for(alloc, &header, bytes.len() - from)?;
    read_rest(bytes, from, &header, rows)
}
