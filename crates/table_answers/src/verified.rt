//! The comparison of a stored table with the table of the mesh before it.

ghost use Rattle.std.specs.Prelude.{◌≡◌, ℕ, ◌^◌, ◌≤◌, List, [], length, drop, Ok, IfOk};
ghost use Rattle.far_model.specs.Command.{Verify};
ghost use Rattle.far_text.specs.declared.reply.Reply.TheVariants.{Agreement};
ghost use Rattle.ratio128.specs.StepsTaken.{StepsTaken};
ghost use Rattle.subdiv_model.specs.ReadTable.{read_table};
ghost use Rattle.mesh_answers.specs.StepCounts.{level_faces_to};
ghost use Rattle.table_answers.specs.Answers.{IsAnswerOf, IsOwnTable, IsStoredAnswer, IsStoredTable, compared, text_mesh};

use crate::place::place_of_table;
use far_fault::{FarFault, TableCause};
use far_text::Reply;
use mesh_answers::{compose, mesh_of_text};
use ratio128::Steps;
use std::alloc::Global;
use std::sync::ledger::Ledger;
use stencil_apply::StencilTable;
use table_file::{ReadTable, TableReadFault, first_difference, read_table};

// The table of the mesh of an OBJ text at a depth.
fn own_table<L: Ledger>(
    alloc: Global,
    text: &[u8],
    depth: u32,
    steps: &mut Steps<L>,
) -> Result<StencilTable, FarFault>
    requires depth { depth ≤ 10 }
    requires short { length text.now ≤ 2 ^ 28 }
    ensures own { IsOwnTable text.now depth result }
    ensures steps { StepsTaken result steps.old steps.new 0 (level_faces_to depth (text_mesh text.now)) }
{
    let mesh = mesh_of_text(alloc, text, 0)?;
    let composed = compose(alloc, &mesh, depth, steps)?;
    // The prover proves a named drop once for each type.
    drop(composed.level);
    Ok(composed.table)
}

// The table read from the beginning of a text, or the fault if bytes follow it.
fn whole_table(read: ReadTable, len: usize, lines: u32) -> Result<StencilTable, FarFault>
    requires few { lines ≤ 2 ^ 28 }
    ensures { (text : List ℕ) → length text ≡ len → read.end ≤ len
        → read_table text ≡ Ok (record { table = read.table; rest = drop read.end text }) → IsStoredTable text lines result }
{
    let end = read.end();
    let table = read.into_table();
    if end == len {
        return Ok(table);
    }
    let line = lines + table.rows() + 2;
    // The prover proves a named drop once for each type.
    drop(table);
    Err(FarFault::Table {
        line,
        cause: TableCause::Form,
    })
}

// The table whose text these bytes are, after the lines of the mesh.
fn stored_table(alloc: Global, text: &[u8], lines: u32) -> Result<StencilTable, FarFault>
    requires short { length text.now ≤ 2 ^ 28 }
    requires few { lines ≤ 2 ^ 28 }
    ensures { IsStoredTable text.now lines result }
{
    match read_table(alloc, text) {
        Ok(read) => whole_table(read, text.len(), lines),
        Err(TableReadFault::Table { line, cause }) => Err(FarFault::Table {
            line: lines + line,
            cause,
        }),
        Err(TableReadFault::Memory) => Err(FarFault::Memory),
    }
}

// The answer of the comparison of a stored table with the table of the mesh.
fn compare(stored: &StencilTable, own: &StencilTable) -> Result<Reply, FarFault>
    ensures answer { IsAnswerOf (compared stored.now own.now) result }
    ensures rows { IfOk result (λ reply. reply ≡ Agreement (length own.now.rows)) }
{
    match first_difference(stored, own) {
        None => Ok(Reply::Agreement { rows: own.rows() }),
        Some(row) => Err(FarFault::Differs { row }),
    }
}

// The answer of the comparison. The function drops both tables.
fn compare_and_drop(stored: StencilTable, own: StencilTable) -> Result<Reply, FarFault>
    ensures answer { IsAnswerOf (compared stored own) result }
    ensures rows { IfOk result (λ reply. reply ≡ Agreement (length own.rows)) }
{
    let answer = compare(&stored, &own);
    // The prover proves a named drop once for each type.
    drop(stored);
    drop(own);
    answer
}

/// Compares the stored table of an input with the table of the mesh before it, at a depth of at most 10. The input has at most 2^28
/// bytes: an OBJ text, and the text of a table from the first line whose first word is `table`. If both tables agree, the reply has their
/// number of rows. The call counts at most one step for each face of the levels from 0 to the depth.
///
/// Errors, in this order; `Memory` may come at any time. Lines are counted from 1 over the whole input.
///
/// - `Obj`: the first bad line of the mesh text, and its cause; else an error of [`stencils`](mesh_answers::stencils);
/// - `Table`: the first bad line of the table, and its cause; `Form` at the line behind the last one if no line begins with `table`;
/// - `Table` with `Form`: the line behind the table, if bytes follow its text;
/// - `Differs`: the first row, counted from 0, that differs or is missing in one table; 0 if the numbers of control points differ.
pub fn verify<L: Ledger>(
    alloc: Global,
    bytes: &[u8],
    depth: u32,
    steps: &mut Steps<L>,
) -> Result<Reply, FarFault>
    requires depth { depth ≤ 10 }
    requires short { length bytes.now ≤ 2 ^ 28 }
    ensures { IsStoredAnswer (Verify depth) bytes.now result steps.old steps.new }
{
    let place = place_of_table(bytes);
    let own = own_table(alloc, &bytes[..place.start], depth, steps)?;
    let stored = stored_table(alloc, &bytes[place.start..], place.lines)?;
    compare_and_drop(stored, own)
}
