//! A stored table evaluated over the points of the text behind it.

ghost use Rattle.std.specs.Prelude.{◌≡◌, ◌^◌, ◌≤◌, length, Err, IfOk, IsOkAnd, MatchResult};
ghost use Rattle.far_model.specs.Command.{Apply};
ghost use Rattle.far_model.specs.Stored.{evaluation_fault};
ghost use Rattle.far_fault.specs.View.{fault_of};
ghost use Rattle.far_text.specs.declared.reply.Reply.TheVariants as variant;
ghost use Rattle.subdiv_model.specs.ReadObj.{read_obj_mesh};
ghost use Rattle.mesh_answers.specs.Refusals.{IsFound};
ghost use Rattle.ratio128.specs.StepsTaken.{StepsTaken};
ghost use Rattle.stencil_apply.specs.Table.{entries_of};
ghost use Rattle.table_answers.specs.Answers.{IsAnswerOf, IsControlMesh, IsEvaluable, IsFirstTable, IsOver, IsReplyOf, IsStoredAnswer, answer_behind, evaluated};

use channel_refine::evaluate;
use far_fault::{FarFault, Track};
use far_text::{Reply, TablePoints};
use mesh_answers::{fitting, most_of};
use obj_tags::{ObjFault, ReadFault, read_obj};
use ratio128::{Memory, Point3, Steps, Valued};
use raw_mesh::RawMesh;
use std::alloc::Global;
use std::sync::ledger::Ledger;
use stencil_apply::StencilTable;
use table_file::{ReadTable, TableReadFault, read_table};

// The table at the beginning of an input.
fn first_table(alloc: Global, bytes: &[u8]) -> Result<ReadTable, FarFault>
    requires { length bytes.now ≤ 2 ^ 28 }
    ensures { IsFirstTable bytes.now result }
{
    match read_table(alloc, bytes) {
        Ok(read) => Ok(read),
        Err(TableReadFault::Table { line, cause }) => Err(FarFault::Table { line, cause }),
        Err(TableReadFault::Memory) => Err(FarFault::Memory),
    }
}

// The mesh of the text behind the lines of a table.
fn mesh_behind(alloc: Global, table: &StencilTable, text: &[u8]) -> Result<RawMesh, FarFault>
    requires { length text.now ≤ 2 ^ 28 }
    ensures { IsControlMesh text.now table.now result }
{
    table.facts();
    let lines = table.rows() + 1;
    match read_obj(alloc, text, 0) {
        Ok(mesh) => Ok(mesh),
        Err(ReadFault::Obj(ObjFault { line, cause })) => Err(FarFault::Obj {
            line: lines + line,
            cause,
        }),
        Err(ReadFault::Memory) => Err(FarFault::Memory),
    }
}

// The table, if it can be evaluated over the points of a mesh, or the fault.
fn evaluable(table: StencilTable, mesh: &RawMesh) -> Result<StencilTable, FarFault>
    requires { length mesh.now.points ≤ 2 ^ 29 }
    ensures { MatchResult result
        (λ found. (found ≡ table) × IsEvaluable table mesh.now)
        (λ fault. IsFound (fault_of fault) (evaluation_fault table mesh.now)) }
{
    let count = mesh.points().len() as u32;
    if count != table.controls() {
        // The prover proves a named drop once for each type.
        drop(table);
        return Err(FarFault::Controls { count });
    }
    fitting(table, most_of(mesh), Track::Positions, 0)
}

// The reply with the points of a table, or the fault.
fn with_points(mesh: &RawMesh, values: Result<Vec<Valued<Point3>>, Memory>) -> Result<Reply, Memory>
    ensures { MatchResult values
        (λ values. IsOkAnd result (λ reply. reply ≡ variant.Points (record { values = values; common = mesh.now.common })))
        (λ fault. result ≡ Err fault) }
{
    let common = mesh.scale();
    values.map(|values| Reply::Points(TablePoints { values, common }))
}

// The reply with the points of a table, evaluated over those of a mesh.
fn points_reply<L: Ledger>(
    alloc: Global,
    table: StencilTable,
    mesh: &RawMesh,
    steps: &mut Steps<L>,
) -> Result<Reply, Memory>
    requires { IsEvaluable table mesh.now }
    ensures reply { IfOk result (λ reply. IsReplyOf (evaluated table mesh.now) reply) }
    ensures over { IfOk result (IsOver table mesh.now) }
    ensures steps { StepsTaken result steps.old steps.new (entries_of table.rows) (entries_of table.rows) }
{
    mesh.facts();
    let values = evaluate(alloc, &table, mesh.points(), steps);
    // The prover proves a named drop once for each type.
    drop(table);
    with_points(mesh, values)
}

// The answer of a table over the points of a mesh.
fn table_points<L: Ledger>(
    alloc: Global,
    table: StencilTable,
    mesh: &RawMesh,
    steps: &mut Steps<L>,
) -> Result<Reply, FarFault>
    requires { length mesh.now.points ≤ 2 ^ 29 }
    ensures reply { IsAnswerOf (evaluated table mesh.now) result }
    ensures over { IfOk result (IsOver table mesh.now) }
    ensures steps { StepsTaken result steps.old steps.new (entries_of table.rows) (entries_of table.rows) }
{
    let table = evaluable(table, mesh)?;
    Ok(points_reply(alloc, table, mesh, steps)?)
}

// The answer for an input that begins with a table and ends with an OBJ text.
fn answer_read<L: Ledger>(
    alloc: Global,
    read: ReadTable,
    text: &[u8],
    steps: &mut Steps<L>,
) -> Result<Reply, FarFault>
    requires { length text.now ≤ 2 ^ 28 }
    ensures reply { IsAnswerOf (answer_behind read.table text.now) result }
    ensures over { IfOk result (IsOver read.table (read_obj_mesh text.now 0)) }
    ensures steps { StepsTaken result steps.old steps.new (entries_of read.table.rows) (entries_of read.table.rows) }
{
    let table = read.into_table();
    let mesh = mesh_behind(alloc, &table, text)?;
    table_points(alloc, table, &mesh, steps)
}

/// Returns the points of a stored table over the points of the text behind it. The input has at most 2^28 bytes: the text of a table,
/// then an OBJ text, whose faces need not form a manifold. The reply has a point for each row, over the row's denominator times the
/// common one of the text. The call counts exactly one step for each entry of the table if it returns a reply, else at most that.
///
/// Errors, in this order; `Memory` may come at any time. Lines are counted from 1 over the whole input.
///
/// - `Table`: the first bad line of the table, and its cause;
/// - `Obj`: the first bad line of the OBJ text, and its cause;
/// - `Controls`: the number of points of the OBJ text, if the table has another number of control points;
/// - `Overflow` of the positions at level 0 and `Value`: a numerator can pass its bound.
pub fn apply<L: Ledger>(
    alloc: Global,
    bytes: &[u8],
    steps: &mut Steps<L>,
) -> Result<Reply, FarFault>
    requires { length bytes.now ≤ 2 ^ 28 }
    ensures { IsStoredAnswer Apply bytes.now result steps.old steps.new }
{
    let read = first_table(alloc, bytes)?;
    let end = read.end();
    answer_read(alloc, read, &bytes[end..], steps)
}
