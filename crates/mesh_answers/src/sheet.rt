//! The summary of a sheet of the command `gen`.

ghost use Rattle.std.specs.Prelude.{◌≡◌, ◌+◌, ◌-◌, ◌<◌, ◌≤◌, length, get_or, MatchResult};
ghost use Rattle.far_model.specs.Command.{Gen, IsMakeInRange, ByTable};
ghost use Rattle.far_model.specs.Answer.{table_faults};
ghost use Rattle.stencil_apply.specs.Table.{entries_of, greatest_of};
ghost use Rattle.ratio128.specs.declared.valued.Valued as valued;
ghost use Rattle.ratio128.specs.declared.point.Point3 as point;
ghost use Rattle.ratio128.specs.StepsTaken.{StepsTaken};
ghost use Rattle.far_fault.specs.View.{fault_of};
ghost use Rattle.far_words.specs.View.{gen_of_code};
ghost use Rattle.mesh_answers.specs.Refusals.{refusal_by, IsFound};
ghost use Rattle.mesh_answers.specs.Replies.{IsMadeAnswer};
ghost use Rattle.mesh_answers.specs.StepCounts.{level_faces_to, position_steps};
ghost use Rattle.mesh_answers.specs.Tables.{IsComposedOf, IsSummaryOf};

use crate::table::compose;
use channel_refine::{ComposedChannel, evaluate};
use far_fault::FarFault;
use far_text::{Reply, Summary};
use far_words::GenOptions;
use ratio128::{Point3, Steps, Valued};
use raw_mesh::RawMesh;
use sheet_maker::laws::sheets_are_manifolds;
use sheet_maker::make_sheet;
use std::alloc::Global;
use std::sync::ledger::Ledger;

// The last value of a list.
fn last_of(values: &Vec<Valued<Point3>>) -> Valued<Point3>
    requires { 0 < length values.now.items }
    ensures { (none : valued.Valued point.Point3) → result ≡ get_or values.now.items (length values.now.items - 1) none }
{
    values[values.len() - 1]
}

// The summary of a mesh, from its table at a depth and its last point there.
fn summary_of(
    mesh: &RawMesh,
    depth: u32,
    composed: &ComposedChannel,
    last: Valued<Point3>,
) -> Summary
    ensures points { result.points ≡ composed.now.table.controls }
    ensures faces { result.faces ≡ length mesh.now.faces }
    ensures depth { result.depth ≡ depth }
    ensures level_points { result.level_points ≡ composed.now.level.level.point_count }
    ensures level_faces { result.level_faces ≡ length composed.now.level.level.polygons }
    ensures entries { result.entries ≡ entries_of composed.now.table.rows }
    ensures greatest { result.greatest ≡ greatest_of composed.now.table }
    ensures last { result.last ≡ last }
{
    Summary {
        points: composed.table.controls(),
        faces: mesh.faces(),
        depth,
        level_points: composed.level.points(),
        level_faces: composed.level.faces(),
        entries: composed.table.entries(),
        greatest: composed.table.greatest(),
        last,
    }
}

// The summary of a mesh, from its table at a depth. The function evaluates the table over the points of the mesh.
fn summary_at<L: Ledger>(
    alloc: Global,
    mesh: &RawMesh,
    depth: u32,
    composed: &ComposedChannel,
    steps: &mut Steps<L>,
) -> Result<Summary, FarFault>
    requires composed { IsComposedOf mesh.now depth composed.now }
    requires whole { mesh.now.common ≡ 1 }
    requires some { 0 < length mesh.now.points }
    ensures summary { MatchResult result (λ summary. IsSummaryOf mesh.now depth summary)
        (λ fault. IsFound (fault_of fault) (refusal_by (table_faults depth mesh.now) mesh.now)) }
    ensures steps { StepsTaken result steps.old steps.new (position_steps ByTable depth mesh.now) (position_steps ByTable depth mesh.now) }
{
    let values = evaluate(alloc, &composed.table, mesh.points(), steps)?;
    Ok(summary_of(mesh, depth, composed, last_of(&values)))
}

/// Returns the summary of a sheet of `size` times `size` quads, refined by its table to a depth of at most 10. `size` is from 1 to 256.
/// The call counts one step for each entry of the table. It adds at most one for each face of the levels from 0 to the depth.
///
/// Errors, in this order; `Memory` may come at any time:
///
/// - `TooLarge`: the first level, counted from 1, that would have more than 2^22 faces, and their number;
/// - `Overflow` or `TooLarge`: the first level, counted from 1, at which a number or a count of the positions passes its bound.
///   [`stencils`] gives the order within a level.
pub fn generate<L: Ledger>(
    alloc: Global,
    options: &GenOptions,
    steps: &mut Steps<L>,
) -> Result<Reply, FarFault>
    requires { IsMakeInRange (Gen (gen_of_code options.now)) }
    ensures { IsMadeAnswer (Gen (gen_of_code options.now)) result steps.old steps.new }
{
    sheets_are_manifolds();
    let mesh = make_sheet(alloc, options.seed, options.size)?;
    let composed = compose(alloc, &mesh, options.depth, steps)?;
    let summary = summary_at(alloc, &mesh, options.depth, &composed, steps);
    // The prover proves a named drop once for each type.
    drop(composed);
    Ok(Reply::Sheet(summary?))
}
