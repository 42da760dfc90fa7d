//! The patch of a face of a level.

ghost use Rattle.std.specs.Prelude.{◌≡◌, length, Err, IfOk, IsOkAnd, MatchResult};
ghost use Rattle.far_model.specs.Command.{Patch, IsReadInRange};
ghost use Rattle.far_fault.specs.View.{fault_of};
ghost use Rattle.far_words.specs.View.{patch_of_code};
ghost use Rattle.ratio128.specs.StepsTaken.{StepsTaken};
ghost use Rattle.mesh_answers.specs.Patches.{ArePatchRows, IsPatchComposition, patch_fault_of, patch_reply};
ghost use Rattle.mesh_answers.specs.Replies.{IsAnswerTo, IsReplyTo};
ghost use Rattle.mesh_answers.specs.StepCounts.{level_faces_to, patch_steps};
ghost use Rattle.mesh_answers.specs.Tables.{IsComposedOf};

use crate::scales::fitting;
use crate::table::compose;
use crate::tracks::most_of;
use channel_refine::{ComposedChannel, evaluate};
use far_fault::{FarFault, OverflowKind, PlaceFault, Track};
use far_text::{PatchPoints, Reply};
use far_words::PatchOptions;
use level_topology::Counted;
use patch_bspline::{PatchFault, patch_table};
use ratio128::{Memory, Point3, Steps, Valued};
use raw_mesh::RawMesh;
use std::alloc::Global;
use std::sync::ledger::Ledger;
use stencil_apply::StencilTable;

// The fault of a run for a fault of the rows of a patch, on a level with this number of faces.
fn patch_fault(fault: PatchFault, count: u32, options: &PatchOptions) -> FarFault
    ensures { fault_of result ≡ patch_fault_of count (patch_of_code options.now) fault }
{
    match fault {
        PatchFault::NoFace => FarFault::Place(PlaceFault::NoFace { count }),
        PatchFault::NotRegular => FarFault::Place(PlaceFault::NotRegular { face: options.face }),
        PatchFault::Denominator(_) => FarFault::Overflow {
            track: Track::Patch,
            level: options.depth,
            kind: OverflowKind::Denominator,
        },
        PatchFault::TooManyEntries => FarFault::TooLarge(Counted::PatchEntries),
        PatchFault::Memory => FarFault::Memory,
    }
}

// The rows of the patch of a face, over the points of the mesh.
fn patch_rows(
    alloc: Global,
    mesh: &RawMesh,
    composed: &ComposedChannel,
    options: &PatchOptions,
) -> Result<StencilTable, FarFault>
    requires range { IsReadInRange (Patch (patch_of_code options.now)) }
    requires composed { IsComposedOf mesh.now options.now.depth composed.now }
    ensures { IsPatchComposition (patch_of_code options.now) mesh.now result }
{
    match patch_table(
        alloc,
        &composed.level,
        &composed.table,
        options.face,
        options.grid,
    ) {
        Ok(table) => fitting(table, most_of(mesh), Track::Patch, options.depth),
        Err(fault) => Err(patch_fault(fault, composed.level.faces(), options)),
    }
}

// The rows of the patch, from the level and the table of its points. The function drops both.
fn rows_from(
    alloc: Global,
    mesh: &RawMesh,
    composed: ComposedChannel,
    options: &PatchOptions,
) -> Result<StencilTable, FarFault>
    requires range { IsReadInRange (Patch (patch_of_code options.now)) }
    requires composed { IsComposedOf mesh.now options.now.depth composed }
    ensures { IsPatchComposition (patch_of_code options.now) mesh.now result }
{
    let rows = patch_rows(alloc, mesh, &composed, options);
    // The prover proves a named drop once for each type.
    drop(composed);
    rows
}

/// Returns the rows of the patch of a face of a mesh's level at a depth, over the control points of the mesh. Row `j * (grid + 1) + i`
/// gives the point at i/grid from corner 0 towards corner 1 and j/grid towards corner 3. Rows and corners are counted from 0.
///
/// The depth is at most 10. The face is counted from 0 and is below 2^22. The grid has 1 to 64 steps along each side. The call counts at
/// most one step for each face of the levels from 0 to the depth.
///
/// [`patch`] lists the errors.
pub fn compose_patch<L: Ledger>(
    alloc: Global,
    mesh: &RawMesh,
    options: &PatchOptions,
    steps: &mut Steps<L>,
) -> Result<StencilTable, FarFault>
    requires { IsReadInRange (Patch (patch_of_code options.now)) }
    ensures rows { IsPatchComposition (patch_of_code options.now) mesh.now result }
    ensures steps { StepsTaken result steps.old steps.new 0 (level_faces_to options.now.depth mesh.now) }
{
    let composed = compose(alloc, mesh, options.depth, steps)?;
    rows_from(alloc, mesh, composed, options)
}

// The reply with the points of a patch, or the fault.
fn with_places(
    mesh: &RawMesh,
    options: &PatchOptions,
    values: Result<Vec<Valued<Point3>>, Memory>,
) -> Result<Reply, Memory>
    ensures { MatchResult values
        (λ values. IsOkAnd result (λ reply. reply ≡ patch_reply mesh.now options.now.face options.now.grid values))
        (λ fault. result ≡ Err fault) }
{
    let common = mesh.scale();
    let PatchOptions { face, grid, .. } = *options;
    values.map(|values| {
        Reply::Patch(PatchPoints {
            face,
            grid,
            values,
            common,
        })
    })
}

// The reply with the points of a patch. The function evaluates its rows over the points of the mesh.
fn patch_reply<L: Ledger>(
    alloc: Global,
    mesh: &RawMesh,
    rows: StencilTable,
    options: &PatchOptions,
    steps: &mut Steps<L>,
) -> Result<Reply, Memory>
    requires { ArePatchRows (patch_of_code options.now) mesh.now rows }
    ensures reply { IfOk result (λ reply. IsReplyTo (Patch (patch_of_code options.now)) mesh.now reply) }
    ensures steps { StepsTaken result steps.old steps.new (patch_steps (patch_of_code options.now) mesh.now) (patch_steps (patch_of_code options.now) mesh.now) }
{
    mesh.facts();
    let values = evaluate(alloc, &rows, mesh.points(), steps);
    // The prover proves a named drop once for each type.
    drop(rows);
    with_places(mesh, options, values)
}

/// Returns points of the limit surface on a face of a mesh's level at a depth: those at the places of a grid. The reply writes
/// coordinates as fractions in lowest terms.
///
/// The depth is at most 10. The face is counted from 0 and is below 2^22. The grid has 1 to 64 steps along each side. The call counts one
/// step for each entry of the rows of the patch. It adds at most one for each face of the levels from 0 to the depth.
///
/// Errors, in this order; `Memory` may come at any time:
///
/// - the errors of [`stencils`], for the positions;
/// - `Place` with `NoFace`: the level has no such face; it names the number of faces;
/// - `Place` with `NotRegular`: the face has no patch;
/// - `Overflow` of `Patch` and `Denominator`: the common denominator of a point of the patch passes its bound;
/// - `TooLarge`: the rows of the patch have more than 2^27 entries;
/// - `Overflow` of `Patch` and `Value`: a numerator can pass its bound.
pub fn patch<L: Ledger>(
    alloc: Global,
    mesh: &RawMesh,
    options: &PatchOptions,
    steps: &mut Steps<L>,
) -> Result<Reply, FarFault>
    requires { IsReadInRange (Patch (patch_of_code options.now)) }
    ensures { IsAnswerTo (Patch (patch_of_code options.now)) mesh.now result steps.old steps.new }
{
    let rows = compose_patch(alloc, mesh, options, steps)?;
    Ok(patch_reply(alloc, mesh, rows, options, steps)?)
}
