//! The limit points of a mesh at a depth.

ghost use Rattle.std.specs.Prelude.{◌≡◌, ◌≤◌, true, length, Ok, Err, IfOk, IsOkAnd, IsErrAnd, MatchResult};
ghost use Rattle.far_model.specs.Command.{Limit, IsReadInRange};
ghost use Rattle.far_fault.specs.View.{fault_of};
ghost use Rattle.far_words.specs.View.{limit_of_code};
ghost use Rattle.ratio128.specs.StepsTaken.{StepsTaken};
ghost use Rattle.mesh_answers.specs.Limits.{AreLimitRows, HasShortLimits, IsLimitComposition, limit_fault_of, limit_refusal, limit_reply};
ghost use Rattle.mesh_answers.specs.Refusals.{IsFound};
ghost use Rattle.mesh_answers.specs.Replies.{IsAnswerTo, IsReplyTo};
ghost use Rattle.mesh_answers.specs.StepCounts.{level_faces_to, limit_steps};
ghost use Rattle.mesh_answers.specs.Tables.{IsComposedOf};

use crate::scales::fitting;
use crate::table::compose;
use crate::tracks::most_of;
use channel_refine::{ComposedChannel, evaluate};
use far_fault::{FarFault, LimitCause, OverflowKind, Track};
use far_text::{MeshForm, RefinedMesh, Reply};
use far_words::LimitOptions;
use level_topology::{Counted, Level};
use limit_stencils::{QuadFault, denominator_bound, limit_points_of_quads, limit_table_of_quads};
use ratio128::{Memory, Point3, Steps, Valued, times_within};
use raw_mesh::RawMesh;
use std::alloc::Global;
use std::sync::ledger::Ledger;
use stencil_apply::StencilTable;

// The greatest signed 64-bit number.
const WORD_BOUND: u128 = (1 << 63) - 1;

// The fault of a run for a fault of the table of limit points at a depth.
fn limit_fault(fault: QuadFault, depth: u32) -> FarFault
    ensures { fault_of result ≡ limit_fault_of depth fault }
{
    match fault {
        QuadFault::Dart(v) => FarFault::Limit(LimitCause::Dart(v)),
        QuadFault::SemiSharp(v) => FarFault::Limit(LimitCause::SemiSharp(v)),
        QuadFault::Denominator(_) => FarFault::Overflow {
            track: Track::LimitRows,
            level: depth,
            kind: OverflowKind::Denominator,
        },
        QuadFault::TooManyEntries => FarFault::TooLarge(Counted::LimitEntries),
        QuadFault::Memory => FarFault::Memory,
    }
}

// The table of the limit points of a level, over the points of the mesh.
fn limit_table(
    alloc: Global,
    mesh: &RawMesh,
    composed: &ComposedChannel,
    depth: u32,
) -> Result<StencilTable, FarFault>
    requires depth { 1 ≤ depth }
    requires composed { IsComposedOf mesh.now depth composed.now }
    ensures { MatchResult result
        (λ table. AreLimitRows mesh.now depth (record { level = composed.now.level; table = table }))
        (λ fault. IsFound (fault_of fault) (limit_refusal depth mesh.now)) }
{
    match limit_table_of_quads(alloc, &composed.level, &composed.table) {
        Ok(table) => fitting(table, most_of(mesh), Track::LimitRows, depth),
        Err(fault) => Err(limit_fault(fault, depth)),
    }
}

// A level with its table, or the fault.
fn with_table(
    level: Level,
    table: Result<StencilTable, FarFault>,
) -> Result<ComposedChannel, FarFault>
    ensures { MatchResult table
        (λ table. IsOkAnd result (λ limits. limits ≡ record { level = level; table = table }))
        (λ fault. result ≡ Err fault) }
{
    table.map(|table| ComposedChannel { level, table })
}

// The level of a mesh at a depth with the table of its limit points.
fn limit_level(
    alloc: Global,
    mesh: &RawMesh,
    composed: ComposedChannel,
    depth: u32,
) -> Result<ComposedChannel, FarFault>
    requires depth { 1 ≤ depth }
    requires composed { IsComposedOf mesh.now depth composed }
    ensures { IsLimitComposition mesh.now depth result }
{
    let limits = limit_table(alloc, mesh, &composed, depth);
    // The prover proves a named drop once for each type.
    drop(composed.table);
    with_table(composed.level, limits)
}

/// Returns the level of a mesh at `depth`, from 1 to 10, with the table of its limit points over the control points. The call counts at
/// most one step for each face of the levels from 0 to `depth`.
///
/// [`limit`] lists the errors.
pub fn compose_limits<L: Ledger>(
    alloc: Global,
    mesh: &RawMesh,
    depth: u32,
    steps: &mut Steps<L>,
) -> Result<ComposedChannel, FarFault>
    requires at_least { 1 ≤ depth }
    requires at_most { depth ≤ 10 }
    ensures limits { IsLimitComposition mesh.now depth result }
    ensures steps { StepsTaken result steps.old steps.new 0 (level_faces_to depth mesh.now) }
{
    let composed = compose(alloc, mesh, depth, steps)?;
    limit_level(alloc, mesh, composed, depth)
}

// The reply with a level and its points, or the fault.
fn with_points<E: Drop>(
    mesh: &RawMesh,
    options: &LimitOptions,
    level: Level,
    values: Result<Vec<Valued<Point3>>, E>,
) -> Result<Reply, E>
    ensures { MatchResult values
        (λ values. IsOkAnd result (λ reply. reply ≡ limit_reply mesh.now options.now.decimals level values))
        (λ fault. result ≡ Err fault) }
{
    let common = mesh.scale();
    let form = MeshForm {
        decimals: options.decimals,
        tags: false,
    };
    values.map(|values| {
        let refined = RefinedMesh {
            level,
            values,
            common,
            texture: None,
        };
        Reply::Refined(refined, form)
    })
}

// The reply with the limit points of a level. The function evaluates their table over the points of the mesh.
fn limit_reply<L: Ledger>(
    alloc: Global,
    mesh: &RawMesh,
    limits: ComposedChannel,
    options: &LimitOptions,
    steps: &mut Steps<L>,
) -> Result<Reply, Memory>
    requires range { IsReadInRange (Limit (limit_of_code options.now)) }
    requires limits { AreLimitRows mesh.now options.now.depth limits }
    ensures reply { IfOk result (λ reply. IsReplyTo (Limit (limit_of_code options.now)) mesh.now reply) }
    ensures steps { StepsTaken result steps.old steps.new (limit_steps options.now.depth mesh.now) (limit_steps options.now.depth mesh.now) }
{
    mesh.facts();
    let values = evaluate(alloc, &limits.table, mesh.points(), steps);
    // The prover proves a named drop once for each type.
    drop(limits.table);
    with_points(mesh, options, limits.level, values)
}

// Whether one bound shows that the limit points of a level fit 64 bits, with their denominators.
fn has_short_limits(mesh: &RawMesh, composed: &ComposedChannel) -> bool
    requires { length composed.now.table.rows ≡ composed.now.level.level.point_count }
    ensures { result ≡ true → HasShortLimits mesh.now composed.now }
{
    match denominator_bound(&composed.level, &composed.table) {
        Some(bound) => times_within(bound, most_of(mesh), WORD_BOUND).is_some(),
        None => false,
    }
}

// The limit points, or the fault of a run at a depth.
fn points_or_fault(
    values: Result<Vec<Valued<Point3>>, QuadFault>,
    depth: u32,
) -> Result<Vec<Valued<Point3>>, FarFault>
    ensures { MatchResult values
        (λ values. result ≡ Ok values)
        (λ fault. IsErrAnd result (λ found. fault_of found ≡ limit_fault_of depth fault)) }
{
    match values {
        Ok(values) => Ok(values),
        Err(fault) => Err(limit_fault(fault, depth)),
    }
}

// The reply with the limit points of a level, where they fit 64 bits. The function makes no table of them.
fn short_reply<L: Ledger>(
    alloc: Global,
    mesh: &RawMesh,
    composed: ComposedChannel,
    options: &LimitOptions,
    steps: &mut Steps<L>,
) -> Result<Reply, FarFault>
    requires range { IsReadInRange (Limit (limit_of_code options.now)) }
    requires composed { IsComposedOf mesh.now options.now.depth composed }
    requires short { HasShortLimits mesh.now composed }
    ensures reply { MatchResult result
        (λ reply. IsReplyTo (Limit (limit_of_code options.now)) mesh.now reply)
        (λ fault. IsFound (fault_of fault) (limit_refusal options.now.depth mesh.now)) }
    ensures steps { StepsTaken result steps.old steps.new (limit_steps options.now.depth mesh.now) (limit_steps options.now.depth mesh.now) }
{
    mesh.facts();
    let values = limit_points_of_quads(
        alloc,
        &composed.level,
        &composed.table,
        mesh.points(),
        steps,
    );
    // The prover proves a named drop once for each type.
    drop(composed.table);
    with_points(
        mesh,
        options,
        composed.level,
        points_or_fault(values, options.depth),
    )
}

/// Returns the level of a mesh at a depth from 1 to 10, with the limit point of each of its points. The reply writes coordinates as
/// fractions in lowest terms, or rounded to at most 18 decimals. It has no texture and no tags.
///
/// The call counts one step for each entry of the rows of limit points. It adds at most one for each face of the levels from 0 to the
/// depth.
///
/// Errors, in this order; `Memory` may come at any time:
///
/// - the errors of [`stencils`], for the positions;
/// - `Limit`: the least point of the level without a limit point, and the cause;
/// - `Overflow` of `LimitRows` and `Denominator`: the common denominator of a limit point passes its bound;
/// - `TooLarge`: the table of the limit points has more than 2^27 entries;
/// - `Overflow` of `LimitRows` and `Value`: a numerator can pass its bound.
pub fn limit<L: Ledger>(
    alloc: Global,
    mesh: &RawMesh,
    options: &LimitOptions,
    steps: &mut Steps<L>,
) -> Result<Reply, FarFault>
    requires { IsReadInRange (Limit (limit_of_code options.now)) }
    ensures { IsAnswerTo (Limit (limit_of_code options.now)) mesh.now result steps.old steps.new }
{
    let composed = compose(alloc, mesh, options.depth, steps)?;
    if has_short_limits(mesh, &composed) {
        return short_reply(alloc, mesh, composed, options, steps);
    }
    let limits = limit_level(alloc, mesh, composed, options.depth)?;
    Ok(limit_reply(alloc, mesh, limits, options, steps)?)
}
