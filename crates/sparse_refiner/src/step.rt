//! The next sparse level, with its tables.

ghost use Rattle.std.specs.Prelude.{◌≡◌, ◌+◌, ◌<◌, map, IfOk};
ghost use Rattle.level_topology.specs.Child.{IsChild, child_of};
ghost use Rattle.level_topology.specs.ChildTables.{place_of};
ghost use Rattle.sparse_refiner.specs.Made.{ArePresent, IsNextLevel, IsNextStep, origins_in, places_in, points_in, selected_by};

use crate::places::PresentPlaces;
use level_topology::{Child, Level};
use ratio128::Memory;
use sparse_level::{NumberedPoints, SparseLevel, SparseStep, put_inner, put_numbers, put_origins};
use std::alloc::Global;

// Returns the number of steps to the next level.
fn next_depth(sparse: &SparseLevel) -> u32
    requires { sparse.now.depth < 10 }
    ensures { result ≡ sparse.now.depth + 1 }
{
    sparse.depth() + 1
}

// Joins the next level with the origins of its points and faces.
fn join(
    alloc: Global,
    sparse: &SparseLevel,
    present: &PresentPlaces,
    points: &NumberedPoints,
    next: Level,
) -> Result<Child, Memory>
    requires present { ArePresent sparse.now present.now }
    requires points { points.now ≡ points_in sparse.now.topology (selected_by present.now) }
    requires next { IsNextLevel sparse.now.topology (selected_by present.now) next }
    ensures { IfOk result (λ child. child ≡ child_of sparse.now.topology next (origins_in sparse.now.topology (selected_by present.now)) (places_in sparse.now.topology (selected_by present.now))) }
{
    let level = sparse.level();
    level.facts();
    next.facts();
    let origins = put_origins(alloc, level, points.points())?;
    Child::join(alloc, level, next, &origins, &present.places)
}

/// Returns the step to the next level of these places and points.
pub(crate) fn step_of(
    alloc: Global,
    sparse: &SparseLevel,
    present: PresentPlaces,
    points: &NumberedPoints,
    next: Level,
) -> Result<SparseStep, Memory>
    requires depth { sparse.now.depth < 10 }
    requires present { ArePresent sparse.now present }
    requires points { points.now ≡ points_in sparse.now.topology (selected_by present) }
    requires next { IsNextLevel sparse.now.topology (selected_by present) next }
    ensures step { IfOk result (IsNextStep sparse.now (selected_by present)) }
    ensures selected { IfOk result (λ step. step.selected ≡ present.selected.items) }
{
    sparse.facts();
    sparse.level().facts();
    let numbers = put_numbers(alloc, sparse, &present.places)?;
    let inner = put_inner(alloc, &present.selected, &present.places)?;
    next.facts();
    let child = join(alloc, sparse, &present, points, next)?;
    let depth = next_depth(sparse);
    Ok(SparseStep::of(child, present.selected, numbers, inner, depth))
}
