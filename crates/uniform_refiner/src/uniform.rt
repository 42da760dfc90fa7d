//! The next uniform level.

ghost use Rattle.std.specs.Prelude.{◌≡◌, ℕ, ◌+◌, ◌*◌, ◌^◌, ◌<◌, ◌≤◌, true, false, length, map, get_or, replicate, IfOk, MatchResult};
ghost use Rattle.std.specs.List.{sum_by};
ghost use Rattle.sharpness_rules.specs.View.{sharpness_of};
ghost use Rattle.subdiv_model.specs.Edges.{edges_of};
ghost use Rattle.subdiv_model.specs.Child.{child_level, child_points};
ghost use Rattle.level_topology.specs.ChildTables.{origin_of, place_of};
ghost use Rattle.child_slots.specs.Slots.{slot_count};
ghost use Rattle.child_slots.specs.Slotted.{no_slots};
ghost use Rattle.uniform_refiner.specs.Put.{HasAllHalves};
ghost use Rattle.uniform_refiner.specs.Numbered.{IsNumbered, IsRefinable};
ghost use Rattle.uniform_refiner.specs.Uniform.{IsUniform, all_places, origins_in};
ghost use Rattle.uniform_refiner.specs.Refined.{IsRefined, IsRefusal};

use crate::count::next_faces;
use crate::fault::RefineFault;
use crate::halves::put_halves;
use crate::level::{empty_rows, put_level};
use crate::numbering::number_all;
use crate::origins::{put_origins, put_places};
use child_slots::{SlotEdges, half_table, no_edges};
use level_topology::{Child, FacePlace, Level, Origin};
use ratio128::limits::FACE_LIMIT;
use ratio128::{Memory, Steps};
use sharpness_rules::Sharpness;
use std::alloc::Global;
use std::sync::ledger::Ledger;

// Joins the next uniform level and its tables.
fn join(
    alloc: Global,
    level: &Level,
    next: Level,
    origins: &[Origin],
    places: &[FacePlace],
) -> Result<Child, Memory>
    requires level { next.level ≡ child_level level.now.level }
    requires complete { next.complete ≡ replicate (child_points level.now.level.point_count level.now.level.polygons) true }
    requires origins { map origin_of origins.now ≡ origins_in level.now }
    requires places { map place_of places.now ≡ all_places 0 level.now.level.polygons }
    ensures { IfOk result (λ child. IsUniform level.now child) }
{
    level.facts();
    Child::join(alloc, level, next, origins, places)
}

// Returns the next uniform level and its tables, from its numbered edges and the origins of its points and faces. Each of its
// faces is one step.
fn refine_placed<L: Ledger>(
    alloc: Global,
    level: &Level,
    faces: u32,
    edges: &SlotEdges,
    halves: &[Sharpness],
    origins: &[Origin],
    places: &[FacePlace],
    steps: &mut Steps<L>,
) -> Result<Child, Memory>
    requires numbered { IsNumbered level.now edges.now (map sharpness_of halves.now) }
    requires faces { faces ≡ sum_by length level.now.level.polygons }
    requires origins { map origin_of origins.now ≡ origins_in level.now }
    requires places { map place_of places.now ≡ all_places 0 level.now.level.polygons }
    ensures child { IfOk result (λ child. IsUniform level.now child) }
    ensures steps { steps.new ≤ steps.old + sum_by length level.now.level.polygons }
    ensures later { steps.old ≤ steps.new }
{
    let empty = empty_rows(alloc, level, faces, edges)?;
    let next = put_level(alloc, level, edges, halves, empty, steps)?;
    join(alloc, level, next, origins, places)
}

// Returns the next uniform level and its tables, from its numbered edges. It finds the origins first, so that no level exists
// yet if memory runs out there.
fn refine_numbered<L: Ledger>(
    alloc: Global,
    level: &Level,
    faces: u32,
    edges: &SlotEdges,
    halves: &[Sharpness],
    places: &[FacePlace],
    steps: &mut Steps<L>,
) -> Result<Child, Memory>
    requires numbered { IsNumbered level.now edges.now (map sharpness_of halves.now) }
    requires faces { faces ≡ sum_by length level.now.level.polygons }
    requires places { map place_of places.now ≡ all_places 0 level.now.level.polygons }
    ensures child { IfOk result (λ child. IsUniform level.now child) }
    ensures steps { steps.new ≤ steps.old + sum_by length level.now.level.polygons }
    ensures later { steps.old ≤ steps.new }
{
    let origins = put_origins(alloc, level)?;
    refine_placed(alloc, level, faces, edges, halves, &origins, places, steps)
}

// Returns the next uniform level and its tables. `halves` has the sharpness of the half of each edge at each end, and no edge
// is numbered yet.
fn refine_with<L: Ledger>(
    alloc: Global,
    level: &Level,
    faces: u32,
    edges: &mut SlotEdges,
    halves: &[Sharpness],
    places: &[FacePlace],
    steps: &mut Steps<L>,
) -> Result<Child, Memory>
    requires refinable { IsRefinable level.now }
    requires faces { faces ≡ sum_by length level.now.level.polygons }
    requires none { edges.old ≡ no_slots (slot_count level.now.level.polygons) }
    requires halves { HasAllHalves level.now.level (map sharpness_of halves.now) }
    requires places { map place_of places.now ≡ all_places 0 level.now.level.polygons }
    ensures child { IfOk result (λ child. IsUniform level.now child) }
    ensures steps { steps.new ≤ steps.old + sum_by length level.now.level.polygons }
    ensures later { steps.old ≤ steps.new }
{
    number_all(level, places, edges)?;
    refine_numbered(alloc, level, faces, edges, halves, places, steps)
}

// Returns the next uniform level and its tables. `halves` has a place for the half of each edge at each end. Each new face is
// one step.
fn refine_small<L: Ledger>(
    alloc: Global,
    level: &Level,
    faces: u32,
    halves: &mut [Sharpness],
    steps: &mut Steps<L>,
) -> Result<Child, RefineFault>
    requires refinable { IsRefinable level.now }
    requires faces { faces ≡ sum_by length level.now.level.polygons }
    requires size { length halves.old ≡ 2 * length (edges_of level.now.level.polygons) }
    ensures refined { MatchResult result (IsRefined level.now) (IsRefusal level.now) }
    ensures steps { steps.new ≤ steps.old + sum_by length level.now.level.polygons }
    ensures later { steps.old ≤ steps.new }
{
    put_halves(alloc, level, halves)?;
    let places = put_places(alloc, level)?;
    let mut edges = no_edges(alloc, level)?;
    let child = refine_with(alloc, level, faces, &mut edges, halves, &places, steps)?;
    Ok(child)
}

/// Returns the next uniform level and its tables. The level has at most 2^29 points, and each of them is complete. Each face
/// of the next level is one step.
///
/// Reports `TooLarge` with the number of faces, before it makes anything, where the next level would have more than 2^22.
/// Reports `Chaikin` with the first vertex, counted from 0, at which halves of edges overflow. Reports `Memory` where memory
/// runs out.
pub fn refine<L: Ledger>(
    alloc: Global,
    level: &Level,
    steps: &mut Steps<L>,
) -> Result<Child, RefineFault>
    requires whole { (v : ℕ) → v < level.now.level.point_count → get_or level.now.complete v false ≡ true }
    requires short { level.now.level.point_count ≤ 2 ^ 29 }
    ensures refined { MatchResult result (IsRefined level.now) (IsRefusal level.now) }
    ensures steps { steps.new ≤ steps.old + sum_by length level.now.level.polygons }
    ensures later { steps.old ≤ steps.new }
    ensures early { 2 ^ 22 < sum_by length level.now.level.polygons → steps.new ≡ steps.old }
{
    let faces = next_faces(level);
    if faces > FACE_LIMIT {
        return Err(RefineFault::TooLarge(faces));
    }
    let mut halves = half_table(alloc, level)?;
    refine_small(alloc, level, faces as u32, &mut halves, steps)
}
