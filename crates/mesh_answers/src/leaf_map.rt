//! The leaves of the places of a face of a mesh.

ghost use Rattle.std.specs.Prelude.{◌≡◌, ◌≤◌, ◌<◌, length, IfOk, OnOk, Some, None};
ghost use Rattle.std.specs.Option.{option_map};
ghost use Rattle.feature_select.specs.Rule.{AnswersTest};
ghost use Rattle.mesh_check.specs.Checked.{IsAccepted};
ghost use Rattle.subdiv_model.specs.Leaf.{grid_pairs, location_faults};
ghost use Rattle.subdiv_model.specs.Lists.{first_of};
ghost use Rattle.subdiv_model.specs.ObjMesh.{ObjMesh};
ghost use Rattle.far_model.specs.Command.{Map, IsReadInRange};
ghost use Rattle.far_model.specs.Answer.{test_of};
ghost use Rattle.subdiv_model.specs.Fault.{Place};
ghost use Rattle.far_fault.specs.View.{place_fault_of};
ghost use Rattle.far_words.specs.View.{map_of_code};
ghost use Rattle.ratio128.specs.StepsTaken.{StepsTaken};
ghost use Rattle.mesh_answers.specs.Leaves.{AreLeavesAt, CanFind, HasRowLeaves, IsLevelMap, IsMapFor, map_level_refusal};
ghost use Rattle.mesh_answers.specs.Refusals.{IsFoundOr};
ghost use Rattle.mesh_answers.specs.Replies.{IsAnswerTo, IsReplyOr, IsReplyTo};
ghost use Rattle.mesh_answers.specs.StepCounts.{later_present};

use crate::level::level_0;
use far_fault::{FarFault, PlaceFault, Track, fault_of_walk};
use far_text::{MapLeaves, Reply};
use far_words::{MapOptions, Select};
use feature_select::{Every, FaceTest, Feature, SelectRule, is_feature, is_selectable};
use level_topology::{FaceFacts, Level};
use patch_map::{Leaf, PatchMap};
use ratio128::{Memory, Steps};
use raw_mesh::RawMesh;
use sparse_walk::map_sparse;
use std::alloc::Global;
use std::sync::ledger::Ledger;

// The fault of a face of level 0 with this corner. The face exists.
fn corner_fault(level: &Level, face: u32, corner: u32) -> Option<PlaceFault>
    requires { face < length level.now.level.polygons }
    ensures { option_map (λ fault. Place (place_fault_of fault)) result ≡ first_of (location_faults level.now.level face corner) }
{
    level.facts();
    let count = level.face_vertices(face).len() as u32;
    let fits = if count == 4 {
        corner == 0
    } else {
        corner < count
    };
    if !fits {
        return Some(PlaceFault::NoCorner { count });
    }
    if level.is_hole(face) {
        return Some(PlaceFault::IsHole { face });
    }
    None
}

// The fault of the places of a face of level 0 with this corner, if they have one.
fn face_fault(level: &Level, face: u32, corner: u32) -> Option<PlaceFault>
    ensures { option_map (λ fault. Place (place_fault_of fault)) result ≡ first_of (location_faults level.now.level face corner) }
{
    let count = level.faces();
    if face < count {
        corner_fault(level, face, corner)
    } else {
        Some(PlaceFault::NoFace { count })
    }
}

// Adds the leaves of the pairs (0, j) to (grid, j).
fn push_row(
    found: &PatchMap,
    options: &MapOptions,
    j: u32,
    leaves: &mut Vec<Leaf>,
) -> Result<(), Memory>
    requires range { IsReadInRange (Map (map_of_code options.now)) }
    requires row { j ≤ options.now.grid }
    requires found { (mesh : ObjMesh) × CanFind (map_of_code options.now) mesh found.now }
    ensures { let asked = map_of_code options.now in (mesh : ObjMesh) → CanFind asked mesh found.now → OnOk result (HasRowLeaves asked mesh j leaves.old.items leaves.new.items) }
{
    let MapOptions {
        face,
        grid,
        corner,
        ..
    } = *options;
    for i in 0..grid + 1 {
        leaves.push(found.find(face, corner, i as u64, j as u64, grid as u64))?;
    }
    Ok(())
}

// The leaves of all pairs of the grid, row by row.
fn leaves_of(alloc: Global, found: &PatchMap, options: &MapOptions) -> Result<Vec<Leaf>, Memory>
    requires range { IsReadInRange (Map (map_of_code options.now)) }
    requires found { (mesh : ObjMesh) × CanFind (map_of_code options.now) mesh found.now }
    ensures { let asked = map_of_code options.now in (mesh : ObjMesh) → CanFind asked mesh found.now → IfOk result (λ leaves. AreLeavesAt asked mesh (grid_pairs options.now.grid) leaves.items) }
{
    let side = options.grid as usize + 1;
    let mut leaves = Vec::with_capacity(alloc, side * side)?;
    for j in 0..options.grid + 1 {
        push_row(found, options, j, &mut leaves)?;
    }
    Ok(leaves)
}

// The reply with the leaves of all places.
fn leaves_reply(alloc: Global, found: &PatchMap, options: &MapOptions) -> Result<Reply, Memory>
    requires range { IsReadInRange (Map (map_of_code options.now)) }
    requires found { (mesh : ObjMesh) × CanFind (map_of_code options.now) mesh found.now }
    ensures { (mesh : ObjMesh) → CanFind (map_of_code options.now) mesh found.now → IfOk result (λ reply. IsReplyTo (Map (map_of_code options.now)) mesh reply) }
{
    let grid = options.grid;
    let leaves = leaves_of(alloc, found, options)?;
    Ok(Reply::Map(MapLeaves { grid, leaves }))
}

// The reply with the leaves of all places, or the fault of the face.
fn reply_unless(
    alloc: Global,
    fault: Option<PlaceFault>,
    found: &PatchMap,
    options: &MapOptions,
) -> Result<Reply, FarFault>
    requires range { IsReadInRange (Map (map_of_code options.now)) }
    requires found { (mesh : ObjMesh) × IsMapFor (map_of_code options.now) mesh fault found.now }
    ensures { let asked = map_of_code options.now in (mesh : ObjMesh) → IsMapFor asked mesh fault found.now → IsReplyOr (Map asked) mesh result }
{
    match fault {
        Some(fault) => Err(FarFault::Place(fault)),
        None => Ok(leaves_reply(alloc, found, options)?),
    }
}

// The map of the sparse levels of a mesh, from its level 0.
fn map_levels<T: FaceTest, F: Fn(&FaceFacts) -> bool, L: Ledger>(
    alloc: Global,
    level: Level,
    rule: &SelectRule<T, F>,
    options: &MapOptions,
    steps: &mut Steps<L>,
) -> Result<PatchMap, FarFault>
    requires range { IsReadInRange (Map (map_of_code options.now)) }
    requires level { (mesh : ObjMesh) × IsAccepted mesh level }
    requires answers { AnswersTest F.Fn rule.now.0 (T.meets rule.now.1) }
    requires test { T.meets rule.now.1 ≡ test_of (map_of_code options.now).select }
    ensures found { let asked = map_of_code options.now in (mesh : ObjMesh) → IsAccepted mesh level → IsFoundOr (IsLevelMap asked mesh) (map_level_refusal asked mesh) result }
    ensures steps { (mesh : ObjMesh) → IsAccepted mesh level
        → StepsTaken result steps.old steps.new 0 (later_present (map_of_code options.now).select options.now.depth mesh) }
{
    match map_sparse(alloc, level, rule, options.depth, steps) {
        Ok(found) => Ok(found),
        Err(fault) => Err(fault_of_walk(fault, Track::Positions)),
    }
}

// The leaves of the places of a face, from level 0 of the mesh.
fn map_from<T: FaceTest, F: Fn(&FaceFacts) -> bool, L: Ledger>(
    alloc: Global,
    level: Level,
    rule: &SelectRule<T, F>,
    options: &MapOptions,
    steps: &mut Steps<L>,
) -> Result<Reply, FarFault>
    requires range { IsReadInRange (Map (map_of_code options.now)) }
    requires level { (mesh : ObjMesh) × IsAccepted mesh level }
    requires answers { AnswersTest F.Fn rule.now.0 (T.meets rule.now.1) }
    requires test { T.meets rule.now.1 ≡ test_of (map_of_code options.now).select }
    ensures reply { (mesh : ObjMesh) → IsAccepted mesh level → IsReplyOr (Map (map_of_code options.now)) mesh result }
    ensures steps { (mesh : ObjMesh) → IsAccepted mesh level
        → StepsTaken result steps.old steps.new 0 (later_present (map_of_code options.now).select options.now.depth mesh) }
{
    let fault = face_fault(&level, options.face, options.corner);
    let found = map_levels(alloc, level, rule, options, steps)?;
    reply_unless(alloc, fault, &found, options)
}

// The leaves of the places of a face, for a rule that selects the faces that the options name.
fn map_by<T: FaceTest, F: Fn(&FaceFacts) -> bool, L: Ledger>(
    alloc: Global,
    mesh: &RawMesh,
    rule: &SelectRule<T, F>,
    options: &MapOptions,
    steps: &mut Steps<L>,
) -> Result<Reply, FarFault>
    requires range { IsReadInRange (Map (map_of_code options.now)) }
    requires answers { AnswersTest F.Fn rule.now.0 (T.meets rule.now.1) }
    requires test { T.meets rule.now.1 ≡ test_of (map_of_code options.now).select }
    ensures { IsAnswerTo (Map (map_of_code options.now)) mesh.now result steps.old steps.new }
{
    let level = level_0(alloc, mesh, steps)?;
    map_from(alloc, level, rule, options, steps)
}

/// Returns the leaf of each place of a grid on a face of a mesh. A leaf is a face of the sparse levels from 0 to a depth of at most 10
/// that is not refined further. The options select the faces to refine.
///
/// The face is counted from 0 and is below 2^20. The grid has 1 to 256 steps along each side. `corner` is 0 for a quad. For any other
/// face the places are those of the child face of `corner`, counted from 0. The call counts at most one step for each present face of the
/// levels from 0 to the depth.
///
/// Errors, in this order; `Memory` may come at any time:
///
/// - `Mesh`: the first fault of a mesh that is not a manifold;
/// - `TooLarge`: the first count of the mesh that passes its limit;
/// - `TooLarge` or `Overflow` of the kind `Chaikin`: the first level, counted from 1, with more than 2^22 present faces or an overflowing
///   half of an edge;
/// - `Place` with `NoFace`: the mesh has no such face; it names the number of faces;
/// - `Place` with `NoCorner`: the face has no places with this corner; it names the number of corners;
/// - `Place` with `IsHole`: the face is a hole.
pub fn leaves<L: Ledger>(
    alloc: Global,
    mesh: &RawMesh,
    options: &MapOptions,
    steps: &mut Steps<L>,
) -> Result<Reply, FarFault>
    requires { IsReadInRange (Map (map_of_code options.now)) }
    ensures { IsAnswerTo (Map (map_of_code options.now)) mesh.now result steps.old steps.new }
{
    match options.select {
        Select::Feature => {
            let rule = SelectRule::<Feature, _>::new(|facts: &FaceFacts| is_feature(facts));
            map_by(alloc, mesh, &rule, options, steps)
        }
        Select::All => {
            let rule = SelectRule::<Every, _>::new(|facts: &FaceFacts| is_selectable(facts));
            map_by(alloc, mesh, &rule, options, steps)
        }
    }
}
