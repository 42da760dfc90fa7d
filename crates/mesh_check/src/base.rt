//! Level 0 of a mesh that is a manifold.

ghost use Rattle.std.specs.Prelude.{◌≡◌, ◌+◌, ◌^◌, ◌<◌, ◌≤◌, true, nat_lt, length, map, replicate, IfOk, OnOk, IsTrue};
ghost use Rattle.std.specs.List.{list_all, list_any, filter, enumerate_from, sum_by};
ghost use Rattle.subdiv_model.specs.Polygons.{same_edge};
ghost use Rattle.subdiv_model.specs.Edges.{all_sides, edges_of, is_boundary};
ghost use Rattle.subdiv_model.specs.Base.{base_level, is_base_hole};
ghost use Rattle.raw_mesh.specs.View.{crease_of, corner_tag_of};
ghost use Rattle.level_builder.specs.Builder.{only_points};
ghost use Rattle.mesh_check.specs.Base.{IsFit, AreEdges, smooth_built, with_edge_tag, with_edge_tags, with_vertex_tags, infinite, tagged_built, all_complete};

use crate::base_corners::add_end_corners;
use level_builder::{LevelBuilder, MeshKey, edge_key, is_known};
use level_topology::Level;
use ratio128::{Memory, Steps};
use raw_mesh::{CornerTag, Crease, RawMesh};
use sharpness_rules::Sharpness;
use std::alloc::Global;
use std::sync::ledger::Ledger;

// Returns the key of all faces.
fn key_of(raw: &RawMesh) -> u128 {
    let mut key = MeshKey::new();
    for f in 0..raw.faces() {
        key.add(raw.face(f));
    }
    key.finish()
}

// Returns the number of corners of all faces together.
fn corner_count(raw: &RawMesh) -> u32
    requires { sum_by length raw.now.faces < 2 ^ 27 }
    ensures { result ≡ sum_by length raw.now.faces }
{
    let mut count = 0;
    for f in 0..raw.faces() {
        count += raw.face(f).len() as u32;
    }
    count
}

// Returns a builder that has only the points, with memory for all that follows. Each boundary edge has one side, and any
// other has two.
fn builder_of_points(alloc: Global, raw: &RawMesh, boundary: usize) -> Result<LevelBuilder, Memory>
    requires { IsFit raw.now }
    ensures { IfOk result (λ b. b ≡ only_points (length raw.now.points) raw.now.method) }
{
    let points = raw.points().len() as u32;
    let corners = corner_count(raw);
    let single = boundary.min(corners as usize) as u32;
    let edges = (corners + single) / 2;
    let key = key_of(raw);
    LevelBuilder::with_key(
        alloc,
        points,
        raw.faces(),
        corners,
        edges,
        raw.method(),
        key,
    )
}

// Adds the faces with their marks.
fn add_faces<L: Ledger>(
    builder: &mut LevelBuilder,
    raw: &RawMesh,
    holes: &[bool],
    steps: &mut Steps<L>,
) -> Result<(), Memory>
    requires fit { IsFit raw.now }
    requires holes { length holes.now ≡ length raw.now.faces }
    requires no_faces { builder.old ≡ only_points (length raw.now.points) raw.now.method }
    ensures faces { OnOk result (builder.new ≡ smooth_built (length raw.now.points) raw.now.method raw.now.faces holes.now) }
    ensures steps { steps.new ≤ steps.old + length raw.now.faces }
    ensures later { steps.old ≤ steps.new }
{
    for f in 0..raw.faces() {
        builder.add_face(raw.face(f), holes[f as usize], steps)?;
    }
    Ok(())
}

// Sets the sharpness of a crease, if its pair is an edge.
fn add_crease(builder: &mut LevelBuilder, crease: Crease, edges: &[u64])
    requires { AreEdges builder.old.level.polygons edges.now }
    ensures { builder.new ≡ with_edge_tag (crease_of crease) builder.old }
{
    if is_known(edges, edge_key((crease.a, crease.b))) {
        builder.add_sharp_edge(crease.a, crease.b, crease.sharpness);
    }
}

// Sets the sharpness of the creases in their order.
fn add_creases(builder: &mut LevelBuilder, creases: &[Crease], edges: &[u64])
    requires { AreEdges builder.old.level.polygons edges.now }
    ensures { builder.new ≡ with_edge_tags (map crease_of creases.now) builder.old }
{
    let mut rest = creases;
    while let [crease, others @ ..] = rest {
        add_crease(builder, *crease, edges);
        rest = others;
    }
}

// Makes each boundary edge infinitely sharp.
fn add_boundary(builder: &mut LevelBuilder, boundary: &[(u32, u32)])
    requires { IsTrue (list_all (λ s. list_any (same_edge s) (edges_of builder.old.level.polygons)) boundary.now) }
    ensures { builder.new ≡ with_edge_tags (infinite boundary.now) builder.old }
{
    let mut rest = boundary;
    while let [side, others @ ..] = rest {
        builder.add_sharp_edge(side.0, side.1, Sharpness::Infinite);
        rest = others;
    }
}

// Sets the sharpness of the corner tags in their order.
fn add_corner_tags(builder: &mut LevelBuilder, tags: &[CornerTag])
    requires { IsTrue (list_all (λ tag. nat_lt tag.vertex builder.old.level.point_count) tags.now) }
    ensures { builder.new ≡ with_vertex_tags (map corner_tag_of tags.now) builder.old }
{
    let mut rest = tags;
    while let [tag, others @ ..] = rest {
        builder.add_sharp_vertex(tag.vertex, tag.sharpness);
        rest = others;
    }
}

// Gives the edges and the vertices the sharpness of the mesh.
fn add_tags(
    alloc: Global,
    raw: &RawMesh,
    edges: &[u64],
    boundary: &[(u32, u32)],
    builder: &mut LevelBuilder,
) -> Result<(), Memory>
    requires fit { IsFit raw.now }
    requires edges { AreEdges raw.now.faces edges.now }
    requires boundary { boundary.now ≡ filter (is_boundary raw.now.faces) (all_sides raw.now.faces) }
    requires smooth { builder.old ≡ smooth_built (length raw.now.points) raw.now.method raw.now.faces builder.old.level.holes }
    ensures { OnOk result (builder.new ≡ tagged_built raw.now builder.old.level.holes) }
{
    add_creases(builder, raw.creases(), edges);
    add_boundary(builder, boundary);
    add_corner_tags(builder, raw.corner_tags());
    add_end_corners(alloc, raw, builder)?;
    Ok(())
}

// Marks all points as complete.
fn mark_points(builder: &mut LevelBuilder, points: u32)
    requires points { builder.old.level.point_count ≡ points }
    requires marks { length builder.old.complete ≡ points }
    ensures { builder.new ≡ all_complete builder.old }
{
    for v in 0..points {
        builder.mark_complete(v);
    }
}

// Adds the faces, the sharpness and the marks of the mesh to the points.
fn add_all<L: Ledger>(
    alloc: Global,
    raw: &RawMesh,
    edges: &[u64],
    boundary: &[(u32, u32)],
    holes: &[bool],
    builder: &mut LevelBuilder,
    steps: &mut Steps<L>,
) -> Result<(), Memory>
    requires fit { IsFit raw.now }
    requires edges { AreEdges raw.now.faces edges.now }
    requires boundary { boundary.now ≡ filter (is_boundary raw.now.faces) (all_sides raw.now.faces) }
    requires holes { holes.now ≡ map (is_base_hole raw.now) (enumerate_from 0 raw.now.faces) }
    requires no_faces { builder.old ≡ only_points (length raw.now.points) raw.now.method }
    ensures all { OnOk result (builder.new ≡ all_complete (tagged_built raw.now holes.now)) }
    ensures steps { steps.new ≤ steps.old + length raw.now.faces }
    ensures later { steps.old ≤ steps.new }
{
    add_faces(builder, raw, holes, steps)?;
    add_tags(alloc, raw, edges, boundary, builder)?;
    mark_points(builder, raw.points().len() as u32);
    Ok(())
}

// Returns level 0 of a mesh without fault, from the numbers of its edges, its boundary edges and the marks of its holes. Each
// face is one step.
pub(crate) fn base_level<L: Ledger>(
    alloc: Global,
    raw: &RawMesh,
    edges: &[u64],
    boundary: &[(u32, u32)],
    holes: &[bool],
    steps: &mut Steps<L>,
) -> Result<Level, Memory>
    requires fit { IsFit raw.now }
    requires edges { AreEdges raw.now.faces edges.now }
    requires boundary { boundary.now ≡ filter (is_boundary raw.now.faces) (all_sides raw.now.faces) }
    requires holes { holes.now ≡ map (is_base_hole raw.now) (enumerate_from 0 raw.now.faces) }
    ensures level { IfOk result (λ level. level.level ≡ base_level raw.now) }
    ensures complete { IfOk result (λ level. level.complete ≡ replicate (length raw.now.points) true) }
    ensures steps { steps.new ≤ steps.old + length raw.now.faces }
    ensures later { steps.old ≤ steps.new }
{
    let mut builder = builder_of_points(alloc, raw, boundary.len())?;
    add_all(alloc, raw, edges, boundary, holes, &mut builder, steps)?;
    builder.finish()
}
