//! The edges at which the faces on the two sides are apart.

ghost use Rattle.std.specs.Prelude.{◌≡◌, ◌+◌, ◌<◌, not, ◌||◌, nat_eq, length, replicate, slice_set, IfOk, if◌then◌else◌};
ghost use Rattle.subdiv_model.specs.Edges.{edges_of};
ghost use Rattle.level_topology.specs.Topology.{edge_at};
ghost use Rattle.face_varying.specs.Corners.{apart_marks, is_apart};
ghost use Rattle.face_varying.specs.CornerPlaces.{start_of};
ghost use Rattle.face_varying.specs.Cut.{IsCuttable};
ghost use Rattle.face_varying.specs.Sides.{AreNoted, AreAllNoted};

use level_topology::{Level, corner_after};
use ratio128::Memory;
use raw_mesh::RawMesh;
use std::alloc::Global;

// For each edge the texture numbers at its two ends: once from the side along it, once from the side against it. A manifold has at most one
// of each.
#[derive(Drop)]
struct SideNumbers {
    along: Vec<(u32, u32)>,
    against: Vec<(u32, u32)>,
}

// Returns whether two pairs of numbers differ at either place.
fn differ(pair: (u32, u32), other: (u32, u32)) -> bool
    ensures { result ≡ (not (nat_eq pair.0 other.0) || not (nat_eq pair.1 other.1)) }
{
    pair.0 != other.0 || pair.1 != other.1
}

impl SideNumbers {
    // Returns notes for this many edges, all empty.
    fn none(alloc: Global, edges: usize) -> Result<SideNumbers, Memory>
        ensures along { IfOk result (λ sides. sides.along.items ≡ replicate edges (0, 0)) }
        ensures against { IfOk result (λ sides. sides.against.items ≡ replicate edges (0, 0)) }
    {
        Ok(SideNumbers {
            along: vec![in alloc; (0, 0); edges]?,
            against: vec![in alloc; (0, 0); edges]?,
        })
    }

    // Notes the texture numbers at the start and the end of a side of an edge.
    fn note(&mut self, edge: u32, along: bool, start: u32, end: u32)
        requires along { edge < length self.old.along.items }
        requires against { edge < length self.old.against.items }
        ensures along { self.new.along.items ≡ (if along then slice_set self.old.along.items edge (start, end) else self.old.along.items) }
        ensures against { self.new.against.items ≡ (if along then self.old.against.items else slice_set self.old.against.items edge (end, start)) }
    {
        if along {
            self.along[edge as usize] = (start, end);
        } else {
            self.against[edge as usize] = (end, start);
        }
    }

    // Notes the sides of a face.
    fn note_face(&mut self, raw: &RawMesh, level: &Level, f: u32)
        requires cuttable { IsCuttable raw.now level.now }
        requires face { f < length level.now.level.polygons }
        requires before { AreNoted level.now.level.polygons raw.now.texture_corners self.old.along.items self.old.against.items (start_of level.now.level.polygons f) }
        ensures { AreNoted level.now.level.polygons raw.now.texture_corners self.new.along.items self.new.against.items (start_of level.now.level.polygons (f + 1)) }
    {
        level.facts();
        let vertices = level.face_vertices(f);
        let edges = level.face_edges(f);
        let texture = raw.texture_corners(f);
        for c in 0..vertices.len() {
            let edge = edges[c];
            let along = level.edge_vertices(edge).0 == vertices[c];
            let next = corner_after(vertices.len(), c);
            self.note(edge, along, texture[c], texture[next]);
        }
    }

    // Returns whether an edge has one face, or texture numbers that differ at either end.
    fn is_apart(&self, raw: &RawMesh, level: &Level, edge: u32) -> bool
        requires cuttable { IsCuttable raw.now level.now }
        requires edge { edge < length (edges_of level.now.level.polygons) }
        requires noted { AreAllNoted level.now.level.polygons raw.now.texture_corners self.now }
        ensures { result ≡ is_apart raw.now (edge_at level.now.level.polygons edge) }
    {
        level.facts();
        if level.edge_faces(edge).second.is_none() {
            return true;
        }
        differ(self.along[edge as usize], self.against[edge as usize])
    }
}

// Returns the texture numbers of the sides of all faces.
fn side_numbers(alloc: Global, raw: &RawMesh, level: &Level) -> Result<SideNumbers, Memory>
    requires { IsCuttable raw.now level.now }
    ensures { IfOk result (λ sides. AreAllNoted level.now.level.polygons raw.now.texture_corners sides) }
{
    let mut sides = SideNumbers::none(alloc, level.edges() as usize)?;
    for f in 0..level.faces() {
        sides.note_face(raw, level, f);
    }
    Ok(sides)
}

// Returns for each edge of the mesh whether its faces are apart, from the texture numbers of the sides of all faces.
fn marks_by(
    alloc: Global,
    raw: &RawMesh,
    level: &Level,
    sides: &SideNumbers,
) -> Result<Vec<bool>, Memory>
    requires cuttable { IsCuttable raw.now level.now }
    requires noted { AreAllNoted level.now.level.polygons raw.now.texture_corners sides.now }
    ensures { IfOk result (λ apart. apart.items ≡ apart_marks raw.now) }
{
    let mut apart = Vec::with_capacity(alloc, level.edges() as usize)?;
    for edge in 0..level.edges() {
        apart.push(sides.is_apart(raw, level, edge))?;
    }
    Ok(apart)
}

// Returns for each edge of the mesh whether its faces are apart: it has one face, or their texture numbers differ at either
// end. Each side notes the texture numbers at its ends once, so the call searches no face.
pub(crate) fn apart_edges(alloc: Global, raw: &RawMesh, level: &Level) -> Result<Vec<bool>, Memory>
    requires { IsCuttable raw.now level.now }
    ensures { IfOk result (λ apart. apart.items ≡ apart_marks raw.now) }
{
    let sides = side_numbers(alloc, raw, level)?;
    marks_by(alloc, raw, level, &sides)
}
