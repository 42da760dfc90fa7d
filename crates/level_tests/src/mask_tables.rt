// Masks of vertices of closed meshes, of an open grid and of wheels, row by row.

ghost use Rattle.std.specs.Prelude.{◌≡◌, ◌<◌, true, false, IsTrue, length, get_or};
ghost use Rattle.subdiv_model.specs.Edges.{edges_of, faces_of_edge, has_end, is_boundary};
ghost use Rattle.subdiv_model.specs.Sharpness.{Smooth, Infinite, is_chaikin};
ghost use Rattle.level_topology.specs.Topology.{edge_at};
ghost use Rattle.mask_rules.specs.Around.{HasSharpBoundaryAt};

use crate::expect::expect_same;
use crate::meshes::level_of;
use crate::vertex_rows::{VertexRow, vertices};
use level_topology::Level;
use mask_rules::{At, MaskFault, Scheme, Term, VertexMask, vertex_mask};
use ratio128::Steps;
use sharpness_rules::{Method, Sharpness};
use std::alloc::Global;
use std::marker::Brand;
use std::process::Abort;
use std::sync::ledger::{Blank, Ledger};
use std::test::Fail;

// Returns whether an edge has two faces.
pub fn has_two_faces(level: &Level, e: u32) -> bool
    requires { e < length (edges_of level.now.level.polygons) }
    ensures { result ≡ true → length (faces_of_edge level.now.level.polygons (edge_at level.now.level.polygons e)) ≡ 2 }
{
    match level.edge_faces(e).second {
        Some(_) => true,
        None => false,
    }
}

// Returns whether an edge is infinitely sharp.
fn is_infinite(level: &Level, e: u32) -> bool
    requires { e < length (edges_of level.now.level.polygons) }
    ensures { result ≡ true → get_or level.now.level.edge_sharpness e Smooth ≡ Infinite }
{
    match level.edge_sharpness(e) {
        Sharpness::Infinite => true,
        _ => false,
    }
}

// Returns whether an edge has two faces or is infinitely sharp.
fn is_inner_or_sharp(level: &Level, e: u32) -> bool
    requires { e < length (edges_of level.now.level.polygons) }
    ensures { result ≡ true → IsTrue (is_boundary level.now.level.polygons (edge_at level.now.level.polygons e))
        → get_or level.now.level.edge_sharpness e Smooth ≡ Infinite }
{
    is_infinite(level, e) || has_two_faces(level, e)
}

// Returns whether an edge ends at a point.
fn has_end(level: &Level, v: u32, e: u32) -> bool
    requires { e < length (edges_of level.now.level.polygons) }
    ensures { result ≡ has_end v (edge_at level.now.level.polygons e) }
{
    let (first, second) = level.edge_vertices(e);
    v == first || v == second
}

// Asserts that each edge with one face at a point is infinitely sharp.
fn assert_sharp_boundary(rt: &impl Abort, level: &Level, v: u32)
    ensures { HasSharpBoundaryAt level.now.level v }
{
    for e in 0..level.edges() {
        let is_fine = !has_end(level, v, e) || is_inner_or_sharp(level, e);
        assert!(rt; is_fine, "at {e}");
    }
}

// Returns whether the sharpness of edges falls by the uniform rule.
fn is_uniform(level: &Level) -> bool
    ensures { result ≡ true → is_chaikin level.now.level.method ≡ false }
{
    match level.method() {
        Method::Normal => true,
        Method::Chaikin => false,
    }
}

// Returns the mask of a vertex, after tests of the conditions of `vertex_mask`.
fn mask_of_vertex(
    rt: &impl Abort,
    alloc: Global,
    level: &Level,
    v: u32,
) -> Result<VertexMask, MaskFault> {
    assert!(rt; v < level.points());
    assert!(rt; level.is_complete(v));
    assert!(rt; is_uniform(level));
    assert_sharp_boundary(rt, level, v);
    vertex_mask(alloc, level, v, Scheme::CatmullClark)
}

fn has_term(terms: &[Term], at: At, weight: u128) -> bool {
    for term in terms {
        if term.at == at && term.weight == weight {
            return true;
        }
    }
    false
}

// The mask has these terms in any order and no others; each source occurs once.
fn expect_terms(rt: &impl Abort, mask: &VertexMask, row: &VertexRow) {
    let counts = (mask.terms().len(), mask.denominator());
    let count = row.points.len() + row.faces.len();
    expect_same(rt, &counts, &(count, row.denominator), &row.points);
    for (v, weight) in row.points {
        expect_same(
            rt,
            &has_term(mask.terms(), At::Point(*v), *weight),
            &true,
            &row.points,
        );
    }
    for (f, weight) in row.faces {
        expect_same(
            rt,
            &has_term(mask.terms(), At::FacePoint(*f), *weight),
            &true,
            &row.faces,
        );
    }
}

fn expect_mask<L: Ledger>(
    rt: &impl Abort,
    alloc: Global,
    row: &VertexRow,
    steps: &mut Steps<L>,
) -> Result<(), Fail> {
    let level = level_of(rt, alloc, row.mesh, steps)?;
    let mask = mask_of_vertex(rt, alloc, &level, row.mesh.2)?;
    expect_terms(rt, &mask, row);
    Ok(())
}

fn expect_masks<L: Ledger>(rt: &impl Abort, alloc: Global, blank: Blank) -> Result<(), Fail>
    requires name { blank.name ≡ L.name }
    requires parts { blank.parts ≡ L.parts }
    requires some { 0 < blank.parts }
{
    let mut steps = Steps::start(blank.open::<L>());
    for row in vertices() {
        expect_mask(rt, alloc, row, &mut steps)?;
    }
    Ok(())
}

#[test]
fn masks_vertices(rt: HostRuntime) -> Result<(), Fail> {
    expect_masks::<Brand>(&rt, rt.alloc(), Blank::new(1))
}
