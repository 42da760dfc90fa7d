//! The sharpness of the edges of the cut mesh.

ghost use Rattle.std.specs.Prelude.{◌≡◌, ◌<◌, length, IsTrue};
ghost use Rattle.std.specs.List.{All, list_all, list_any, sum_by};
ghost use Rattle.subdiv_model.specs.Polygons.{same_edge, sides_of};
ghost use Rattle.subdiv_model.specs.Edges.{edges_of};
ghost use Rattle.sharpness_rules.specs.View.{sharpness_of};
ghost use Rattle.face_varying.specs.Built.{cut_by, face_sides, side_sharpness, sides_before, with_side, with_sides};

use crate::cut_faces::cut_face;
use level_builder::LevelBuilder;
use level_topology::{Level, corner_after};
use sharpness_rules::Sharpness;

// Returns the sharpness of a side whose edge in the mesh has this number. It is infinite if the faces there are apart, or else
// that of the edge.
fn side_sharpness(level: &Level, apart: &[bool], e: u32) -> Sharpness
    requires edge { e < length (edges_of level.now.level.polygons) }
    requires apart { length apart.now ≡ length (edges_of level.now.level.polygons) }
    ensures { sharpness_of result ≡ side_sharpness level.now.level apart.now e }
{
    if apart[e as usize] {
        Sharpness::Infinite
    } else {
        level.edge_sharpness(e)
    }
}

// Sets the sharpness of a side's edge, unless it is smooth.
fn add_side(builder: &mut LevelBuilder, a: u32, b: u32, s: Sharpness)
    requires { IsTrue (list_any (same_edge (a, b)) (edges_of builder.old.level.polygons)) }
    ensures { builder.new ≡ with_side ((a, b), sharpness_of s) builder.old }
{
    match s {
        Sharpness::Smooth => (),
        _ => builder.add_sharp_edge(a, b, s),
    }
}

// Sets the sharpness of the sides of a face, from its corners and the numbers of its edges in the mesh.
fn add_face_sides(
    builder: &mut LevelBuilder,
    level: &Level,
    apart: &[bool],
    corners: &[u32],
    edges: &[u32],
)
    requires sides { IsTrue (list_all (λ side. list_any (same_edge side) (edges_of builder.old.level.polygons)) (sides_of corners.now)) }
    requires size { length edges.now ≡ length corners.now }
    requires edges { All (λ e. e < length (edges_of level.now.level.polygons)) edges.now }
    requires apart { length apart.now ≡ length (edges_of level.now.level.polygons) }
    ensures { builder.new ≡ with_sides (face_sides level.now.level apart.now corners.now edges.now) builder.old }
{
    for c in 0..corners.len() {
        let next = corners[corner_after(corners.len(), c)];
        add_side(
            builder,
            corners[c],
            next,
            side_sharpness(level, apart, edges[c]),
        );
    }
}

// Sets the sharpness of the sides of all faces.
pub(crate) fn add_sides(builder: &mut LevelBuilder, level: &Level, apart: &[bool], numbers: &[u32])
    requires faces { builder.old.level.polygons ≡ cut_by level.now.level.polygons numbers.now }
    requires numbers { length numbers.now ≡ sum_by length level.now.level.polygons }
    requires apart { length apart.now ≡ length (edges_of level.now.level.polygons) }
    ensures { builder.new ≡ with_sides (sides_before level.now.level apart.now numbers.now (length level.now.level.polygons)) builder.old }
{
    for f in 0..level.faces() {
        add_face_sides(
            builder,
            level,
            apart,
            cut_face(level, numbers, f),
            level.face_edges(f),
        );
    }
}
