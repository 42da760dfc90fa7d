//! The sharpness of the points of a part.

ghost use Rattle.std.specs.Prelude.{◌≡◌, ◌<◌, map, IfOk};
ghost use Rattle.subdiv_model.specs.Sharpness.{uniform_child};
ghost use Rattle.subdiv_model.specs.Level.{vertex_sharpness_of};
ghost use Rattle.sharpness_rules.specs.View.{sharpness_of};
ghost use Rattle.sparse_refiner.specs.Tables.{child_sharpness};

use level_topology::Level;
use ratio128::Memory;
use sharpness_rules::{Sharpness, uniform_child};
use std::alloc::Global;

// Returns the sharpness in the next level of a vertex of the level.
fn child_of_vertex(level: &Level, v: u32) -> Sharpness
    requires { v < level.now.level.point_count }
    ensures { sharpness_of result ≡ uniform_child (vertex_sharpness_of level.now.level v) }
{
    uniform_child(level.vertex_sharpness(v))
}

// Returns the sharpness of the point with a number in the whole next level. The new points of faces and edges are smooth.
fn sharpness_of_point(level: &Level, n: u32) -> Sharpness
    ensures { sharpness_of result ≡ child_sharpness level.now.level n }
{
    if n < level.points() {
        child_of_vertex(level, n)
    } else {
        Sharpness::Smooth
    }
}

// Returns the sharpness of the points with these numbers.
pub(crate) fn vertex_sharpness(
    alloc: Global,
    level: &Level,
    names: &[u32],
) -> Result<Vec<Sharpness>, Memory>
    ensures { IfOk result (λ values. map sharpness_of values.items ≡ map (child_sharpness level.now.level) names.now) }
{
    let mut values = Vec::with_capacity(alloc, names.len())?;
    for i in 0..names.len() {
        values.push(sharpness_of_point(level, names[i]))?;
    }
    Ok(values)
}
