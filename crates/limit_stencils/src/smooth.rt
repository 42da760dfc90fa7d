//! Whether each point of a level is smooth.

ghost use Rattle.std.specs.Prelude.{◌≡◌, ◌<◌, true};
ghost use Rattle.subdiv_model.specs.Sharpness.{Smooth};
ghost use Rattle.sharpness_rules.specs.View.{sharpness_of};
ghost use Rattle.limit_stencils.specs.Smooth.{HasSmoothEdges, IsSmoothAt, IsSmooth};

use level_topology::Level;
use sharpness_rules::Sharpness;

fn is_zero(s: Sharpness) -> bool
    ensures { result ≡ true → sharpness_of s ≡ Smooth }
{
    matches!(s, Sharpness::Smooth)
}

// Returns whether no edge is sharp.
fn has_smooth_edges(level: &Level) -> bool
    ensures { result ≡ true → HasSmoothEdges level.now }
{
    level.facts();
    for e in 0..level.edges() {
        if !is_zero(level.edge_sharpness(e)) {
            return false;
        }
    }
    true
}

// Returns whether a vertex has an edge and no sharpness of its own.
fn is_smooth_at(level: &Level, v: u32) -> bool
    requires { v < level.now.level.point_count }
    ensures { result ≡ true → IsSmoothAt level.now v }
{
    is_zero(level.vertex_sharpness(v)) && !level.vertex_edges(v).is_empty()
}

/// Returns whether no edge and no vertex is sharp, and each vertex has an edge. One scan of both lists answers, and takes no memory.
pub(crate) fn is_smooth(level: &Level) -> bool
    ensures { result ≡ true → IsSmooth level.now }
{
    level.facts();
    if !has_smooth_edges(level) {
        return false;
    }
    for v in 0..level.points() {
        if !is_smooth_at(level, v) {
            return false;
        }
    }
    true
}
