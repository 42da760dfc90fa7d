//! Whether a vertex or one of its edges is semi-sharp.

ghost use Rattle.std.specs.Prelude.{◌≡◌, ◌<◌};
ghost use Rattle.std.specs.List.{list_any};
ghost use Rattle.subdiv_model.specs.Sharpness.{is_semi_sharp};
ghost use Rattle.sharpness_rules.specs.View.{sharpness_of};
ghost use Rattle.mask_rules.specs.Around.{ring_in};
ghost use Rattle.limit_stencils.specs.AtVertex.{is_semi_in};

use level_topology::Level;
use sharpness_rules::Sharpness;

fn is_semi_sharp(s: Sharpness) -> bool
    ensures { result ≡ is_semi_sharp (sharpness_of s) }
{
    matches!(s, Sharpness::Semi(_))
}

// Returns whether an edge at the vertex is semi-sharp.
fn has_semi_edge(level: &Level, v: u32) -> bool
    requires { v < level.now.level.point_count }
    ensures { result ≡ list_any is_semi_sharp (ring_in level.now v) }
{
    level.facts();
    let mut semi = false;
    for e in level.vertex_edges(v) {
        semi = semi | is_semi_sharp(level.edge_sharpness(*e));
    }
    semi
}

/// Returns whether the vertex or one of its edges is semi-sharp. The test takes no memory.
pub(crate) fn has_semi_sharp(level: &Level, v: u32) -> bool
    requires { v < level.now.level.point_count }
    ensures { result ≡ is_semi_in level.now v }
{
    level.facts();
    is_semi_sharp(level.vertex_sharpness(v)) || has_semi_edge(level, v)
}
