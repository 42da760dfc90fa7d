//! The sharpness of the points of the cut mesh.

ghost use Rattle.std.specs.Prelude.{◌≡◌, ◌^◌, ◌<◌, length};
ghost use Rattle.std.specs.List.{All};
ghost use Rattle.sharpness_rules.specs.View.{sharpness_of};
ghost use Rattle.face_varying.specs.Built.{point_sharpness, with_points};

use level_builder::LevelBuilder;
use level_topology::Level;
use sharpness_rules::Sharpness;

// Returns the sharpness of a point: infinite if the mode keeps it so, or else that of its vertex.
fn point_sharpness(level: &Level, vertices: &[u32], kept: &[bool], p: usize) -> Sharpness
    requires point { p < length vertices.now }
    requires kept { length kept.now ≡ length vertices.now }
    requires vertices { All (λ v. v < level.now.level.point_count) vertices.now }
    ensures { sharpness_of result ≡ point_sharpness level.now.level vertices.now kept.now p }
{
    if kept[p] {
        Sharpness::Infinite
    } else {
        level.vertex_sharpness(vertices[p])
    }
}

// Sets the sharpness of all points, and marks them as complete.
pub(crate) fn add_points(builder: &mut LevelBuilder, level: &Level, vertices: &[u32], kept: &[bool])
    requires points { builder.old.level.point_count ≡ length vertices.now }
    requires sharpness { length builder.old.level.vertex_sharpness ≡ length vertices.now }
    requires marks { length builder.old.complete ≡ length vertices.now }
    requires few { length vertices.now < 2 ^ 32 }
    requires kept { length kept.now ≡ length vertices.now }
    requires vertices { All (λ v. v < level.now.level.point_count) vertices.now }
    ensures { builder.new ≡ with_points (point_sharpness level.now.level vertices.now kept.now) (length vertices.now) builder.old }
{
    for p in 0..vertices.len() {
        builder.add_sharp_vertex(p as u32, point_sharpness(level, vertices, kept, p));
        builder.mark_complete(p as u32);
    }
}
