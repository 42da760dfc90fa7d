//! Whether each face is a quad, and the next and opposite corners of a quad.

ghost use Rattle.std.specs.Prelude.{◌≡◌, ◌+◌, ◌%◌, ◌<◌, true, length, get_or, MatchOption};
ghost use Rattle.subdiv_model.specs.Polygons.{polygon_at};
ghost use Rattle.subdiv_model.specs.Limit.{has_quads};
ghost use Rattle.limit_stencils.specs.Limits.{IsFirstOther};

use level_topology::Level;

/// Returns the least face that does not have four corners, or `None`. The search takes no memory.
pub(crate) fn first_other(level: &Level) -> Option<u32>
    ensures { MatchOption result (has_quads level.now.level ≡ true) (IsFirstOther level.now.level.polygons) }
{
    level.facts();
    for f in 0..level.faces() {
        if level.face_vertices(f).len() != 4 {
            return Some(f);
        }
    }
    None
}

// Returns the place of the next corner of a quad.
fn next_place(place: u16) -> usize
    ensures { result ≡ (place + 1) % 4 }
{
    (usize::from(place) + 1) % 4
}

// Returns the place of the opposite corner of a quad.
fn opposite_place(place: u16) -> usize
    ensures { result ≡ (place + 2) % 4 }
{
    (usize::from(place) + 2) % 4
}

/// Returns the next corner and the opposite corner of a quad, from the place of a corner.
pub(crate) fn next_and_opposite(level: &Level, face: u32, place: u16) -> (u32, u32)
    requires known { face < length level.now.level.polygons }
    requires quads { has_quads level.now.level ≡ true }
    ensures next { result.0 ≡ get_or (polygon_at level.now.level.polygons face) ((place + 1) % 4) 0 }
    ensures opposite { result.1 ≡ get_or (polygon_at level.now.level.polygons face) ((place + 2) % 4) 0 }
{
    let quad = level.face_vertices(face);
    (quad[next_place(place)], quad[opposite_place(place)])
}
