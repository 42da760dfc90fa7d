//! The number of faces of the next level.

ghost use Rattle.std.specs.Prelude.{◌≡◌, length};
ghost use Rattle.std.specs.List.{sum_by};

use level_topology::Level;

/// Returns the number of faces of the next level: one for each corner of a face. The call takes no memory.
pub fn next_faces(level: &Level) -> u64
    ensures { result ≡ sum_by length level.now.level.polygons }
{
    level.facts();
    level.corner_starts()[level.faces() as usize] as u64
}
