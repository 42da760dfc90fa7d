//! The faces of the cut mesh among the numbers of all corners.

ghost use Rattle.std.specs.Prelude.{◌≡◌, ◌<◌, length};
ghost use Rattle.std.specs.List.{sum_by};
ghost use Rattle.face_varying.specs.Built.{cut_face};

use level_topology::Level;

// Returns the numbers at the corners of a face.
pub(crate) fn cut_face<'a>(level: &Level, numbers: &'a [u32], f: u32) -> &'a [u32]
    requires face { f < length level.now.level.polygons }
    requires numbers { length numbers.now ≡ sum_by length level.now.level.polygons }
    ensures { result.now ≡ cut_face level.now.level.polygons numbers.now f }
{
    let starts = level.corner_starts();
    let start = starts[f as usize] as usize;
    let end = starts[f as usize + 1] as usize;
    &numbers[start..end]
}
