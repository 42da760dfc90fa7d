//! The kinds, numbers and sizes of faces.

ghost use Rattle.std.specs.Prelude.{◌≡◌, ◌≤◌, length};
ghost use Rattle.std.specs.List.{sum_by};
ghost use Rattle.sparse_level.specs.Faces.{kind_of};
ghost use Rattle.mesh_arrays.specs.SparseFlat.{face_count, kind_number, kinds_of, level_kinds, level_numbers, level_sizes, numbers_of, sizes_of, with_front};

use ratio128::Point3;
use sparse_level::{FaceKind, SparseFaces, SparseValues};

// Returns the number of a kind of face.
fn number_of_kind(kind: FaceKind) -> u8
    ensures { result ≡ kind_number (kind_of kind) }
{
    match kind {
        FaceKind::Hole => 0,
        FaceKind::Outer => 1,
        FaceKind::Selected => 2,
        FaceKind::Leaf => 3,
    }
}

// Fills arrays with the kinds, numbers and sizes of the faces of a level.
fn fill_faces(level: &SparseFaces, kinds: &mut [u8], numbers: &mut [u64], sizes: &mut [u32])
    requires kinds_fit { length kinds.old ≡ length level.now.faces }
    requires numbers_fit { length numbers.old ≡ length level.now.faces }
    requires sizes_fit { length sizes.old ≡ length level.now.faces }
    ensures kinds { kinds.new ≡ level_kinds level.now }
    ensures numbers { numbers.new ≡ level_numbers level.now }
    ensures sizes { sizes.new ≡ level_sizes level.now }
{
    // The number of corners of all faces fits 32 bits, and so does that of each face.
    level.corner_count();
    for f in 0..level.len() {
        kinds[f as usize] = number_of_kind(level.kind(f));
        numbers[f as usize] = level.number(f);
        sizes[f as usize] = level.corners(f).len() as u32;
    }
}

/// Writes the kinds, numbers and sizes of the faces of all levels, level by level.
///
/// Each array has at least one place for each face. The call leaves later places unchanged.
pub(crate) fn put_faces(
    levels: &[SparseValues<Point3>],
    kinds: &mut [u8],
    numbers: &mut [u64],
    sizes: &mut [u32],
)
    requires kinds_fit { sum_by face_count levels.now ≤ length kinds.old }
    requires numbers_fit { sum_by face_count levels.now ≤ length numbers.old }
    requires sizes_fit { sum_by face_count levels.now ≤ length sizes.old }
    ensures kinds { kinds.new ≡ with_front (kinds_of levels.now) kinds.old }
    ensures numbers { numbers.new ≡ with_front (numbers_of levels.now) numbers.old }
    ensures sizes { sizes.new ≡ with_front (sizes_of levels.now) sizes.old }
    ensures kinds_len { length kinds.new ≡ length kinds.old }
    ensures numbers_len { length numbers.new ≡ length numbers.old }
    ensures sizes_len { length sizes.new ≡ length sizes.old }
{
    let mut at = 0;
    for level in levels {
        let len = level.faces.len() as usize;
        fill_faces(
            &level.faces,
            &mut kinds[at..at + len],
            &mut numbers[at..at + len],
            &mut sizes[at..at + len],
        );
        at += len;
    }
}
