//! The directed edges of all faces.

ghost use Rattle.std.specs.Prelude.{◌≡◌, ◌++◌, IfOk, OnOk};
ghost use Rattle.subdiv_model.specs.Polygons.{sides_of};
ghost use Rattle.subdiv_model.specs.Edges.{all_sides};

use ratio128::Memory;
use raw_mesh::RawMesh;
use std::alloc::Global;

// Adds the directed edges of a face to the list.
fn add_sides(sides: &mut Vec<(u32, u32)>, face: &[u32]) -> Result<(), Memory>
    ensures { OnOk result (sides.new.items ≡ sides.old.items ++ sides_of face.now) }
{
    let [first, ..] = face else {
        return Ok(());
    };
    let mut rest = face;
    while let [v, tail @ ..] = rest {
        let next = tail.first().copied().unwrap_or(*first);
        sides.push((*v, next))?;
        rest = tail;
    }
    Ok(())
}

// Returns the directed edges of all faces, in the order of faces and corners.
pub(crate) fn sides_of_faces(alloc: Global, raw: &RawMesh) -> Result<Vec<(u32, u32)>, Memory>
    ensures { IfOk result (λ sides. sides.items ≡ all_sides raw.now.faces) }
{
    let mut sides = Vec::new(alloc);
    for f in 0..raw.faces() {
        add_sides(&mut sides, raw.face(f))?;
    }
    Ok(sides)
}
