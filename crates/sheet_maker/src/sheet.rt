//! A sheet of quads.

ghost use Rattle.std.specs.Prelude.{◌≡◌, ◌≤◌, IfOk};
ghost use Rattle.subdiv_model.specs.Generator.{generated_mesh};

use crate::creases::creases_of_rows;
use crate::draws::draws_of_seed;
use crate::points::points_of_rows;
use crate::quads::corners_of_quads;
use ratio128::Memory;
use raw_mesh::RawMesh;
use std::alloc::Global;

/// Returns a sheet of `size` times `size` quads; `size` is from 1 to 256. Its points are 10 apart in rows and columns, each at a height
/// from 0 to 6 that the seed draws. Each inner row of edges is a crease whose sharpness, from 0 to 3, the seed draws.
///
/// Error: `Memory`.
pub fn make_sheet(alloc: Global, seed: u32, size: u32) -> Result<RawMesh, Memory>
    requires some { 1 ≤ size }
    requires few { size ≤ 256 }
    ensures { IfOk result (λ mesh. mesh ≡ generated_mesh seed size) }
{
    let points = (size + 1) * (size + 1);
    let draws = draws_of_seed(alloc, seed, points + size)?;
    RawMesh::of_quads(
        alloc,
        points_of_rows(alloc, &draws, size)?,
        corners_of_quads(alloc, size)?,
        creases_of_rows(alloc, &draws, size)?,
    )
}
