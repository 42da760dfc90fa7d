//! The points that are corners of faces, in the order of their first appearance.

ghost use Rattle.std.specs.Prelude.{◌≡◌, ◌<◌, length, IfOk, OnOk};
ghost use Rattle.std.specs.List.{All};
ghost use Rattle.sparse_laws.specs.Written.{used_points as points_used};
ghost use Rattle.sparse_level.specs.Places.{with_point, with_points};
ghost use Rattle.channel_refine.specs.SparseMarks.{AreMarked};

use level_topology::Level;
use ratio128::Memory;
use std::alloc::Global;

// Adds a point unless it is marked already.
fn note_point(n: u32, is_listed: &mut Vec<bool>, points: &mut Vec<u32>) -> Result<(), Memory>
    requires marks { AreMarked points.old.items is_listed.old.items }
    requires inside { n < length is_listed.old.items }
    ensures points { OnOk result (points.new.items ≡ with_point points.old.items n) }
    ensures marks { OnOk result (AreMarked points.new.items is_listed.new.items) }
    ensures size { OnOk result (length is_listed.new.items ≡ length is_listed.old.items) }
{
    if is_listed[n as usize] {
        return Ok(());
    }
    is_listed[n as usize] = true;
    Ok(points.push(n)?)
}

// Adds those points of a list that are not marked.
fn note_points(
    corners: &[u32],
    is_listed: &mut Vec<bool>,
    points: &mut Vec<u32>,
) -> Result<(), Memory>
    requires marks { AreMarked points.old.items is_listed.old.items }
    requires inside { All (λ n. n < length is_listed.old.items) corners.now }
    ensures points { OnOk result (points.new.items ≡ with_points points.old.items corners.now) }
    ensures marks { OnOk result (AreMarked points.new.items is_listed.new.items) }
    ensures size { OnOk result (length is_listed.new.items ≡ length is_listed.old.items) }
{
    for n in corners {
        note_point(*n, is_listed, points)?;
    }
    Ok(())
}

// Returns the corners of the faces of a level, each once.
pub(crate) fn used_points(alloc: Global, level: &Level) -> Result<Vec<u32>, Memory>
    ensures { IfOk result (λ points. points.items ≡ points_used level.now.level) }
{
    level.facts();
    let mut is_listed = vec![in alloc; false; level.points() as usize]?;
    let mut points = Vec::new(alloc);
    for f in 0..level.faces() {
        note_points(level.face_vertices(f), &mut is_listed, &mut points)?;
    }
    Ok(points)
}
