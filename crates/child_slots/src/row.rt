//! The lists of the edges and faces at a point of the next level.

ghost use Rattle.std.specs.Prelude.{◌≡◌, ◌<◌, [], length, map, replicate, OnOk};
ghost use Rattle.std.specs.List.{All};
ghost use Rattle.child_slots.specs.Slotted.{end_in};

use crate::numbering::SlotEdges;
use ratio128::Memory;

/// Fills an empty list with `count` copies of a corner. Reports `Memory` where memory runs out.
pub fn put_corner(corner: u16, count: usize, at: &mut Vec<u16>) -> Result<(), Memory>
    requires none { at.old.items ≡ [] }
    ensures { OnOk result (at.new.items ≡ replicate count corner) }
{
    for _i in 0..count {
        at.push(corner)?;
    }
    Ok(())
}

/// Fills an empty list with one number for each edge of `list`: 0 where `point` is its first end, 1 where it is its second.
/// Reports `Memory` where memory runs out.
pub fn put_ends(
    edges: &SlotEdges,
    point: u32,
    list: &[u32],
    ends: &mut Vec<u16>,
) -> Result<(), Memory>
    requires inside { All (λ e. e < length edges.now.ends) list.now }
    requires none { ends.old.items ≡ [] }
    ensures { OnOk result (ends.new.items ≡ map (end_in edges.now.ends point) list.now) }
{
    for i in 0..list.len() {
        ends.push(end_at(edges, point, list[i]))?;
    }
    Ok(())
}

// Returns which end of an edge a point is: 0 for the first, 1 for the second.
fn end_at(edges: &SlotEdges, point: u32, e: u32) -> u16
    requires { e < length edges.now.ends }
    ensures { result ≡ end_in edges.now.ends point e }
{
    let (first, _) = edges.ends(e);
    if point == first { 0 } else { 1 }
}
