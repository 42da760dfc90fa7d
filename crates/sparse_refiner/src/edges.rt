//! The sharpness of the edges of a part.

ghost use Rattle.std.specs.Prelude.{◌≡◌, ◌<◌, length, map, get_or, IfOk};
ghost use Rattle.sharpness_rules.specs.View.{sharpness_of};
ghost use Rattle.sparse_refiner.specs.Tables.{slot_sharpness};

use child_slots::SlotEdges;
use ratio128::Memory;
use sharpness_rules::Sharpness;
use std::alloc::Global;

// Returns the sharpness of the edge with a slot. An edge inside a face is smooth.
fn sharpness_at(halves: &[Sharpness], slot: u32) -> Sharpness
    ensures { sharpness_of result ≡ slot_sharpness (map sharpness_of halves.now) slot }
{
    if (slot as usize) < halves.len() {
        halves[slot as usize]
    } else {
        Sharpness::Smooth
    }
}

// Returns the sharpness of an edge.
fn sharpness_of_edge(edges: &SlotEdges, halves: &[Sharpness], e: u32) -> Sharpness
    requires { e < length edges.now.ends }
    ensures { sharpness_of result ≡ slot_sharpness (map sharpness_of halves.now) (get_or edges.now.slots e 0) }
{
    sharpness_at(halves, edges.slot(e))
}

// Returns the sharpness of all edges; `halves` has the sharpness of each half at its slot.
pub(crate) fn edge_sharpness(
    alloc: Global,
    edges: &SlotEdges,
    halves: &[Sharpness],
) -> Result<Vec<Sharpness>, Memory>
    requires listed { length edges.now.slots ≡ length edges.now.ends }
    ensures { IfOk result (λ values. map sharpness_of values.items ≡ map (slot_sharpness (map sharpness_of halves.now)) edges.now.slots) }
{
    let mut values = Vec::with_capacity(alloc, edges.len() as usize)?;
    for e in 0..edges.len() {
        values.push(sharpness_of_edge(edges, halves, e))?;
    }
    Ok(values)
}
