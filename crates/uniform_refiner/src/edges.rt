//! The edges of the next level, with their sharpness.

ghost use Rattle.std.specs.Prelude.{◌≡◌, ◌<◌, ◌≤◌, length, get_or, map, IfSome};
ghost use Rattle.subdiv_model.specs.Sharpness.{Smooth};
ghost use Rattle.sharpness_rules.specs.View.{sharpness_of};
ghost use Rattle.level_topology.specs.Topology.{Topology, IsTopology};
ghost use Rattle.level_topology.specs.View.{listed, faces_of_pair};
ghost use Rattle.uniform_refiner.specs.Put.{AreChildEdges, HasAllHalves, with_child_edges};

use child_slots::SlotEdges;
use level_topology::{EdgeFaces, Level, LevelRows};
use sharpness_rules::Sharpness;

// Returns the faces of an edge. The two numbers are equal where the edge has one face.
fn faces_from(pair: (u32, u32)) -> EdgeFaces
    requires { pair.0 ≤ pair.1 }
    ensures faces { listed result ≡ faces_of_pair pair }
    ensures order { IfSome result.second (λ second. result.first < second) }
{
    let (first, last) = pair;
    let second = if last == first { None } else { Some(last) };
    EdgeFaces { first, second }
}

// Returns the sharpness of the edge with a slot. An edge inside a face is smooth.
fn sharpness_at(halves: &[Sharpness], slot: u32) -> Sharpness
    ensures { sharpness_of result ≡ get_or (map sharpness_of halves.now) slot Smooth }
{
    if (slot as usize) < halves.len() {
        halves[slot as usize]
    } else {
        Sharpness::Smooth
    }
}

// Adds all edges; `halves` has the sharpness of each half at its slot.
pub(crate) fn put_edges(
    level: &Level,
    edges: &SlotEdges,
    halves: &[Sharpness],
    rows: &mut LevelRows,
)
    requires edges { AreChildEdges level.now.level edges.now }
    requires halves { HasAllHalves level.now.level (map sharpness_of halves.now) }
    requires count { rows.old.counts.edges ≡ length edges.now.ends }
    requires none { rows.old ≡ with_child_edges level.now.level 0 rows.old }
    ensures { rows.new ≡ with_child_edges level.now.level (length edges.now.ends) rows.old }
{
    level.facts();
    for e in 0..edges.len() {
        let (first, second) = edges.ends(e);
        let s = sharpness_at(halves, edges.slot(e));
        rows.put_edge(first, second, faces_from(edges.faces(e)), s);
    }
}
