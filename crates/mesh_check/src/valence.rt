//! The number of edges at each vertex, from the numbers of the edges, before a level exists.

ghost use Rattle.std.specs.Prelude.{◌≡◌, ℕ, ◌+◌, ◌^◌, ◌<◌, nat_eq, None, length, get_or, IfOk, if◌then◌else◌};
ghost use Rattle.std.specs.List.{All, count_by, sum_by};
ghost use Rattle.subdiv_model.specs.Lists.{first_of};
ghost use Rattle.subdiv_model.specs.Edges.{all_sides, edges_of_point};
ghost use Rattle.subdiv_model.specs.Base.{base_level};
ghost use Rattle.subdiv_model.specs.MeshFault.{first_mesh_fault};
ghost use Rattle.level_builder.specs.Keys.{AreEdgeKeys, ends_of_key, each_once};
ghost use Rattle.mesh_check.specs.Counts.{size_faults, valence_faults, count_named};

use crate::base_corners::count_face;
use crate::marks::no_marks;
use level_builder::is_again;
use level_topology::Counted;
use ratio128::Memory;
use ratio128::limits::SIZE_LIMIT;
use raw_mesh::RawMesh;
use std::alloc::Global;

// Counts an edge at its two ends, unless its number occurs again later.
fn count_ends(counts: &mut Vec<u32>, key: u64, again: bool)
    requires inside { All (λ v. v < length counts.old.items) (ends_of_key key) }
    requires countable { (v : ℕ) → get_or counts.old.items v 0 + 2 < 2 ^ 32 }
    ensures counts { (v : ℕ) → get_or counts.new.items v 0 ≡ get_or counts.old.items v 0 + (if again then 0 else count_by (nat_eq v) (ends_of_key key)) }
    ensures size { length counts.new.items ≡ length counts.old.items }
{
    if !again {
        let ends = [(key >> 32) as u32, (key % (1 << 32)) as u32];
        count_face(counts, &ends);
    }
}

// Returns the number of edges at each point. The numbers of the edges ascend, so equal ones are neighbours; the last of them
// is counted.
fn edge_counts(alloc: Global, points: usize, edges: &[u64]) -> Result<Vec<u32>, Memory>
    requires inside { All (λ key. All (λ v. v < points) (ends_of_key key)) edges.now }
    requires few { length (each_once edges.now) < 2 ^ 30 }
    ensures size { IfOk result (λ counts. length counts.items ≡ points) }
    ensures counts { IfOk result (λ counts. (v : ℕ) → get_or counts.items v 0 ≡ sum_by (λ key. count_by (nat_eq v) (ends_of_key key)) (each_once edges.now)) }
{
    let mut counts = no_marks(alloc, points)?;
    let mut rest = edges;
    while let [key, others @ ..] = rest {
        let again = is_again(rest, 1, *key);
        count_ends(&mut counts, *key, again);
        rest = others;
    }
    Ok(counts)
}

// Returns the first vertex with too many edges, from the number of edges at each. Only the contract uses `raw`.
fn crowded_vertex(raw: &RawMesh, counts: &[u32]) -> Option<Counted>
    requires few { length counts.now < 2 ^ 32 }
    requires size { length counts.now ≡ length raw.now.points }
    requires counts { (v : ℕ) → get_or counts.now v 0 ≡ length (edges_of_point raw.now.faces v) }
    ensures { count_named result ≡ first_of (valence_faults (base_level raw.now)) }
{
    let _ = raw;
    for v in 0..counts.len() as u32 {
        let count = counts[v as usize] as usize;
        if count > SIZE_LIMIT {
            return Some(Counted::Valence {
                vertex: v,
                count: count as u64,
            });
        }
    }
    None
}

// Returns the first vertex with too many edges, from the numbers of the edges of all sides. It needs no level.
pub(crate) fn valence_fault(
    alloc: Global,
    raw: &RawMesh,
    edges: &[u64],
) -> Result<Option<Counted>, Memory>
    requires sound { first_mesh_fault (length raw.now.points) raw.now.faces ≡ None }
    requires small { first_of (size_faults raw.now) ≡ None }
    requires keys { AreEdgeKeys (all_sides raw.now.faces) edges.now }
    ensures { IfOk result (λ found. count_named found ≡ first_of (valence_faults (base_level raw.now))) }
{
    raw.facts();
    let counts = edge_counts(alloc, raw.points().len(), edges)?;
    Ok(crowded_vertex(raw, &counts))
}
