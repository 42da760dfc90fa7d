//! The sharpness of the halves of all edges, by their slots. No half depends on the order of the edges at its point.

ghost use Rattle.std.specs.Prelude.{◌≡◌, ℕ, ◌+◌, ◌*◌, ◌<◌, Bool, true, length, map, replicate, IfOk, MatchResult, OnOk};
ghost use Rattle.subdiv_model.specs.Edges.{edges_of};
ghost use Rattle.subdiv_model.specs.Sharpness.{Smooth};
ghost use Rattle.sharpness_rules.specs.View.{sharpness_of};
ghost use Rattle.child_slots.specs.HalfTable.{AreHalvesPut, AreHalvesBefore, AreAllHalves, IsHalfInRing, IsHalfRefusal, ring_listed};

use crate::corners::half_slot_of;
use crate::fault::HalfFault;
use crate::points::ChildPoints;
use level_topology::Level;
use ratio128::Memory;
use sharpness_rules::{Halves, Sharpness};
use std::alloc::Global;

// Writes the sharpness of the edges at a point, in the order of its list. The call reuses the memory of `ring`.
fn put_ring(level: &Level, v: u32, ring: &mut Vec<Sharpness>) -> Result<(), Memory>
    requires known { v < level.now.level.point_count }
    ensures { OnOk result (map sharpness_of ring.new.items ≡ ring_listed level.now v) }
{
    level.facts();
    ring.clear();
    let edges = level.vertex_edges(v);
    for i in 0..edges.len() {
        ring.push(level.edge_sharpness(edges[i]))?;
    }
    Ok(())
}

// Returns the sharpness of the half of an edge, in a ring whose halves do not overflow.
fn half_of(around: Halves, s: Sharpness) -> Sharpness
    ensures { IsHalfInRing around s result }
{
    match around.half(s) {
        Ok(half) => half,
        Err(_) => s,
    }
}

// Writes the halves of the edges at a point, if they do not overflow.
fn put_halves(
    level: &Level,
    v: u32,
    ring: &[Sharpness],
    halves: &mut [Sharpness],
) -> Result<(), HalfFault>
    requires known { v < level.now.level.point_count }
    requires size { length halves.old ≡ 2 * length (edges_of level.now.level.polygons) }
    requires ring { map sharpness_of ring.now ≡ ring_listed level.now v }
    ensures { (has : ℕ → Bool) → has v ≡ true → AreHalvesBefore level.now has v halves.old
        → MatchResult result (λ _. AreHalvesBefore level.now has (v + 1) halves.new) (IsHalfRefusal level.now has) }
{
    level.facts();
    let around = Halves::of(level.method(), ring);
    if around.overflows() {
        return Err(HalfFault::Chaikin(v));
    }
    let edges = level.vertex_edges(v);
    for i in 0..edges.len() {
        let slot = half_slot_of(level, v, edges[i]);
        halves[slot as usize] = half_of(around, ring[i]);
    }
    Ok(())
}

/// Returns a table of two places for each edge, each smooth. Reports `Memory` where memory runs out.
pub fn half_table(alloc: Global, level: &Level) -> Result<Vec<Sharpness>, Memory>
    ensures size { IfOk result (λ halves. length halves.items ≡ 2 * length (edges_of level.now.level.polygons)) }
    ensures smooth { IfOk result (λ halves. map sharpness_of halves.items ≡ replicate (2 * length (edges_of level.now.level.polygons)) Smooth) }
{
    level.facts();
    let count = 2 * level.edges() as usize;
    Ok(vec![in alloc; Sharpness::Smooth; count]?)
}

// Writes the halves of the edges at a point, if the part has the point and they do not overflow. `ring` is working memory.
fn put_point<P: ChildPoints>(
    level: &Level,
    points: &P,
    v: u32,
    ring: &mut Vec<Sharpness>,
    halves: &mut [Sharpness],
) -> Result<(), HalfFault>
    requires known { v < level.now.level.point_count }
    requires before { AreHalvesPut level.now (P.has points.now) v 0 (map sharpness_of halves.old) }
    ensures { MatchResult result (λ _. AreHalvesPut level.now (P.has points.now) (v + 1) 0 (map sharpness_of halves.new)) (IsHalfRefusal level.now (P.has points.now)) }
{
    if !points.has_point(v) {
        return Ok(());
    }
    put_ring(level, v, ring)?;
    put_halves(level, v, ring, halves)
}

// Writes the halves of all edges, or returns the first point at which they overflow. `ring` is working memory.
fn put_by_points<P: ChildPoints>(
    level: &Level,
    points: &P,
    ring: &mut Vec<Sharpness>,
    halves: &mut [Sharpness],
) -> Result<(), HalfFault>
    requires size { length halves.old ≡ 2 * length (edges_of level.now.level.polygons) }
    ensures { MatchResult result (λ _. AreAllHalves level.now (P.has points.now) (map sharpness_of halves.new)) (IsHalfRefusal level.now (P.has points.now)) }
{
    level.facts();
    for v in 0..level.points() {
        put_point(level, points, v, ring, halves)?;
    }
    Ok(())
}

/// Writes the sharpness of each half at its slot, for the points that a part has.
///
/// Reports `Chaikin` with the first of these points, counted from 0, at which halves overflow. Reports `Memory` where memory
/// runs out. After an error the table has the halves of some points.
pub fn put_all_halves<P: ChildPoints>(
    alloc: Global,
    level: &Level,
    points: &P,
    halves: &mut [Sharpness],
) -> Result<(), HalfFault>
    requires size { length halves.old ≡ 2 * length (edges_of level.now.level.polygons) }
    ensures { MatchResult result (λ _. AreAllHalves level.now (P.has points.now) (map sharpness_of halves.new)) (IsHalfRefusal level.now (P.has points.now)) }
{
    let mut ring = Vec::new(alloc);
    put_by_points(level, points, &mut ring, halves)
}
