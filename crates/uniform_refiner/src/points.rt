//! The points of the next level, with their lists in fan order.

ghost use Rattle.std.specs.Prelude.{◌≡◌, ℕ, ◌+◌, ◌<◌, true, false, length, get_or, OnOk};
ghost use Rattle.subdiv_model.specs.Edges.{edges_of};
ghost use Rattle.subdiv_model.specs.Sharpness.{Smooth};
ghost use Rattle.subdiv_model.specs.Child.{child_points, child_vertex_sharpness};
ghost use Rattle.sharpness_rules.specs.View.{sharpness_of};
ghost use Rattle.uniform_refiner.specs.Put.{AreChildEdges};
ghost use Rattle.uniform_refiner.specs.ChildRows.{IsChildRow};
ghost use Rattle.uniform_refiner.specs.Points.{ArePoints, without_points};

use crate::edge_points::put_edge_row;
use crate::face_points::put_face_row;
use crate::vertices::put_vertex_row;
use child_slots::{SlotEdges, edge_point_of};
use level_topology::{Level, LevelRows, PointLists};
use ratio128::Memory;
use sharpness_rules::{Sharpness, uniform_child};
use std::alloc::Global;

// Adds the next point.
fn put_row(level: &Level, v: u32, row: &PointLists, s: Sharpness, rows: &mut LevelRows)
    requires point { v < child_points level.now.level.point_count level.now.level.polygons }
    requires row { IsChildRow level.now.level v row.now }
    requires sharp { sharpness_of s ≡ get_or (child_vertex_sharpness level.now.level) v Smooth }
    requires before { ArePoints level.now.level v rows.old }
    ensures put { ArePoints level.now.level (v + 1) rows.new }
    ensures rest { without_points rows.new ≡ without_points rows.old }
{
    level.facts();
    rows.put_vertex(
        &row.faces,
        &row.faces_at,
        &row.edges,
        &row.edges_at,
        s,
        true,
    );
}

// Adds the points that come from vertices.
fn put_vertices(
    level: &Level,
    edges: &SlotEdges,
    row: &mut PointLists,
    rows: &mut LevelRows,
) -> Result<(), Memory>
    requires edges { AreChildEdges level.now.level edges.now }
    requires whole { (v : ℕ) → v < level.now.level.point_count → get_or level.now.complete v false ≡ true }
    requires before { ArePoints level.now.level 0 rows.old }
    ensures put { OnOk result (ArePoints level.now.level level.now.level.point_count rows.new) }
    ensures rest { without_points rows.new ≡ without_points rows.old }
{
    for v in 0..level.points() {
        put_vertex_row(level, edges, v, row)?;
        put_row(
            level,
            v,
            row,
            uniform_child(level.vertex_sharpness(v)),
            rows,
        );
    }
    Ok(())
}

// Adds the points of faces.
fn put_face_points(
    level: &Level,
    edges: &SlotEdges,
    row: &mut PointLists,
    rows: &mut LevelRows,
) -> Result<(), Memory>
    requires edges { AreChildEdges level.now.level edges.now }
    requires before { ArePoints level.now.level level.now.level.point_count rows.old }
    ensures put { OnOk result (ArePoints level.now.level (level.now.level.point_count + length level.now.level.polygons) rows.new) }
    ensures rest { without_points rows.new ≡ without_points rows.old }
{
    level.facts();
    for f in 0..level.faces() {
        put_face_row(level, edges, f, row)?;
        put_row(level, level.points() + f, row, Sharpness::Smooth, rows);
    }
    Ok(())
}

// Adds the points of edges.
fn put_edge_points(
    level: &Level,
    edges: &SlotEdges,
    row: &mut PointLists,
    rows: &mut LevelRows,
) -> Result<(), Memory>
    requires edges { AreChildEdges level.now.level edges.now }
    requires before { ArePoints level.now.level (level.now.level.point_count + length level.now.level.polygons) rows.old }
    ensures put { OnOk result (ArePoints level.now.level (child_points level.now.level.point_count level.now.level.polygons) rows.new) }
    ensures rest { without_points rows.new ≡ without_points rows.old }
{
    for e in 0..level.edges() {
        put_edge_row(level, edges, e, row)?;
        put_row(level, edge_point_of(level, e), row, Sharpness::Smooth, rows);
    }
    Ok(())
}

// Adds all points.
pub(crate) fn put_points(
    alloc: Global,
    level: &Level,
    edges: &SlotEdges,
    rows: &mut LevelRows,
) -> Result<(), Memory>
    requires edges { AreChildEdges level.now.level edges.now }
    requires whole { (v : ℕ) → v < level.now.level.point_count → get_or level.now.complete v false ≡ true }
    requires before { ArePoints level.now.level 0 rows.old }
    ensures put { OnOk result (ArePoints level.now.level (child_points level.now.level.point_count level.now.level.polygons) rows.new) }
    ensures rest { without_points rows.new ≡ without_points rows.old }
{
    let mut row = PointLists::new(alloc);
    put_vertices(level, edges, &mut row, rows)?;
    put_face_points(level, edges, &mut row, rows)?;
    put_edge_points(level, edges, &mut row, rows)
}
