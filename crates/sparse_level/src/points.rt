//! The points of child faces, numbered by first appearance.

ghost use Rattle.std.specs.Prelude.{◌≡◌, ◌+◌, ◌-◌, ◌^◌, ◌<◌, ◌≤◌, not, nat_eq, [], length, map, get_or, IfOk, OnOk};
ghost use Rattle.std.specs.List.{All, position_or_len};
ghost use Rattle.subdiv_model.specs.Polygons.{is_among};
ghost use Rattle.level_topology.specs.ChildTables.{place_of};
ghost use Rattle.subdiv_model.specs.Child.{child_points};
ghost use Rattle.sparse_level.specs.Places.{points_at, with_point, with_points, ArePointsIn, AreWithin};

use child_slots::{ChildPoints, child_corners};
use level_topology::{FacePlace, Level};
use ratio128::Memory;
use std::alloc::Global;
use std::marker::Model;

// The mark in the table of a point without a number.
const NOWHERE: u32 = u32::MAX;

// Returns whether an entry of the table is a number.
fn is_there(number: u32) -> bool
    ensures { result ≡ not (nat_eq number (2 ^ 32 - 1)) }
{
    number != NOWHERE
}

/// Some points of the next level, each with a number of its own. A caller names a point by its number in the whole next
/// level.
#[derive(Drop)]
pub struct NumberedPoints {
    // For each point of the whole next level its number here.
    table: Vec<u32>,
    points: Vec<u32>,
}

impl Model for NumberedPoints {
    ghost use Rattle.std.specs.Prelude.{ℕ, List};
    ghost use Rattle.sparse_level.specs.Places.{ArePointsIn};

    ghost Value = { List ℕ };

    ghost view = { λ p. p.points.items };

    ghost invariant = { λ p. ArePointsIn p.points.items p.table.items };
}

impl ChildPoints for NumberedPoints {
    ghost has = { λ points n. is_among points n };

    ghost number = { λ points n. position_or_len (nat_eq n) points };

    fn has_point(&self, n: u32) -> bool {
        (n as usize) < self.table.len() && is_there(self.table[n as usize])
    }

    fn number_of(&self, n: u32) -> u32 {
        self.table[n as usize]
    }
}

impl NumberedPoints {
    /// Returns the number of each point in the whole next level, in the order of the points' own numbers.
    pub fn points(&self) -> &[u32]
        ensures { result.now ≡ self.now }
    {
        &self.points
    }
}

// Adds a point, if it has no number yet.
fn add_point(n: u32, table: &mut Vec<u32>, points: &mut Vec<u32>) -> Result<(), Memory>
    requires is { ArePointsIn points.old.items table.old.items }
    requires inside { n < length table.old.items }
    requires few { length points.old.items < 2 ^ 31 }
    ensures points { OnOk result (points.new.items ≡ with_point points.old.items n) }
    ensures is { OnOk result (ArePointsIn points.new.items table.new.items) }
    ensures count { OnOk result (length table.new.items ≡ length table.old.items) }
{
    if is_there(table[n as usize]) {
        return Ok(());
    }
    let number = points.len() as u32;
    points.push(n)?;
    table[n as usize] = number;
    Ok(())
}

// Adds each of some points that has no number yet.
fn add_points(corners: &[u32], table: &mut Vec<u32>, points: &mut Vec<u32>) -> Result<(), Memory>
    requires is { ArePointsIn points.old.items table.old.items }
    requires inside { All (λ n. n < length table.old.items) corners.now }
    requires few { length points.old.items + length corners.now ≤ 2 ^ 31 }
    ensures points { OnOk result (points.new.items ≡ with_points points.old.items corners.now) }
    ensures is { OnOk result (ArePointsIn points.new.items table.new.items) }
    ensures count { OnOk result (length table.new.items ≡ length table.old.items) }
{
    for n in corners {
        add_point(*n, table, points)?;
    }
    Ok(())
}

// Adds the corners of the child faces of some corners, each once.
fn put_points(
    level: &Level,
    places: &[FacePlace],
    table: &mut Vec<u32>,
    points: &mut Vec<u32>,
) -> Result<(), Memory>
    requires within { AreWithin level.now.level (map place_of places.now) }
    requires count { length table.old.items ≡ child_points level.now.level.point_count level.now.level.polygons }
    requires is { ArePointsIn points.old.items table.old.items }
    requires none { points.old.items ≡ [] }
    ensures points { OnOk result (points.new.items ≡ points_at level.now.level (map place_of places.now)) }
    ensures is { OnOk result (ArePointsIn points.new.items table.new.items) }
{
    level.facts();
    for i in 0..places.len() {
        let place = places[i];
        let quad = child_corners(level, place.face, place.corner as usize);
        add_points(&quad, table, points)?;
    }
    Ok(())
}

// Returns a table for the points of the whole next level, in which none has a number.
fn point_table(alloc: Global, level: &Level) -> Result<Vec<u32>, Memory>
    ensures count { IfOk result (λ table. length table.items ≡ child_points level.now.level.point_count level.now.level.polygons) }
    ensures none { IfOk result (λ table. ArePointsIn [] table.items) }
{
    level.facts();
    let count = level.points() + level.faces() + level.edges();
    Ok(vec![in alloc; NOWHERE; count as usize]?)
}

/// Numbers the corners of the child faces at `places`, by first appearance.
///
/// Reports `Memory` where memory runs out.
pub fn number_points(
    alloc: Global,
    level: &Level,
    places: &[FacePlace],
) -> Result<NumberedPoints, Memory>
    requires within { AreWithin level.now.level (map place_of places.now) }
    ensures { IfOk result (λ points. points ≡ points_at level.now.level (map place_of places.now)) }
{
    let mut table = point_table(alloc, level)?;
    let mut points = Vec::new(alloc);
    put_points(level, places, &mut table, &mut points)?;
    Ok(NumberedPoints { table, points })
}
