//! The lines of a map: one for each place of a face, with the leaf of the sparse levels that contains it.

ghost use Rattle.std.specs.Prelude.{◌≡◌, ◌<◌, [], ◌∷◌, false};
ghost use Rattle.subdiv_model.specs.Fractions.{lowest};
ghost use Rattle.subdiv_model.specs.NumberText.{ratio_text};
ghost use Rattle.subdiv_model.specs.Text.{line_text};
ghost use Rattle.subdiv_model.specs.Leaf.{leaf_line};
ghost use Rattle.patch_map.specs.View.{location_of};
ghost use Rattle.obj_out.specs.Puts.{Puts};
ghost use Rattle.far_text.specs.MapLines.{CanMapBePut, leaf_words, map_lines, position_words};

use crate::patch::{place_of, put_place};
use far_io::{Sink, WriteFailed};
use obj_out::Out;
use patch_map::Leaf;
use ratio128::Frac;

/// The leaves that contain the places of a face, row by row, on a grid of `grid` steps along each side.
///
/// The leaf of the place (i, j) has the number j * (grid + 1) + i. The position of the place on its leaf is in steps of the grid.
#[derive(Drop)]
pub struct MapLeaves {
    /// The number of steps along each side.
    pub grid: u32,
    /// The leaf of each place.
    pub leaves: Vec<Leaf>,
}

// Puts a space and a number of steps as a fraction of the grid, in lowest terms.
fn put_steps<K: Sink>(out: &mut Out<'_, K>, steps: u64, grid: u32) -> Result<(), WriteFailed>
    requires { 0 < grid }
    ensures { Puts K.Sink out.old out.new (32 ∷ ratio_text (lowest (steps, grid))) result }
{
    let f = Frac {
        num: steps as i128,
        den: grid as u128,
    };
    out.put_frac_after(b' ', &f)
}

// Returns the position of a place on its leaf, in steps of the grid.
fn position_on(leaf: &Leaf) -> (u64, u64)
    ensures { result ≡ ((location_of leaf.now).s, (location_of leaf.now).t) }
{
    (leaf.s, leaf.t)
}

// Puts the position of a place on its leaf, and the end of the line.
fn put_position<K: Sink>(
    out: &mut Out<'_, K>,
    position: (u64, u64),
    grid: u32,
) -> Result<(), WriteFailed>
    requires { 0 < grid }
    ensures { Puts K.Sink out.old out.new (line_text [] (position_words grid position)) result }
{
    out.put_bytes(b" at")?;
    put_steps(out, position.0, grid)?;
    put_steps(out, position.1, grid)?;
    out.put_byte(b'\n')
}

// Puts a leaf, the position of a place on it, and the end of the line.
fn put_leaf<K: Sink>(out: &mut Out<'_, K>, leaf: &Leaf, grid: u32) -> Result<(), WriteFailed>
    requires { 0 < grid }
    ensures { Puts K.Sink out.old out.new (line_text [] (leaf_words grid (location_of leaf.now))) result }
{
    out.put_count(b" level", leaf.level as u64)?;
    out.put_count(b" face", leaf.number)?;
    out.put_count(b" corner", leaf.corner as u64)?;
    put_position(out, position_on(leaf), grid)
}

// Puts the line of a place with its leaf.
fn put_leaf_line<K: Sink>(
    out: &mut Out<'_, K>,
    place: (u64, u64),
    leaf: &Leaf,
    grid: u32,
) -> Result<(), WriteFailed>
    requires { 0 < grid }
    ensures { Puts K.Sink out.old out.new (leaf_line grid place (location_of leaf.now)) result }
{
    put_place(out, b"p", place)?;
    put_leaf(out, leaf, grid)
}

/// Puts the text of a map: a line for each place with its leaf, row by row. It takes no memory.
pub fn put_map<K: Sink>(out: &mut Out<'_, K>, map: &MapLeaves) -> Result<(), WriteFailed>
    requires fine { out.old.failed ≡ false }
    requires written { CanMapBePut map.now }
    ensures { Puts K.Sink out.old out.new (map_lines map.now) result }
{
    let side = map.grid as u64 + 1;
    for number in 0..map.leaves.len() {
        let place = place_of(number as u64, side);
        put_leaf_line(out, place, &map.leaves[number], map.grid)?;
    }
    Ok(())
}
