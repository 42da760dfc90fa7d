//! Points numbered by first appearance.

ghost use Rattle.std.specs.Prelude.{ℕ, ◌≡◌, ◌<◌, ◌≤◌, ◌^◌, nat_eq, List, length, IfOk, OnOk};
ghost use Rattle.std.specs.List.{All, position_or_len};
ghost use Rattle.subdiv_model.specs.Lists.{each_once_by};
ghost use Rattle.level_topology.specs.ChildTables.{IsInverse};
ghost use Rattle.sparse_level.specs.Places.{with_point};
ghost use Rattle.sparse_level.specs.Numbers.{numbers_of};

use ratio128::Memory;
use std::alloc::Global;

// The mark in the table of a point without a number.
const UNNUMBERED: u32 = u32::MAX;

// Returns the number of a point. A point without one gets `next`.
fn number_of(table: &mut Vec<u32>, point: u32, next: u32) -> u32
    requires within { point < length table.old.items }
    requires few { next ≤ 2 ^ 30 }
    ensures number { (earlier : List ℕ) → IsInverse earlier table.old.items → next ≡ length earlier → result ≡ position_or_len (nat_eq point) earlier }
    ensures table { (earlier : List ℕ) → IsInverse earlier table.old.items → next ≡ length earlier → IsInverse (with_point earlier point) table.new.items }
    ensures size { length table.new.items ≡ length table.old.items }
{
    let number = table[point as usize];
    if number != UNNUMBERED {
        return number;
    }
    table[point as usize] = next;
    next
}

// Replaces each point by its number, and returns how many numbers there are. Points are numbered by first appearance, through
// a table with a place for each of `count` points.
pub(crate) fn number_points(alloc: Global, count: u32, points: &mut Vec<u32>) -> Result<u32, Memory>
    requires within { All (λ point. point < count) points.old.items }
    requires few { length points.old.items ≤ 2 ^ 30 }
    ensures numbers { OnOk result (points.new.items ≡ numbers_of points.old.items) }
    ensures count { IfOk result (λ n. n ≡ length (each_once_by nat_eq points.old.items)) }
{
    let mut table = vec![in alloc; UNNUMBERED; count as usize]?;
    let mut next = 0;
    for i in 0..points.len() {
        let number = number_of(&mut table, points[i], next);
        points[i] = number;
        next += u32::from(number == next);
    }
    Ok(next)
}
