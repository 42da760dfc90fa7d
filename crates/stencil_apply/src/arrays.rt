//! The rows of a table, packed into flat arrays: 12 or 20 bytes an entry, and 20 bytes a row.

ghost use Rattle.std.specs.Prelude.{◌≡◌, ◌<◌, ◌∷◌, length, get_or, slice_range};
ghost use Rattle.number_width.specs.Numbers.{numbers_in};
ghost use Rattle.stencil_apply.specs.Arrays.{Ascend};

use number_width::{NumberList, NumberSlice};

// The rows as arrays. The entries of a row end where those of the next begin.
#[derive(Drop)]
pub(crate) struct Arrays {
    pub(crate) controls: u32,
    pub(crate) greatest: u128,
    pub(crate) ends: Vec<u32>,
    pub(crate) indices: Vec<u32>,
    pub(crate) numerators: NumberList,
    pub(crate) denominators: Vec<u128>,
}

// Returns the start of the entries of a row.
pub(crate) fn start(ends: &[u32], row: u32) -> usize
    requires { row < length ends.now }
    ensures { result ≡ get_or (0 ∷ ends.now) row 0 }
{
    if row == 0 {
        0
    } else {
        ends[row as usize - 1] as usize
    }
}

// Returns the part of an array for the entries of a row.
pub(crate) fn part<'a, T>(ends: &[u32], items: &'a [T], row: u32) -> &'a [T]
    requires ascend { Ascend 0 ends.now (length items.now) }
    requires inside { row < length ends.now }
    ensures { result.now ≡ slice_range items.now (get_or (0 ∷ ends.now) row 0) (get_or ends.now row 0) }
{
    let from = start(ends, row);
    let to = ends[row as usize] as usize;
    &items[from..to]
}

// Returns the part of a list of numbers for the entries of a row.
pub(crate) fn number_part<'a>(ends: &[u32], numbers: &'a NumberList, row: u32) -> NumberSlice<'a>
    requires ascend { Ascend 0 ends.now (length numbers.now.items) }
    requires inside { row < length ends.now }
    ensures { numbers_in result ≡ slice_range numbers.now.items (get_or (0 ∷ ends.now) row 0) (get_or ends.now row 0) }
{
    let from = start(ends, row);
    let to = ends[row as usize] as usize;
    numbers.range(from, to)
}
