//! The places of the first children of selected faces in the next level's list of faces.

ghost use Rattle.std.specs.Prelude.{◌≡◌, ℕ, ◌*◌, ◌^◌, ◌<◌, ◌≤◌, false, nat_le, Some, None, length, map, get_or, IfOk, if◌then◌else◌};
ghost use Rattle.std.specs.List.{All, position_or_len};
ghost use Rattle.patch_map.specs.Map.{Rises, firsts_of};

use ratio128::Memory;
use std::alloc::Global;

// Whether the face at a place is marked.
fn is_marked(selected: &[bool], place: usize) -> bool
    ensures { result ≡ get_or selected.now place false }
{
    place < selected.len() && selected[place]
}

// The place if it is marked, else `None`.
fn marked_place(is_marked: bool, place: usize) -> Option<u32>
    requires { place < 2 ^ 32 }
    ensures { result ≡ (if is_marked then Some place else None) }
{
    if is_marked { Some(place as u32) } else { None }
}

// The first place, from `from` on, whose number is not below `start`.
fn place_from(numbers: &[u64], from: usize, start: u64) -> usize
    requires { from ≤ length numbers.now }
    ensures place { ((k : ℕ) → k < from → get_or numbers.now k 0 < start) → result ≡ position_or_len (nat_le start) numbers.now }
    ensures inside { result ≤ length numbers.now }
{
    let mut place = from;
    while place < numbers.len() && numbers[place] < start {
        place += 1;
    }
    place
}

/// For each face the place of its first child, or `None` if the face is not marked. `starts` gives the number of each face's first child.
///
/// Error: `Memory`.
pub(crate) fn first_places(
    alloc: Global,
    selected: &[bool],
    starts: &[u64],
    numbers: &[u64],
) -> Result<Vec<Option<u32>>, Memory>
    requires { length numbers.now < 2 ^ 32 }
    ensures { Rises starts.now → IfOk result (λ firsts. firsts.items ≡ firsts_of selected.now starts.now numbers.now) }
{
    let mut firsts = Vec::with_capacity(alloc, starts.len())?;
    let mut place = 0;
    for f in 0..starts.len() {
        place = place_from(numbers, place, starts[f]);
        firsts.push(marked_place(is_marked(selected, f), place))?;
    }
    Ok(firsts)
}

/// The number of the first child of each quad: four times the number of the quad.
///
/// Error: `Memory`.
pub(crate) fn quad_starts(alloc: Global, numbers: &[u64]) -> Result<Vec<u64>, Memory>
    requires { All (λ n. n < 2 ^ 60) numbers.now }
    ensures { IfOk result (λ starts. starts.items ≡ map (λ n. 4 * n) numbers.now) }
{
    let mut starts = Vec::with_capacity(alloc, numbers.len())?;
    for n in numbers {
        starts.push(4 * *n)?;
    }
    Ok(starts)
}
