//! Marks at the places of a list.

ghost use Rattle.std.specs.Prelude.{◌≡◌, ℕ, ◌<◌, nat_eq, length, get_or, slice_set, replicate, IfOk};
ghost use Rattle.subdiv_model.specs.Polygons.{is_among};

use ratio128::Memory;
use std::alloc::Global;

// Returns `count` marks, none of them set.
pub(crate) fn no_marks(alloc: Global, count: usize) -> Result<Vec<u32>, Memory>
    ensures { IfOk result (λ marks. marks.items ≡ replicate count 0) }
{
    let marks = vec![in alloc; 0; count]?;
    Ok(marks)
}

// Returns whether a place has a mark, and sets it there.
pub(crate) fn mark_at(marks: &mut Vec<u32>, v: usize, mark: u32) -> bool
    requires { v < length marks.old.items }
    ensures was { result ≡ nat_eq (get_or marks.old.items v 0) mark }
    ensures marks { marks.new.items ≡ slice_set marks.old.items v mark }
{
    let was = marks[v] == mark;
    marks[v] = mark;
    was
}

// Sets the mark 1 at a place, if it is within the list.
pub(crate) fn set_mark(marks: &mut Vec<u32>, place: u32)
    ensures { marks.new.items ≡ slice_set marks.old.items place 1 }
{
    if (place as usize) < marks.len() {
        marks[place as usize] = 1;
    }
}

// Returns `count` marks, with the mark 1 at each of these places.
pub(crate) fn marks_of(alloc: Global, count: usize, places: &[u32]) -> Result<Vec<u32>, Memory>
    ensures size { IfOk result (λ marks. length marks.items ≡ count) }
    ensures set { IfOk result (λ marks. (j : ℕ) → j < count → nat_eq (get_or marks.items j 0) 1 ≡ is_among places.now j) }
{
    let mut marks = no_marks(alloc, count)?;
    let mut rest = places;
    while let [place, others @ ..] = rest {
        set_mark(&mut marks, *place);
        rest = others;
    }
    Ok(marks)
}

// Returns whether a place has the mark 1.
pub(crate) fn is_marked(marks: &[u32], place: u32) -> bool
    ensures { result ≡ nat_eq (get_or marks.now place 0) 1 }
{
    (place as usize) < marks.len() && marks[place as usize] == 1
}
