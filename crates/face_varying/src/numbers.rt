//! The numbers of channel points.

ghost use Rattle.std.specs.Prelude.{ℕ, ◌≡◌, ◌<◌, ◌^◌, nat_eq, List, length, IfOk};
ghost use Rattle.std.specs.List.{All, position_or_len};
ghost use Rattle.face_varying.specs.Corners.{numbers_of};
ghost use Rattle.face_varying.specs.FirstOnes.{seen_with, AreKnown};

use ratio128::Memory;
use std::alloc::Global;

// The mark in the table of a label without a number.
const UNMET: u32 = u32::MAX;

// Returns the number of a label. A label without one gets `next`.
fn number_of(known: &mut Vec<u32>, label: u32, next: u32) -> u32
    requires within { label < length known.old.items }
    requires few { next < 2 ^ 28 }
    ensures number { (seen : List ℕ) → AreKnown seen known.old.items → next ≡ length seen → result ≡ position_or_len (nat_eq label) seen }
    ensures known { (seen : List ℕ) → AreKnown seen known.old.items → next ≡ length seen → AreKnown (seen_with nat_eq seen label) known.new.items }
    ensures size { length known.new.items ≡ length known.old.items }
{
    let number = known[label as usize];
    if number != UNMET {
        return number;
    }
    known[label as usize] = next;
    next
}

// Numbers the labels by first appearance, through a table with a place for each label.
pub(crate) fn number_corners(alloc: Global, labels: &[u32]) -> Result<Vec<u32>, Memory>
    requires within { All (λ label. label < length labels.now) labels.now }
    requires few { length labels.now < 2 ^ 28 }
    ensures { IfOk result (λ numbers. numbers.items ≡ numbers_of labels.now) }
{
    let mut known = vec![in alloc; UNMET; labels.len()]?;
    let mut numbers = Vec::with_capacity(alloc, labels.len())?;
    let mut count = 0;
    for label in labels {
        let number = number_of(&mut known, *label, count);
        numbers.push_reserved(number);
        count += u32::from(number == count);
    }
    Ok(numbers)
}
