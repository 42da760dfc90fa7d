//! The channel points with one corner.

ghost use Rattle.std.specs.Prelude.{◌≡◌, ℕ, ◌+◌, ◌<◌, nat_eq, length, map, get_or, min, IfOk, if◌then◌else◌};
ghost use Rattle.std.specs.List.{count_by, range_with_len};

use ratio128::Memory;
use std::alloc::Global;

// Counts a corner at its point, if there is such a point. Counts above 255 become 255.
fn count_corner(counts: &mut Vec<u8>, point: u32)
    ensures size { length counts.new.items ≡ length counts.old.items }
    ensures counts { (p : ℕ) → p < length counts.old.items → get_or counts.new.items p 0 ≡ (if nat_eq p point then min (get_or counts.old.items p 0 + 1) 255 else get_or counts.old.items p 0) }
{
    if (point as usize) < counts.len() {
        counts[point as usize] = counts[point as usize].saturating_add(1);
    }
}

// Returns the number of corners of each point, from the points of all corners.
fn corner_counts(alloc: Global, numbers: &[u32], points: usize) -> Result<Vec<u8>, Memory>
    ensures size { IfOk result (λ counts. length counts.items ≡ points) }
    ensures counts { IfOk result (λ counts. (p : ℕ) → p < points → get_or counts.items p 0 ≡ min (count_by (nat_eq p) numbers.now) 255) }
{
    let mut counts = vec![in alloc; 0; points]?;
    for point in numbers {
        count_corner(&mut counts, *point);
    }
    Ok(counts)
}

// Returns whether a count is 1.
fn is_single(count: u8) -> bool
    ensures { result ≡ nat_eq count 1 }
{
    count == 1
}

// Returns for each point whether it has one corner.
pub(crate) fn single_points(
    alloc: Global,
    numbers: &[u32],
    points: usize,
) -> Result<Vec<bool>, Memory>
    ensures { IfOk result (λ marks. marks.items ≡ map (λ p. nat_eq (count_by (nat_eq p) numbers.now) 1) (range_with_len 0 points)) }
{
    let counts = corner_counts(alloc, numbers, points)?;
    let mut marks = Vec::with_capacity(alloc, points)?;
    for i in 0..points {
        marks.push(is_single(counts[i]))?;
    }
    Ok(marks)
}
