//! The test whether items form one chain. Each item leads to at most one other.

ghost use Rattle.std.specs.Prelude.{◌≡◌, ℕ, ◌^◌, ◌<◌, true, false, nat_eq, length, get_or, IfOk, MatchOption};
ghost use Rattle.mesh_check.specs.Chain.{IsOneChain, IsStart, is_long_walk};

use crate::marks::{mark_at, marks_of, no_marks};
use ratio128::Memory;
use std::alloc::Global;

// Returns the first place without the mark 1.
fn first_bare(marks: &[u32]) -> Option<usize>
    ensures { MatchOption result ((j : ℕ) → j < length marks.now → nat_eq (get_or marks.now j 0) 1 ≡ true) (λ s. (s < length marks.now) × (nat_eq (get_or marks.now s 0) 1 ≡ false)) }
{
    for j in 0..marks.len() {
        if marks[j] != 1 {
            return Some(j);
        }
    }
    None
}

// Returns an item at which a chain of all items can begin.
fn start_of(alloc: Global, next: &[u32]) -> Result<usize, Memory>
    ensures { IfOk result (λ s. IsStart next.now s) }
{
    let led = marks_of(alloc, next.len(), next)?;
    Ok(first_bare(&led).unwrap_or(0))
}

// Returns whether a walk visits all items before it ends or repeats one.
fn is_long_walk(alloc: Global, next: &[u32], start: u32) -> Result<bool, Memory>
    ensures { IfOk result (λ long. long ≡ is_long_walk next.now start) }
{
    let mut marks = no_marks(alloc, next.len())?;
    let mut i = start;
    let mut steps = next.len();
    while steps > 0 {
        if (i as usize) >= next.len() {
            return Ok(false);
        }
        if mark_at(&mut marks, i as usize, 1) {
            return Ok(false);
        }
        i = next[i as usize];
        steps -= 1;
    }
    Ok(true)
}

// Returns whether all items form one chain.
pub(crate) fn is_one_chain(alloc: Global, next: &[u32]) -> Result<bool, Memory>
    requires { length next.now < 2 ^ 32 }
    ensures chain { IfOk result (λ is. is ≡ true → IsOneChain next.now) }
    ensures broken { IfOk result (λ is. is ≡ false → IsOneChain next.now → ⊥) }
{
    let start = start_of(alloc, next)?;
    let long = is_long_walk(alloc, next, start as u32)?;
    Ok(long)
}
