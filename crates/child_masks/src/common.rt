//! Common denominators. A number 0 represents one above the bound.

ghost use Rattle.std.specs.Prelude.{◌≡◌, ℕ, ◌*◌, ◌<◌, true};
ghost use Rattle.std.specs.Int.{◌∣◌};
ghost use Rattle.subdiv_model.specs.Multiples.{lcm_of};
ghost use Rattle.child_masks.specs.Survey.{within_bound};

use ratio128::limits::NUMBER_BOUND;
use ratio128::{lcm_within, times_within};

// Returns whether a number is a power of two that divides another, from their lowest bits.
fn is_shift(c: u128, m: u128) -> bool
    requires c { 0 < c }
    requires m { 0 < m }
    ensures { result ≡ true → c ∣ m }
{
    let twos = c.trailing_zeros();
    twos <= m.trailing_zeros() && c >> twos == 1
}

// Returns the least common multiple of two numbers, neither of them 0.
fn multiple(m: u128, c: u128) -> u128
    requires m { 0 < m }
    requires c { 0 < c }
    ensures { result ≡ within_bound (lcm_of m c) }
{
    lcm_within(m, c, NUMBER_BOUND).unwrap_or(0)
}

/// Returns the least common multiple of two common denominators. Each of the three is 0 if it is above 2^126 - 1. The call
/// takes no memory.
pub fn common_multiple(m: u128, c: u128) -> u128
    ensures { (a b : ℕ) → 0 < a → 0 < b → m ≡ within_bound a → c ≡ within_bound b → result ≡ within_bound (lcm_of a b) }
{
    if c == m || c == 1 {
        return m;
    }
    if m == 0 || c == 0 {
        return 0;
    }
    if m == 1 {
        return c;
    }
    if is_shift(c, m) {
        return m;
    }
    if is_shift(m, c) {
        return c;
    }
    multiple(m, c)
}

/// Returns a denominator times a number, or 0 if the product is above 2^126 - 1.
pub(crate) fn scaled(q: u128, m: u128) -> u128
    ensures { (a : ℕ) → 0 < q → 0 < a → m ≡ within_bound a → result ≡ within_bound (q * a) }
{
    times_within(q, m, NUMBER_BOUND).unwrap_or(0)
}
