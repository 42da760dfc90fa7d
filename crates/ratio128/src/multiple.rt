ghost use Rattle.std.specs.Prelude.{◌≡◌, ℕ, ◌*◌, ◌<◌, ◌≤◌, IsNone, IfSome, IfNone, ◌↔◌};
ghost use Rattle.ratio128.specs.Ratio.{IsLcm};

use crate::{gcd, quotient};

/// Returns the product, or `None` exactly where it is more than the bound.
pub fn times_within(a: u128, b: u128, bound: u128) -> Option<u128>
    ensures passed { IsNone result ↔ (bound < a * b) }
    ensures product { IfSome result (λ p. p ≡ a * b) }
    ensures within { IfSome result (λ p. p ≤ bound) }
{
    a.checked_mul(b).filter(|p| *p <= bound)
}

/// Returns the least common multiple of two numbers of at least 1, or `None` exactly where it is more than the bound.
pub fn lcm_within(a: u128, b: u128, bound: u128) -> Option<u128>
    requires a_positive { 0 < a }
    requires b_positive { 0 < b }
    ensures passed { IfNone result ((m : ℕ) → IsLcm a b m → bound < m) }
    ensures multiple { IfSome result (IsLcm a b) }
    ensures within { IfSome result (λ m. m ≤ bound) }
{
    let common = gcd(a, b);
    times_within(a, quotient(b, common), bound)
}
