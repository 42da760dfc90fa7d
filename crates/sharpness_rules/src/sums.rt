ghost use Rattle.std.specs.Prelude.{◌≡◌, ◌*◌, ◌^◌, ◌<◌, ◌≤◌, ℕ, List, ◌++◌, IfNone, IfSome, length, map};
ghost use Rattle.std.specs.List.{flat_map};
ghost use Rattle.ratio128.specs.Ratio.{IsLcm};
ghost use Rattle.subdiv_model.specs.Rule.{ended_value, ended_values};
ghost use Rattle.subdiv_model.specs.Sharpness.{semi_values};
ghost use Rattle.sharpness_rules.specs.Totals.{IsTotal, Sums, parts_over};
ghost use Rattle.sharpness_rules.specs.View.{sharpness_of};

use crate::total::Total;
use crate::{Semi, SharpOverflow, Sharpness};
use ratio128::lcm_within;
use ratio128::limits::SHARPNESS_BOUND;

/// Returns the value as a numerator over `den`. It is exact if `den` is a multiple of the value's denominator.
pub fn parts_of(value: Semi, den: u128) -> u128
    requires short { den ≤ 2 ^ 60 }
    ensures parts { result ≡ parts_over den (value.num, value.den) }
    ensures bounded { result ≤ 10 * den }
{
    value.num() as u128 * (den / value.den() as u128)
}

// Returns the least common multiple of two denominators, if it is at most 2^60. Whole values and equal denominators need no common
// divisor.
fn common_denominator(a: u128, b: u128) -> Option<u128>
    requires a_positive { 0 < a }
    requires b_positive { 0 < b }
    requires short { a ≤ 2 ^ 60 }
    ensures passed { IfNone result ((m : ℕ) → IsLcm a b m → 2 ^ 60 < m) }
    ensures multiple { IfSome result (IsLcm a b) }
    ensures within { IfSome result (λ m. m ≤ 2 ^ 60) }
{
    if b == 1 || a == b {
        return Some(a);
    }
    lcm_within(a, b, SHARPNESS_BOUND)
}

// Returns the total plus one value if `s` is semi-sharp, and the same total otherwise. `SharpOverflow`: the common denominator exceeds
// 2^60.
fn plus(total: Total, s: Sharpness) -> Result<Total, SharpOverflow>
    requires countable { total.count < 2 ^ 32 }
    ensures { (values : List (ℕ × ℕ)) → IsTotal values total
        → Sums (values ++ semi_values (sharpness_of s)) result }
{
    let Sharpness::Semi(value) = s else {
        return Ok(total);
    };
    let Some(den) = common_denominator(total.den, value.den() as u128) else {
        return Err(SharpOverflow);
    };
    Ok(Total {
        count: total.count + 1,
        num: total.num * (den / total.den) + parts_of(value, den),
        den,
    })
}

/// Returns the sum of the semi-sharp edges of a ring. `SharpOverflow`: their common denominator exceeds 2^60.
pub fn total_of_ring(ring: &[Sharpness]) -> Result<Total, SharpOverflow>
    requires short { length ring.now < 2 ^ 32 }
    ensures { Sums (flat_map semi_values (map sharpness_of ring.now)) result }
{
    let mut total = Total::none();
    for s in ring {
        total = plus(total, *s)?;
    }
    Ok(total)
}

// Returns the value if it ends: above 0 at this level, and 0 at the next.
fn ended(now: Sharpness, next: Sharpness) -> Sharpness
    ensures { semi_values (sharpness_of result) ≡ ended_value (sharpness_of now, sharpness_of next) }
{
    if next.is_sharp() {
        Sharpness::Smooth
    } else {
        now
    }
}

// Returns the sum of the vertex's value if it ends, and the empty sum otherwise.
fn total_of_vertex(vertex: Sharpness, vertex_child: Sharpness) -> Result<Total, SharpOverflow>
    ensures { Sums (ended_value (sharpness_of vertex, sharpness_of vertex_child)) result }
{
    plus(Total::none(), ended(vertex, vertex_child))
}

/// Returns the sum of the values, at a vertex and in its ring, that end: semi-sharp at this level and 0 at the next. `SharpOverflow`: their
/// common denominator exceeds 2^60.
pub fn total_of_ended(
    vertex: Sharpness,
    vertex_child: Sharpness,
    ring: &[Sharpness],
    ring_child: &[Sharpness],
) -> Result<Total, SharpOverflow>
    requires short { length ring.now < 2 ^ 32 }
    requires same_length { length ring.now ≡ length ring_child.now }
    ensures { Sums (ended_values (sharpness_of vertex) (sharpness_of vertex_child)
        (map sharpness_of ring.now) (map sharpness_of ring_child.now)) result }
{
    let mut total = total_of_vertex(vertex, vertex_child)?;
    for (i, s) in ring.iter().enumerate() {
        total = plus(total, ended(*s, ring_child[i]))?;
    }
    Ok(total)
}
