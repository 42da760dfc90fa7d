ghost use Rattle.std.specs.Prelude.{◌≡◌, ◌*◌, ◌^◌, ◌<◌, ◌≤◌, IfOk, IsErr, IsTrue, ◌↔◌, length, map};
ghost use Rattle.subdiv_model.specs.Rule.{at_most_one, transition_weight, transition_overflows};
ghost use Rattle.sharpness_rules.specs.View.{sharpness_of};

use crate::sums::total_of_ended;
use crate::total::Total;
use crate::{SharpOverflow, Sharpness};
use ratio128::limits::SHARPNESS_BOUND;
use ratio128::{gcd, times_within};

/// The weight of the mask of this level: a fraction in lowest terms, above 0 and at most 1.
#[derive(Clone, Copy, Debug, PartialEq, Eq)]
pub struct Weight {
    pub num: u64,
    pub den: u64,
}

/// Returns the weight of this level's mask at a vertex whose mask changes at the next level.
///
/// It is the mean of the values that end, at most 1. A value of the vertex or of an edge ends if it is above 0 at this level and 0 at the
/// next. An infinite value never ends. If no value ends, the weight is 1. `ring` and `ring_child` list the edges in the same order. Source:
/// this profile.
///
/// `SharpOverflow`: the count of those values times the least common multiple of their denominators exceeds 2^60.
pub fn transition_weight(
    vertex: Sharpness,
    vertex_child: Sharpness,
    ring: &[Sharpness],
    ring_child: &[Sharpness],
) -> Result<Weight, SharpOverflow>
    requires short { length ring.now < 2 ^ 32 }
    requires same_length { length ring.now ≡ length ring_child.now }
    ensures overflow { IsErr result ↔ IsTrue (transition_overflows (sharpness_of vertex) (sharpness_of vertex_child)
        (map sharpness_of ring.now) (map sharpness_of ring_child.now)) }
    ensures weight { IfOk result (λ w. (w.num, w.den) ≡ transition_weight (sharpness_of vertex) (sharpness_of vertex_child)
        (map sharpness_of ring.now) (map sharpness_of ring_child.now)) }
    ensures range { IfOk result (λ w. (0 < w.num) × (w.num ≤ w.den) × (w.den ≤ 2 ^ 60)) }
{
    let total = total_of_ended(vertex, vertex_child, ring, ring_child)?;
    mean_of(total)
}

// Returns the mean of the values of the total, at most 1.
fn mean_of(total: Total) -> Result<Weight, SharpOverflow>
    requires few { total.count ≤ 2 ^ 32 }
    requires above { 0 < total.count → 0 < total.num }
    ensures overflow { IsErr result ↔ (2 ^ 60 < total.count * total.den) }
    ensures mean { IfOk result (λ w. (w.num, w.den) ≡ at_most_one (total.num, total.count * total.den)) }
    ensures range { IfOk result (λ w. (0 < w.num) × (w.num ≤ w.den) × (w.den ≤ 2 ^ 60)) }
{
    let Some(den) = times_within(total.count as u128, total.den, SHARPNESS_BOUND) else {
        return Err(SharpOverflow);
    };
    if total.num >= den {
        return Ok(Weight { num: 1, den: 1 });
    }
    let common = gcd(total.num, den);
    Ok(Weight {
        num: (total.num / common) as u64,
        den: (den / common) as u64,
    })
}
