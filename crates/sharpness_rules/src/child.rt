ghost use Rattle.std.specs.Prelude.{◌≡◌, ◌-◌, ◌^◌, ◌<◌, IfOk, IsErr, IsTrue, ◌↔◌, length, map};
ghost use Rattle.subdiv_model.specs.Sharpness.{uniform_child, chaikin_child, half_overflows};
ghost use Rattle.sharpness_rules.specs.View.{sharpness_of};

use crate::{Halves, Semi, SharpOverflow, Sharpness};

/// The method that gives the two halves of an edge their sharpness.
#[derive(Clone, Copy, Debug, PartialEq, Eq)]
pub enum Method {
    /// Each half has the sharpness of `uniform_child`.
    Normal,
    /// Each half has the sharpness of `chaikin_child`, in the ring of its end vertex.
    Chaikin,
}

// Returns the numerator of the value less 1, and not below 0.
fn lessened(value: Semi) -> u64
    ensures { result ≡ value.num - value.den }
{
    value.num().saturating_sub(value.den())
}

/// Returns the sharpness at the next level by the uniform rule: less by 1, and not below 0.
///
/// Smooth and infinite sharpness do not change. Source: DeRose, Kass and Truong 1998.
pub fn uniform_child(s: Sharpness) -> Sharpness
    ensures { sharpness_of result ≡ uniform_child (sharpness_of s) }
{
    match s {
        Sharpness::Semi(value) => Sharpness::new(lessened(value), value.den()),
        stays => stays,
    }
}

/// Returns the sharpness of the half, at a vertex, of the edge at place `at` of the ring, counted from 0.
///
/// Let the ring have `c` semi-sharp edges with sum `S`. A semi-sharp edge of sharpness `s` becomes 3s/4 + (S - s)/(4(c - 1)) - 1, and not
/// below 0. The only semi-sharp edge of a ring loses 1. Smooth and infinite edges do not change and do not count. Source: this profile.
///
/// `SharpOverflow`: the edge is semi-sharp, `c` is at least 2, and 4(c - 1) times the least common multiple of the semi-sharp denominators
/// exceeds 2^60.
pub fn chaikin_child(ring: &[Sharpness], at: usize) -> Result<Sharpness, SharpOverflow>
    requires short { length ring.now < 2 ^ 32 }
    requires in_range { at < length ring.now }
    ensures overflow { IsErr result ↔ IsTrue (half_overflows (map sharpness_of ring.now) at) }
    ensures child { IfOk result (λ s. sharpness_of s ≡ chaikin_child (map sharpness_of ring.now) at) }
{
    Halves::of(Method::Chaikin, ring).half(ring[at])
}
