use crate::shares::Shares;
use crate::sums::total_of_ring;
use crate::total::Total;
use crate::{Method, SharpOverflow, Sharpness, uniform_child};

// The rule by which the semi-sharp edges of a ring get their halves.
#[derive(Clone, Copy)]
enum HalvesRule {
    // Each edge loses 1.
    Uniform,
    // Each edge gets its share of the sum.
    Shared(Shares),
    // The denominator of the halves exceeds 2^60.
    TooFine,
}

/// The halves, at a vertex, of all edges of its ring. One visit of the ring prepares them; each half then takes constant time.
#[derive(Clone, Copy)]
pub struct Halves {
    rule: HalvesRule,
}

impl Halves {
    ghost use Rattle.std.specs.Prelude.{◌≡◌, ℕ, ◌^◌, ◌<◌, ◌&&◌, ◌↔◌, List, IfOk, IsErr, IsTrue, get_or, length};
    ghost use Rattle.subdiv_model.specs.Sharpness.{is_semi_sharp};
    ghost use Rattle.sharpness_rules.specs.declared.child.Method.{Method};
    ghost use Rattle.sharpness_rules.specs.declared.sharpness.Sharpness.{Sharpness};
    ghost use Rattle.sharpness_rules.specs.View.{sharpness_of};
    ghost use Rattle.sharpness_rules.specs.Halves.{AreHalves, halves_overflow, IsHalfIn};

    /// Returns the halves of a ring by a method. `Method::Normal` does not visit the ring.
    pub fn of(method: Method, ring: &[Sharpness]) -> Halves
        requires short { length ring.now < 2 ^ 32 }
        ensures { AreHalves method ring.now result }
    {
        let rule = match method {
            Method::Normal => HalvesRule::Uniform,
            Method::Chaikin => HalvesRule::by_chaikin(ring),
        };
        Halves { rule }
    }

    /// Returns the sharpness of the half of an edge of the ring, given the sharpness of the edge.
    ///
    /// The result is that of `uniform_child` or `chaikin_child`, by the method. `SharpOverflow`: the edge is semi-sharp, and `overflows` is
    /// true of the ring.
    pub fn half(&self, s: Sharpness) -> Result<Sharpness, SharpOverflow>
        ensures overflow { (method : Method) (ring : List Sharpness) → AreHalves method ring self.now
            → (IsErr result ↔ IsTrue (is_semi_sharp (sharpness_of s) && halves_overflow method ring)) }
        ensures half { (method : Method) (ring : List Sharpness) (at : ℕ) → AreHalves method ring self.now → at < length ring
            → s ≡ get_or ring at s → IfOk result (IsHalfIn method ring s) }
    {
        let Sharpness::Semi(edge) = s else {
            return Ok(s);
        };
        match self.rule {
            HalvesRule::Uniform => Ok(uniform_child(s)),
            HalvesRule::Shared(shares) => Ok(shares.half_of(edge)),
            HalvesRule::TooFine => Err(SharpOverflow),
        }
    }

    /// Returns whether the semi-sharp edges of the ring have no halves. The method is then `Chaikin`, there are at least two such edges,
    /// and the denominator of their halves exceeds 2^60.
    pub fn overflows(&self) -> bool
        ensures { (method : Method) (ring : List Sharpness) → AreHalves method ring self.now
            → result ≡ halves_overflow method ring }
    {
        matches!(self.rule, HalvesRule::TooFine)
    }
}

impl HalvesRule {
    ghost use Rattle.std.specs.Prelude.{ℕ, ◌^◌, ◌<◌, ◌≤◌, List, length, map};
    ghost use Rattle.sharpness_rules.specs.Totals.{IsTotal};
    ghost use Rattle.sharpness_rules.specs.View.{sharpness_of};
    ghost use Rattle.sharpness_rules.specs.Halves.{IsHalvesRuleOfRing, IsHalvesRuleOfValues};

    // Returns the rule of the method `Chaikin` in a ring.
    fn by_chaikin(ring: &[Sharpness]) -> HalvesRule
        requires short { length ring.now < 2 ^ 32 }
        ensures { IsHalvesRuleOfRing (map sharpness_of ring.now) result }
    {
        match total_of_ring(ring) {
            Ok(total) => HalvesRule::of_total(total),
            Err(_) => HalvesRule::TooFine,
        }
    }

    // Returns the rule of the method `Chaikin` for semi-sharp edges with this sum.
    fn of_total(total: Total) -> HalvesRule
        requires few { total.count ≤ 2 ^ 32 }
        ensures { (values : List (ℕ × ℕ)) → IsTotal values total → IsHalvesRuleOfValues values result }
    {
        if total.count < 2 {
            return HalvesRule::Uniform;
        }
        match Shares::of(total) {
            Some(shares) => HalvesRule::Shared(shares),
            None => HalvesRule::TooFine,
        }
    }
}
