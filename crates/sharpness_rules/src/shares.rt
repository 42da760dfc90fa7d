ghost use Rattle.std.specs.Prelude.{◌≡◌, ◌-◌, ◌*◌, ◌^◌, ◌<◌, ◌≤◌, MatchOption};
ghost use Rattle.subdiv_model.specs.Sharpness.{sharpness_of_fraction};
ghost use Rattle.sharpness_rules.specs.Totals.{half_fraction};

use crate::sums::parts_of;
use crate::total::Total;
use crate::{Semi, Sharpness};
use ratio128::limits::SHARPNESS_BOUND;
use ratio128::times_within;

/// The sum of two or more semi-sharp edges at a vertex, and the denominator of their halves. For c edges that is 4(c - 1) times their
/// common denominator.
#[derive(Clone, Copy)]
pub struct Shares {
    pub total: Total,
    pub den: u64,
    ghost several: { 2 ≤ total.count },
    ghost few: { total.count ≤ 2 ^ 32 },
    ghost product: { den ≡ 4 * (total.count - 1) * total.den },
    ghost short: { den ≤ 2 ^ 60 },
}

impl Shares {
    ghost use Rattle.sharpness_rules.specs.View.{sharpness_of};

    /// Returns the shares of edges with this sum, or `None` if the denominator of the halves exceeds 2^60.
    pub fn of(total: Total) -> Option<Shares>
        requires several { 2 ≤ total.count }
        requires few { total.count ≤ 2 ^ 32 }
        ensures { MatchOption result (2 ^ 60 < 4 * (total.count - 1) * total.den) (λ shares. shares.total ≡ total) }
    {
        let others = (total.count - 1) as u128;
        let den = times_within(4 * others, total.den, SHARPNESS_BOUND)?;
        Some(Shares {
            total,
            den: den as u64,
        })
    }

    /// Returns the half of one of the edges.
    pub fn half_of(self, edge: Semi) -> Sharpness
        ensures { sharpness_of result ≡ sharpness_of_fraction (half_fraction self.total (edge.num, edge.den)) }
    {
        let others = (self.total.count - 1) as u128;
        let own = parts_of(edge, self.total.den);
        let sum = 3 * others * own + self.total.num.saturating_sub(own);
        Sharpness::new(sum.saturating_sub(self.den as u128) as u64, self.den)
    }
}
