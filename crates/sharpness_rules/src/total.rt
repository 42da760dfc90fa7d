ghost use Rattle.std.specs.Prelude.{◌≡◌, ◌*◌, ◌^◌, ◌<◌, ◌≤◌};

/// The sum of semi-sharp values: their count, their least common denominator, and the numerator of the sum over it.
#[derive(Clone, Copy)]
pub struct Total {
    pub count: u64,
    pub num: u128,
    pub den: u128,
    ghost positive: { 0 < den },
    ghost short: { den ≤ 2 ^ 60 },
    ghost bounded: { num ≤ 10 * (count * den) },
}

impl Total {
    /// Returns the empty sum.
    pub fn none() -> Total
        ensures count { result.count ≡ 0 }
        ensures num { result.num ≡ 0 }
        ensures den { result.den ≡ 1 }
    {
        Total {
            count: 0,
            num: 0,
            den: 1,
        }
    }
}
