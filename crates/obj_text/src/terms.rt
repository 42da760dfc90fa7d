ghost use Rattle.std.specs.Prelude.{◌^◌, ◌<◌, ◌≤◌};
ghost use Rattle.obj_text.specs.NumeralTerms.{IsWithout, AreLowestTerms};

/// The amount of a numeral in lowest terms, and the decimals of a decimal in normal form.
#[derive(Clone, Copy)]
pub(crate) struct Terms {
    pub(crate) num: u128,
    pub(crate) den: u128,
    pub(crate) decimals: u32,
}

/// The amount over 10^decimals, in lowest terms. Only twos and fives can be common factors.
pub(crate) fn over_decimals(amount: u128, decimals: u32) -> Terms
    requires amount { amount < 10 ^ 37 }
    requires few { decimals ≤ 37 }
    ensures { AreLowestTerms result amount (10 ^ decimals) decimals }
{
    if decimals == 0 {
        return Terms {
            num: amount,
            den: 1,
            decimals,
        };
    }
    let (rest, twos) = without_twos(amount, decimals);
    let (num, fives) = without_fives(rest, decimals);
    Terms {
        num,
        den: 2u128.pow(twos) * 5u128.pow(fives),
        decimals,
    }
}

// The amount without its factors 2, of which at most `most` are removed, and how many of `most` were not removed.
fn without_twos(amount: u128, most: u32) -> (u128, u32)
    ensures { IsWithout 2 amount most result.0 result.1 }
{
    let mut rest = amount;
    let mut left = most;
    while left > 0 && rest % 2 == 0 {
        rest /= 2;
        left -= 1;
    }
    (rest, left)
}

// The amount without its factors 5, of which at most `most` are removed, and how many of `most` were not removed. An amount of up to 64
// bits is divided in 64 bits.
fn without_fives(amount: u128, most: u32) -> (u128, u32)
    ensures { IsWithout 5 amount most result.0 result.1 }
{
    if amount < 1 << 64 {
        let (rest, left) = without_fives_of_short(amount as u64, most);
        return (u128::from(rest), left);
    }
    let mut rest = amount;
    let mut left = most;
    while left > 0 && rest % 5 == 0 {
        rest /= 5;
        left -= 1;
    }
    (rest, left)
}

fn without_fives_of_short(amount: u64, most: u32) -> (u64, u32)
    ensures { IsWithout 5 amount most result.0 result.1 }
{
    let mut rest = amount;
    let mut left = most;
    while left > 0 && rest % 5 == 0 {
        rest /= 5;
        left -= 1;
    }
    (rest, left)
}
