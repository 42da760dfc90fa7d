ghost use Rattle.std.specs.Prelude.{◌≡◌, ℕ, ◌+◌, ◌*◌, ◌%◌, ◌<◌, ◌≤◌, ◌^◌};
ghost use Rattle.subdiv_model.specs.NumberText.{goes_up, half_to_even};

use ratio128::quotient;

// A number with a fixed count of decimals: its whole part, and the units of its last decimal.
#[derive(Drop)]
pub(crate) struct Decimal {
    pub(crate) whole: u128,
    pub(crate) units: u64,
}

// A quotient and its remainder.
#[derive(Drop)]
struct Division {
    quotient: u64,
    rest: u128,
}

// Returns the amount over the denominator, rounded to `digits` decimals, half to even.
pub(crate) fn rounded(amount: u128, den: u128, digits: u32) -> Decimal
    requires kept { amount < 2 ^ 127 }
    requires positive { 0 < den }
    requires bounded { den < 2 ^ 126 }
    requires few { digits ≤ 18 }
    ensures value { result.whole * 10 ^ digits + result.units ≡ half_to_even (amount * 10 ^ digits) den }
    ensures units { result.units < 10 ^ digits }
{
    let whole = quotient(amount, den);
    let rest = amount - whole * den;
    let cut = decimals_of(rest, den, digits);
    let last = last_place(whole, cut.quotient, digits);
    let up = rounds_up(last, cut.rest, den);
    if up {
        unit_more(whole, cut.quotient, digits)
    } else {
        Decimal {
            whole,
            units: cut.quotient,
        }
    }
}

// Returns the decimals, or the whole part if there are none. The result is odd exactly if the number, in units of its last decimal, is odd.
fn last_place(whole: u128, units: u64, digits: u32) -> u128
    requires { units < 10 ^ digits }
    ensures { result % 2 ≡ (whole * 10 ^ digits + units) % 2 }
{
    if digits == 0 { whole } else { units as u128 }
}

// Returns the number plus one unit of its last decimal.
fn unit_more(whole: u128, units: u64, digits: u32) -> Decimal
    requires kept { whole < 2 ^ 127 }
    requires few { digits ≤ 18 }
    requires units { units < 10 ^ digits }
    ensures value { result.whole * 10 ^ digits + result.units ≡ whole * 10 ^ digits + units + 1 }
    ensures units { result.units < 10 ^ digits }
{
    if units + 1 == 10u64.pow(digits) {
        Decimal {
            whole: whole + 1,
            units: 0,
        }
    } else {
        Decimal {
            whole,
            units: units + 1,
        }
    }
}

// Returns whether a quotient with this remainder rounds up: above half, or at half with an odd last digit.
fn rounds_up(last: u128, rest: u128, den: u128) -> bool
    requires bounded { den < 2 ^ 126 }
    requires below { rest < den }
    ensures { result ≡ goes_up last rest den }
{
    den < 2 * rest || (den == 2 * rest && last % 2 == 1)
}

// Returns the first `digits` decimals of a fraction below 1, and the remainder. With a denominator of at most 64 bits, one division in 128
// bits gives all of them.
fn decimals_of(rest: u128, den: u128, digits: u32) -> Division
    requires bounded { den < 2 ^ 126 }
    requires below { rest < den }
    requires few { digits ≤ 18 }
    ensures whole { result.quotient * den + result.rest ≡ rest * 10 ^ digits }
    ensures below { result.rest < den }
    ensures units { result.quotient < 10 ^ digits }
{
    if den <= u64::MAX as u128 {
        decimals_at_once(rest, den, digits)
    } else {
        decimals_in_turn(rest, den, digits)
    }
}

// Returns the decimals by one division.
fn decimals_at_once(rest: u128, den: u128, digits: u32) -> Division
    requires short { den < 2 ^ 64 }
    requires below { rest < den }
    requires few { digits ≤ 18 }
    ensures whole { result.quotient * den + result.rest ≡ rest * 10 ^ digits }
    ensures below { result.rest < den }
    ensures units { result.quotient < 10 ^ digits }
{
    let scaled = rest * 10u64.pow(digits) as u128;
    let units = quotient(scaled, den);
    Division {
        quotient: units as u64,
        rest: scaled - units * den,
    }
}

// Returns the decimals one by one.
fn decimals_in_turn(rest: u128, den: u128, digits: u32) -> Division
    requires bounded { den < 2 ^ 126 }
    requires below { rest < den }
    requires few { digits ≤ 18 }
    ensures whole { result.quotient * den + result.rest ≡ rest * 10 ^ digits }
    ensures below { result.rest < den }
    ensures units { result.quotient < 10 ^ digits }
{
    let mut units = 0u64;
    let mut left = rest;
    for _ in 0..digits {
        let next = next_digit(left, den);
        units = units * 10 + next.quotient;
        left = next.rest;
    }
    Division {
        quotient: units,
        rest: left,
    }
}

// Returns one decimal of a fraction below 1. Ten times the remainder may exceed 128 bits. So the code doubles the remainder, divides, and
// multiplies by five: twice the double, plus one more.
fn next_digit(rest: u128, den: u128) -> Division
    requires bounded { den < 2 ^ 126 }
    requires below { rest < den }
    ensures whole { result.quotient * den + result.rest ≡ rest * 10 }
    ensures below { result.rest < den }
    ensures digit { result.quotient ≤ 9 }
{
    let double = divided_once(2 * rest, den);
    let twice = divided_once(2 * double.rest, den);
    let four_times = divided_once(2 * twice.rest, den);
    let five_times = divided_once(four_times.rest + double.rest, den);
    Division {
        quotient: 5 * double.quotient
            + 2 * twice.quotient
            + four_times.quotient
            + five_times.quotient,
        rest: five_times.rest,
    }
}

// Divides a number below twice the denominator.
fn divided_once(number: u128, den: u128) -> Division
    requires { number < 2 * den }
    ensures whole { result.quotient * den + result.rest ≡ number }
    ensures below { result.rest < den }
    ensures once { result.quotient ≤ 1 }
{
    if number < den {
        Division {
            quotient: 0,
            rest: number,
        }
    } else {
        Division {
            quotient: 1,
            rest: number - den,
        }
    }
}
