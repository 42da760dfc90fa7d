ghost use Rattle.std.specs.Prelude.{◌≡◌, ◌+◌, ◌*◌, ◌^◌, ◌<◌, ◌≤◌, true, length, fold, MatchOption};
ghost use Rattle.std.specs.List.{list_all};
ghost use Rattle.obj_text.specs.Significant.{IsSignificant, KeepsNumber, with_next_digit};
ghost use Rattle.subdiv_model.specs.Digits.{is_digit};

use ratio128::limits::NUMERAL_BOUND;

/// A natural number of any size: `amount` times 10^zeros. The last digit of `amount` is not 0 unless the number is 0.
#[derive(Clone, Copy)]
pub(crate) struct Significant {
    pub(crate) amount: u128,
    pub(crate) zeros: u128,
}

/// The amount followed by `zeros` zeros, or `None` if that has more than 37 digits.
pub(crate) fn with_zeros(amount: u128, zeros: u128) -> Option<u128>
    ensures { MatchOption result (10 ^ 37 ≤ amount * 10 ^ zeros) (λ n. (n ≡ amount * 10 ^ zeros) × (n < 10 ^ 37)) }
{
    if amount == 0 {
        return Some(0);
    }
    if zeros == 0 {
        return if amount < NUMERAL_BOUND {
            Some(amount)
        } else {
            None
        };
    }
    if zeros > 37 {
        return None;
    }
    let number = amount.checked_mul(10u128.pow(zeros as u32))?;
    if number < NUMERAL_BOUND {
        Some(number)
    } else {
        None
    }
}

// The number followed by one more digit, or `None` if it is too long for a mantissa.
fn with_digit(number: Significant, digit: u8) -> Option<Significant>
    requires number { IsSignificant number.amount number.zeros }
    requires digit { digit < 10 }
    requires few { number.zeros < 2 ^ 100 }
    ensures { KeepsNumber result (number.amount * 10 ^ number.zeros * 10 + digit) (number.zeros + 1) }
{
    if digit == 0 {
        let zeros = if number.amount == 0 {
            0
        } else {
            number.zeros + 1
        };
        return Some(Significant {
            amount: number.amount,
            zeros,
        });
    }
    let amount = with_zeros(number.amount, number.zeros)? * 10 + u128::from(digit);
    if amount < NUMERAL_BOUND {
        Some(Significant { amount, zeros: 0 })
    } else {
        None
    }
}

/// The number followed by more digits, or `None` if it is too long for a mantissa with any number of decimals.
pub(crate) fn with_digits(start: Significant, digits: &[u8]) -> Option<Significant>
    requires start { IsSignificant start.amount start.zeros }
    requires digits { list_all is_digit digits.now ≡ true }
    requires few { start.zeros ≤ 2 ^ 64 }
    ensures { KeepsNumber result (fold with_next_digit (start.amount * 10 ^ start.zeros) digits.now)
        (start.zeros + length digits.now) }
{
    let mut number = start;
    for byte in digits {
        number = with_digit(number, *byte - b'0')?;
    }
    Some(number)
}
