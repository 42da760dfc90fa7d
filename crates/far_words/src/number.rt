//! Numbers of options, in decimal digits.

ghost use Rattle.std.specs.Prelude.{◌≡◌};
ghost use Rattle.far_words.specs.Table.{u32_of_digits, u32_of_word};

// The number that digits spell, or `None` for another byte or a number past `u32`.
fn read_digits(digits: &[u8]) -> Option<u32>
    ensures { result ≡ u32_of_digits digits.now }
{
    let mut number: u32 = 0;
    for byte in digits {
        if !byte.is_ascii_digit() {
            return None;
        }
        number = number
            .checked_mul(10)?
            .checked_add(u32::from(*byte - b'0'))?;
    }
    Some(number)
}

/// The number that a word spells in decimal digits without a leading zero, or `None` for another word or a number past `u32`.
pub(crate) fn read_number(word: &[u8]) -> Option<u32>
    ensures { result ≡ u32_of_word word.now }
{
    match word {
        [] | [b'0', _, ..] => None,
        _ => read_digits(word),
    }
}
