ghost use Rattle.std.specs.Prelude.{◌≡◌, ◌^◌, ◌<◌};
ghost use Rattle.std.specs.List.{list_all};
ghost use Rattle.obj_text.specs.NumeralParts.{IsNumberUpTo};
ghost use Rattle.subdiv_model.specs.Digits.{is_digit};

/// Whether every byte is a digit.
pub(crate) fn is_all_digits(bytes: &[u8]) -> bool
    ensures { result ≡ list_all is_digit bytes.now }
{
    for byte in bytes {
        if !byte.is_ascii_digit() {
            return false;
        }
    }
    true
}

/// Returns the number that the decimal digits spell, or `most` if the number is greater. `most` is below 2^124.
///
/// There may be any number of digits, with leading zeros. The result is `None` for no bytes, and for bytes that are not all digits.
pub fn digits_up_to(bytes: &[u8], most: u128) -> Option<u128>
    requires { most < 2 ^ 124 }
    ensures { IsNumberUpTo most result bytes.now }
{
    if bytes.is_empty() {
        return None;
    }
    let mut number = 0;
    for byte in bytes {
        if !byte.is_ascii_digit() {
            return None;
        }
        number = (number * 10 + u128::from(*byte - b'0')).min(most);
    }
    Some(number)
}
