ghost use Rattle.std.specs.Prelude.{◌≡◌, ◌%◌, ◌<◌, ◌≤◌, ◌^◌, true, length, take, ◌∷◌, IfSome};
ghost use Rattle.std.specs.Int.{◌∣◌};
ghost use Rattle.std.specs.List.{list_all};
ghost use Rattle.subdiv_model.specs.Digits.{is_digit, number_of_digits};
ghost use Rattle.subdiv_model.specs.Numeral.{without_sign};
ghost use Rattle.subdiv_model.specs.ReadObj.{denominator_of};
ghost use Rattle.obj_tags.specs.Plain.{HasDecimals, IsWholeOver};

// The word without its sign.
fn after_sign(word: &[u8]) -> &[u8]
    ensures { result.now ≡ without_sign word.now }
{
    match word {
        [b'-' | b'+', rest @ ..] => rest,
        _ => word,
    }
}

// How many digits precede the first byte that is not a digit.
fn digits_len(bytes: &[u8]) -> usize
    ensures digits { list_all is_digit (take result bytes.now) ≡ true }
    ensures within { result ≤ length bytes.now }
{
    for (i, b) in bytes.iter().enumerate() {
        if !b.is_ascii_digit() {
            return i;
        }
    }
    bytes.len()
}

// The bytes after a decimal point at the start, or `None` if there is no point.
fn after_point(bytes: &[u8]) -> Option<&[u8]>
    ensures { IfSome result (λ rest. bytes.now ≡ 46 ∷ rest.now) }
{
    match bytes {
        [b'.', rest @ ..] => Some(rest),
        _ => None,
    }
}

// The digits after the point of a word made only of a sign, digits, a point and digits, each of them optional.
fn decimals_of(word: &[u8]) -> Option<&[u8]>
    ensures { IfSome result (λ digits. HasDecimals word.now digits.now) }
{
    let unsigned = after_sign(word);
    let (_, rest) = unsigned.split_at(digits_len(unsigned));
    if rest.is_empty() {
        return Some(rest);
    }
    let digits = after_point(rest)?;
    if digits_len(digits) < digits.len() {
        return None;
    }
    Some(digits)
}

// The remainder of a common denominator by a power of ten, in 64 bits if both fit.
fn rest_over(common: u128, tens: u64) -> u64
    requires { 0 < tens }
    ensures { result ≡ common % tens }
{
    if common <= u64::MAX as u128 {
        common as u64 % tens
    } else {
        (common % tens as u128) as u64
    }
}

// The number that a few digits spell.
fn number_of(digits: &[u8]) -> u64
    requires few { length digits.now ≤ 9 }
    requires digits { list_all is_digit digits.now ≡ true }
    ensures number { result ≡ number_of_digits digits.now }
    ensures below { result < 10 ^ 9 }
{
    let mut number = 0;
    for byte in digits {
        number = number * 10 + u64::from(*byte - b'0');
    }
    number
}

// Whether the digits, over their power of ten, are whole over a common denominator. More than 19 digits count as not whole.
fn are_whole(digits: &[u8], common: u128) -> bool
    requires { list_all is_digit digits.now ≡ true }
    ensures { result ≡ true → IsWholeOver digits.now common }
{
    if digits.len() > 19 {
        return false;
    }
    let tens = 10u64.pow(digits.len() as u32);
    let rest = rest_over(common, tens);
    if rest == 0 {
        return true;
    }
    digits.len() <= 9 && rest * number_of(digits) % tens == 0
}

/// Whether the form of a word shows that its denominator divides a common denominator.
///
/// Such a word has no exponent and no slash, and the digits after its point are whole over the common denominator.
pub(crate) fn is_over(word: &[u8], common: u128) -> bool
    ensures { result ≡ true → denominator_of word.now ∣ common }
{
    match decimals_of(word) {
        Some(digits) => are_whole(digits, common),
        None => false,
    }
}
