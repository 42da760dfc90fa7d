//! Numbers in decimal digits.

ghost use Rattle.std.specs.Prelude.{◌≡◌, ◌&&◌, ◌^◌, ◌<◌, ◌≤◌, true, false, nat_le, nat_lt, length, MatchOption};
ghost use Rattle.std.specs.List.{list_all};
ghost use Rattle.subdiv_model.specs.Digits.{is_digit, is_number_word, number_of_digits};
ghost use Rattle.subdiv_model.specs.ReadTable.{is_term};

use ratio128::limits::NUMBER_BOUND;

// Returns whether all bytes are digits.
fn is_all_digits(bytes: &[u8]) -> bool
    ensures { result ≡ list_all is_digit bytes.now }
{
    for byte in bytes {
        if !byte.is_ascii_digit() {
            return false;
        }
    }
    true
}

// Returns whether the word is a number, without a zero before other digits.
pub(crate) fn is_number(word: &[u8]) -> bool
    ensures { result ≡ is_number_word word.now }
{
    match word {
        [first, rest @ ..] => {
            let plain = *first != b'0' || rest.is_empty();
            is_all_digits(word) && plain
        }
        [] => false,
    }
}

// Returns the number of at most 19 digits.
fn short_number(digits: &[u8]) -> u64
    requires digits { list_all is_digit digits.now ≡ true }
    requires few { length digits.now ≤ 19 }
    ensures { result ≡ number_of_digits digits.now }
{
    let mut number = 0;
    for byte in digits {
        number = number * 10 + u64::from(*byte - b'0');
    }
    number
}

// Returns the number of at most 38 digits.
fn wide_number(digits: &[u8]) -> u128
    requires digits { list_all is_digit digits.now ≡ true }
    requires few { length digits.now ≤ 38 }
    ensures { result ≡ number_of_digits digits.now }
{
    let mut number = 0;
    for byte in digits {
        number = number * 10 + u128::from(*byte - b'0');
    }
    number
}

// Returns the number of a word. It returns `None` if there are more than 38 digits.
fn number_of(word: &[u8]) -> Option<u128>
    requires { is_number_word word.now ≡ true }
    ensures { MatchOption result (10 ^ 38 ≤ number_of_digits word.now) (λ n. n ≡ number_of_digits word.now) }
{
    if word.len() <= 19 {
        return Some(u128::from(short_number(word)));
    }
    if word.len() <= 38 {
        return Some(wide_number(word));
    }
    None
}

// Returns the denominator or numerator in a word. It returns `None` if the number is neither.
pub(crate) fn read_term(word: &[u8]) -> Option<u128>
    requires { is_number_word word.now ≡ true }
    ensures { MatchOption result (is_term (number_of_digits word.now) ≡ false)
        (λ n. (is_term (number_of_digits word.now) ≡ true) × (n ≡ number_of_digits word.now)) }
{
    let number = number_of(word)?;
    if number == 0 || NUMBER_BOUND < number {
        return None;
    }
    Some(number)
}

// Returns the number in a word. It returns `None` if the number is below `least`, or is `end` or more.
pub(crate) fn read_in_range(word: &[u8], least: u32, end: u32) -> Option<u32>
    requires { is_number_word word.now ≡ true }
    ensures { let n = number_of_digits word.now in
        MatchOption result ((nat_le least n && nat_lt n end) ≡ false) (λ read. ((nat_le least n && nat_lt n end) ≡ true) × (read ≡ n)) }
{
    let number = number_of(word)?;
    if number < u128::from(least) || u128::from(end) <= number {
        return None;
    }
    Some(number as u32)
}
