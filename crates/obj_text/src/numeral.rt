ghost use Rattle.std.specs.Prelude.{◌≡◌, ℕ, ◌^◌, ◌<◌, ◌≤◌, true, false, unsigned_abs, List, MatchOption, IfOk};
ghost use Rattle.std.specs.List.{list_all, position_or_len, before_first, after_first};
ghost use Rattle.obj_text.specs.NumeralFaults.{IsReadAs};
ghost use Rattle.obj_text.specs.NumeralParts.{ArePartsOf, IsExponentUpTo, IsOverTens, IsNormalAmount};
ghost use Rattle.obj_text.specs.NumeralTerms.{IsTermsRead};
ghost use Rattle.subdiv_model.specs.Digits.{is_digit};
ghost use Rattle.subdiv_model.specs.Numeral.{signed, is_exponent_mark, is_point, is_decimal};

use crate::decimal::{Significant, with_digits, with_zeros};
use crate::digits::{digits_up_to, is_all_digits};
use crate::fraction::read_fraction;
use crate::sign::split_sign;
use crate::terms::{Terms, over_decimals};
use std::fmt;

/// A number in lowest terms, `num` over `den`, with 0 as 0 / 1.
///
/// `num` has at most 37 digits, and `den` is from 1 to 10^37. `decimals` counts the decimals of a decimal in normal form, at most 37; it is
/// 0 for a fraction.
#[derive(Clone, Copy, Debug, PartialEq, Eq)]
pub struct Numeral {
    pub num: i128,
    pub den: u128,
    pub decimals: u32,
}

/// The fault of a word that is not a numeral in range.
#[derive(Clone, Copy, Debug, PartialEq, Eq)]
pub enum NumeralFault {
    /// The word is not a numeral.
    BadNumeral,
    /// The numeral is too long. A decimal has more than 37 digits in its mantissa or its decimals, in normal form, or a fraction has more
    /// in a part.
    NumberRange,
}

impl fmt::Display for NumeralFault {
    ghost use Rattle.obj_text.specs.NumeralFaults.{text_of_fault};
    ghost use Rattle.std.specs.Prelude.{Some};

    ghost output = { λ fault. Some (text_of_fault fault) };

    fn fmt<W: fmt::Write>(&self, f: &mut fmt::Formatter<W>) -> fmt::Result {
        f.write_str(match self {
            NumeralFault::BadNumeral => "bad numeral",
            NumeralFault::NumberRange => "number out of range",
        })
    }
}

impl std::error::Error for NumeralFault {}

// An exponent of this amount puts every number but 0 out of range, because no word has that many digits.
const MOST_EXPONENT: u128 = 100_000_000_000_000_000_000;

// The parts of a decimal without its sign. Exponents above `MOST_EXPONENT` become `MOST_EXPONENT`.
#[derive(Drop)]
struct Parts<'a> {
    whole: &'a [u8],
    fraction: &'a [u8],
    exponent: Exponent,
}

#[derive(Clone, Copy)]
struct Exponent {
    negative: bool,
    amount: u128,
}

fn is_mark(b: u8) -> bool
    ensures { result ≡ is_exponent_mark b }
{
    b == b'e' || b == b'E'
}

// How many bytes precede the exponent mark.
fn decimal_len(unsigned: &[u8]) -> usize
    ensures { result ≡ position_or_len is_exponent_mark unsigned.now }
{
    for (i, b) in unsigned.iter().enumerate() {
        if is_mark(*b) {
            return i;
        }
    }
    unsigned.len()
}

// How many bytes precede the decimal point.
fn whole_len(decimal: &[u8]) -> usize
    ensures { result ≡ position_or_len is_point decimal.now }
{
    for (i, b) in decimal.iter().enumerate() {
        if *b == b'.' {
            return i;
        }
    }
    decimal.len()
}

// The bytes before the decimal point and those after it.
fn split_point(decimal: &[u8]) -> (&[u8], &[u8])
    ensures whole { result.0.now ≡ before_first is_point decimal.now }
    ensures fraction { result.1.now ≡ after_first is_point decimal.now }
{
    let (whole, others) = decimal.split_at(whole_len(decimal));
    match others {
        [_, fraction @ ..] => (whole, fraction),
        [] => (whole, others),
    }
}

// The exponent, from its mark on, or `None` if the bytes are not an exponent.
fn read_exponent(part: &[u8]) -> Option<Exponent>
    ensures { IsExponentUpTo MOST_EXPONENT result part.now }
{
    match part {
        [] => Some(Exponent {
            negative: false,
            amount: 0,
        }),
        [_, exponent @ ..] => {
            let (negative, digits) = split_sign(exponent);
            let amount = digits_up_to(digits, MOST_EXPONENT)?;
            Some(Exponent { negative, amount })
        }
    }
}

// The parts of the word, or `None` if it is not a decimal.
fn parts_of(word: &[u8]) -> Option<Parts<'_>>
    ensures { MatchOption result (is_decimal word.now ≡ false)
        (λ p. (is_decimal word.now ≡ true) × ArePartsOf p word.now) }
{
    let (_, unsigned) = split_sign(word);
    let (decimal, part) = unsigned.split_at(decimal_len(unsigned));
    let (whole, fraction) = split_point(decimal);
    if whole.is_empty() && fraction.is_empty() {
        return None;
    }
    if !is_all_digits(whole) || !is_all_digits(fraction) {
        return None;
    }
    let exponent = read_exponent(part)?;
    Some(Parts {
        whole,
        fraction,
        exponent,
    })
}

// The normal form of amount * 10^above / 10^below, or `None` if it is out of range. The last digit of the amount is not 0.
fn over_tens(amount: u128, above: u128, below: u128) -> Option<(u128, u32)>
    requires { amount < 10 ^ 37 }
    ensures { IsOverTens result amount above below }
{
    if above >= below {
        return Some((with_zeros(amount, above - below)?, 0));
    }
    if below - above > 37 {
        return None;
    }
    Some((amount, (below - above) as u32))
}

// The amount and the decimals of the normal form, or `None` if they are out of range.
fn normal_form_of(parts: &Parts<'_>) -> Option<(u128, u32)>
    requires whole { list_all is_digit parts.now.whole.now ≡ true }
    requires fraction { list_all is_digit parts.now.fraction.now ≡ true }
    requires exponent { parts.now.exponent.amount ≤ MOST_EXPONENT }
    ensures { (word : List ℕ) → ArePartsOf parts.now word → IsNormalAmount result word }
{
    let none = Significant {
        amount: 0,
        zeros: 0,
    };
    let number = with_digits(with_digits(none, parts.whole)?, parts.fraction)?;
    if number.amount == 0 {
        return Some((0, 0));
    }
    let decimals = parts.fraction.len() as u128;
    if parts.exponent.negative {
        over_tens(
            number.amount,
            number.zeros,
            decimals + parts.exponent.amount,
        )
    } else {
        over_tens(
            number.amount,
            number.zeros + parts.exponent.amount,
            decimals,
        )
    }
}

// The terms of the amount of the word, or the fault of the word.
fn terms_of(word: &[u8]) -> Result<Terms, NumeralFault>
    ensures { IsTermsRead result word.now }
{
    let Some(parts) = parts_of(word) else {
        return read_fraction(word);
    };
    let Some((amount, decimals)) = normal_form_of(&parts) else {
        return Err(NumeralFault::NumberRange);
    };
    Ok(over_decimals(amount, decimals))
}

/// Reads a numeral exactly: a decimal or a fraction.
///
/// - A decimal: an optional sign; one or more digits, with an optional point before, between or after them; an optional exponent. An
///   exponent is `e` or `E`, an optional sign, and one or more digits.
/// - A fraction: an optional sign, one or more digits, `/`, and one or more digits that are not all zero.
///
/// `BadNumeral`: the word is neither. `NumberRange`: a decimal has more than 37 digits in its mantissa or its decimals, in normal form. Or
/// a part of a fraction has more than 37 digits after its leading zeros (this profile).
pub fn read_numeral(word: &[u8]) -> Result<Numeral, NumeralFault>
    ensures cases { IsReadAs result word.now }
    ensures small { IfOk result (λ n. (unsigned_abs n.num < 10 ^ 37) × (0 < n.den) × (n.den ≤ 10 ^ 37) × (n.decimals ≤ 37)) }
{
    let terms = terms_of(word)?;
    let (negative, _) = split_sign(word);
    Ok(Numeral {
        num: with_sign(negative, terms.num),
        den: terms.den,
        decimals: terms.decimals,
    })
}

// The amount, negative if `negative` is true.
fn with_sign(negative: bool, amount: u128) -> i128
    requires { amount < 10 ^ 37 }
    ensures { result ≡ signed negative amount }
{
    let amount = amount as i128;
    if negative { -amount } else { amount }
}
