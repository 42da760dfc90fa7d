ghost use Rattle.std.specs.Prelude.{◌≡◌, ℕ, List, ◌^◌, ◌<◌, ◌≤◌, unsigned_abs, IfOk};
ghost use Rattle.subdiv_model.specs.Index.{nearest_index};
ghost use Rattle.subdiv_model.specs.ObjFault as model;
ghost use Rattle.subdiv_model.specs.ObjWord.{numeral_fault, place_of_index, place_of_word};
ghost use Rattle.subdiv_model.specs.ObjTag.{tag_index_fault, tag_numeral_fault};
ghost use Rattle.sharpness_rules.specs.View.{sharpness_of};
ghost use Rattle.obj_tags.specs.Channel.{over_common, IsShortNumber};
ghost use Rattle.obj_tags.specs.Kept.{ReadUnless, ReadOr, IsNumeralOf};
ghost use Rattle.obj_tags.specs.TagView.{index_said, sharpness_said};

use crate::ObjCause;
use obj_text::{Numeral, NumeralFault, read_index, read_numeral};
use ratio128::limits::NUMERAL_BOUND;
use sharpness_rules::Sharpness;

/// Returns the numeral of a word in lowest terms. `BadNumeral`: the word is not a numeral. `NumberRange`: the numeral is out of range.
pub fn numeral(word: &[u8]) -> Result<Numeral, ObjCause>
    ensures { ReadUnless result (numeral_fault word.now) (λ n. IsNumeralOf n word.now) }
{
    match read_numeral(word) {
        Ok(number) => Ok(number),
        Err(NumeralFault::BadNumeral) => Err(ObjCause::BadNumeral),
        Err(NumeralFault::NumberRange) => Err(ObjCause::NumberRange),
    }
}

/// Returns the numerator of a numeral over a common denominator of at most 10^37, or `None` if it has more than 37 digits.
///
/// The result is the numerator of the numeral times the whole quotient of the two denominators. It is exact if the denominator of the
/// numeral divides `common`.
pub fn numerator_over(number: Numeral, common: u128) -> Option<i128>
    requires positive { 0 < number.den }
    requires short { unsigned_abs number.num < 10 ^ 37 }
    requires common { common ≤ 10 ^ 37 }
    ensures { IsShortNumber result (over_common common number) }
{
    let factor = common / number.den;
    match number.num.unsigned_abs().checked_mul(factor) {
        Some(amount) if amount < NUMERAL_BOUND => Some(number.num * factor as i128),
        _ => None,
    }
}

/// The line that an index of a face corner names, counted from 0. A positive index counts all lines from 1; a negative index counts back
/// from the last of the lines `before`.
#[tactic(auto, using(crate::proofs::WalkLemmas::place_nearest))]
pub(crate) fn place(index: i64, all: u32, before: u32) -> Result<u32, ObjCause>
    requires { before ≤ all }
    ensures index { ReadOr result (λ p. p) (place_of_index before all index) model.IndexRange }
    ensures below { IfOk result (λ p. p < all) }
    ensures word { (word : List ℕ) → index ≡ nearest_index word
        → ReadOr result (λ p. p) (place_of_word before all word) model.IndexRange }
{
    if 0 < index && index <= i64::from(all) {
        return Ok((index - 1) as u32);
    }
    if index < 0 && -i64::from(before) <= index {
        return Ok((i64::from(before) + index) as u32);
    }
    Err(ObjCause::IndexRange)
}

/// The point or face that a word of a tag names, counted from 0.
pub(crate) fn tag_index(word: &[u8], all: u32) -> Result<u32, ObjCause>
    ensures index { ReadUnless result (tag_index_fault all word.now) (λ i. i ≡ index_said word.now) }
    ensures below { IfOk result (λ i. i < all) }
{
    let index = read_index(word).ok_or(ObjCause::BadTag)?;
    if 0 <= index && index < i64::from(all) {
        Ok(index as u32)
    } else {
        Err(ObjCause::TagIndex)
    }
}

/// The sharpness that a word of a tag gives.
pub(crate) fn sharpness(word: &[u8]) -> Result<Sharpness, ObjCause>
    ensures { ReadUnless result (tag_numeral_fault word.now) (λ s. sharpness_of s ≡ sharpness_said word.now) }
{
    let number = numeral(word)?;
    if number.num < 0 {
        return Err(ObjCause::SharpnessRange);
    }
    let amount = number.num.unsigned_abs();
    if amount >= 10 * number.den {
        return Ok(Sharpness::Infinite);
    }
    if number.decimals > 6 || number.den > 1_000_000 {
        return Err(ObjCause::SharpnessRange);
    }
    Ok(Sharpness::new(amount as u64, number.den as u64))
}
