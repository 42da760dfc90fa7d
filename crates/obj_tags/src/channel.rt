ghost use Rattle.std.specs.Prelude.{◌≡◌, ℕ, ◌<◌, ◌≤◌, ◌^◌, List, [], length, drop, get_or, codes, OnOk};
ghost use Rattle.subdiv_model.specs.ObjFault.{first_cause};
ghost use Rattle.subdiv_model.specs.ObjWord.{numeral_fault, number_over};
ghost use Rattle.obj_tags.specs.Channel as spec;
ghost use Rattle.obj_tags.specs.Channel.{IsShortNumber, IsPointOver, IsTextureOver, AddsPosition, AddsTextureValue};
ghost use Rattle.obj_tags.specs.Kept.{ReadUnless, KeptUnless};
ghost use Rattle.obj_tags.specs.Walk.{words_left};

use crate::ObjCause;
use crate::fault::LineFault;
use crate::number::{numeral, numerator_over};
use crate::words::next_word;
use obj_text::Words;
use ratio128::{Point2, Point3};

/// The positions over their common denominator. A line with a number of more than 37 digits gives zeros; `long` is the first such line,
/// counted from 1.
#[derive(Drop)]
pub(crate) struct Positions {
    pub(crate) points: Vec<Point3>,
    pub(crate) long: Option<u32>,
}

/// The texture values over their common denominator. A line with a number of more than 37 digits gives zeros; `long` is the first such
/// line, counted from 1.
#[derive(Drop)]
pub(crate) struct TextureValues {
    pub(crate) points: Vec<Point2>,
    pub(crate) long: Option<u32>,
}

// The numeral of a word as a numerator over a common denominator, or `None` if that has more than 37 digits.
fn number_of(word: &[u8], common: u128) -> Result<Option<i128>, ObjCause>
    requires { common ≤ 10 ^ 37 }
    ensures { ReadUnless result (numeral_fault word.now) (λ n. IsShortNumber n (number_over common word.now)) }
{
    let number = numeral(word)?;
    Ok(numerator_over(number, common))
}

// The next numeral of a line over a common denominator, or `None` if that has more than 37 digits. A line without a next word is too short.
fn next_number(words: &mut Words<'_>, common: u128) -> Result<Option<i128>, ObjCause>
    requires some { 0 < length (words_left words.old) }
    requires short { common ≤ 10 ^ 37 }
    ensures rest { OnOk result (words_left words.new ≡ drop 1 (words_left words.old)) }
    ensures read { let word = get_or (words_left words.old) 0 [] in
        ReadUnless result (numeral_fault word) (λ n. IsShortNumber n (number_over common word)) }
{
    let word = next_word(words).ok_or(ObjCause::ShortLine)?;
    number_of(word, common)
}

// The next numeral of a line over a common denominator, or `None` if that has more than 37 digits. A missing word counts as 0.
fn second_number(words: &mut Words<'_>, common: u128) -> Result<Option<i128>, ObjCause>
    requires short { common ≤ 10 ^ 37 }
    ensures rest { OnOk result (words_left words.new ≡ drop 1 (words_left words.old)) }
    ensures read { let word = get_or (words_left words.old) 0 (codes "0") in
        ReadUnless result (numeral_fault word) (λ n. IsShortNumber n (number_over common word)) }
{
    match next_word(words) {
        Some(word) => number_of(word, common),
        None => Ok(Some(0)),
    }
}

// Reads the remaining numerals and drops them.
fn drop_numerals(words: &mut Words<'_>) -> Result<(), ObjCause>
    ensures { ReadUnless result (first_cause numeral_fault (words_left words.old)) (λ _. Unit {0}) }
{
    while let Some(word) = next_word(words) {
        numeral(word)?;
    }
    Ok(())
}

// The point of three numbers, if all of them exist.
fn point_from(x: Option<i128>, y: Option<i128>, z: Option<i128>) -> Option<Point3>
    ensures { result ≡ spec.point_from x y z }
{
    Some(Point3 {
        x: x?,
        y: y?,
        z: z?,
    })
}

// The texture value of two numbers, if both exist.
fn texture_from(u: Option<i128>, v: Option<i128>) -> Option<Point2>
    ensures { result ≡ spec.texture_from u v }
{
    Some(Point2 { u: u?, v: v? })
}

/// The position of a `v` line over a common denominator, given the words after its keyword. It is `None` if a number has more than 37
/// digits.
pub(crate) fn read_position(words: &mut Words<'_>, common: u128) -> Result<Option<Point3>, ObjCause>
    requires enough { 3 ≤ length (words_left words.old) }
    requires short { common ≤ 10 ^ 37 }
    ensures { let read = words_left words.old in
        ReadUnless result (first_cause numeral_fault read) (λ p. IsPointOver common p read) }
{
    let x = next_number(words, common)?;
    let y = next_number(words, common)?;
    let z = next_number(words, common)?;
    drop_numerals(words)?;
    Ok(point_from(x, y, z))
}

/// The texture value of a `vt` line over a common denominator, given the words after its keyword. It is `None` if a number has more than 37
/// digits. A missing second number counts as 0.
pub(crate) fn read_texture_value(
    words: &mut Words<'_>,
    common: u128,
) -> Result<Option<Point2>, ObjCause>
    requires enough { 1 ≤ length (words_left words.old) }
    requires short { common ≤ 10 ^ 37 }
    ensures { let read = words_left words.old in
        ReadUnless result (first_cause numeral_fault read) (λ p. IsTextureOver common p read) }
{
    let u = next_number(words, common)?;
    let v = second_number(words, common)?;
    drop_numerals(words)?;
    Ok(texture_from(u, v))
}

// The first line with a number that is too long, after one more line.
fn first_long(first: Option<u32>, number: u32, long: bool) -> Option<u32>
    ensures { result ≡ spec.first_long first number long }
{
    match first {
        Some(line) => Some(line),
        None if long => Some(number),
        None => None,
    }
}

// The point, or zeros without a point.
fn point_or_origin(point: Option<Point3>) -> Point3
    ensures { result ≡ spec.point_or_origin point }
{
    match point {
        Some(point) => point,
        None => Point3 { x: 0, y: 0, z: 0 },
    }
}

// The texture value, or zeros without a value.
fn texture_or_origin(point: Option<Point2>) -> Point2
    ensures { result ≡ spec.texture_or_origin point }
{
    match point {
        Some(point) => point,
        None => Point2 { u: 0, v: 0 },
    }
}

/// Keeps the position of a `v` line over the common denominator, given the words after its keyword.
pub(crate) fn keep_position(
    positions: &mut Positions,
    common: u128,
    number: u32,
    words: &mut Words<'_>,
) -> Result<(), LineFault>
    requires enough { 3 ≤ length (words_left words.old) }
    requires short { common ≤ 10 ^ 37 }
    ensures { let read = words_left words.old in
        KeptUnless result (first_cause numeral_fault read) (λ _. AddsPosition common number read positions.old positions.new) }
{
    let point = read_position(words, common)?;
    positions.long = first_long(positions.long, number, point.is_none());
    positions.points.push(point_or_origin(point))?;
    Ok(())
}

/// Keeps the texture value of a `vt` line over the common denominator, given the words after its keyword.
pub(crate) fn keep_texture_value(
    values: &mut TextureValues,
    common: u128,
    number: u32,
    words: &mut Words<'_>,
) -> Result<(), LineFault>
    requires enough { 1 ≤ length (words_left words.old) }
    requires short { common ≤ 10 ^ 37 }
    ensures { let read = words_left words.old in
        KeptUnless result (first_cause numeral_fault read) (λ _. AddsTextureValue common number read values.old values.new) }
{
    let point = read_texture_value(words, common)?;
    values.long = first_long(values.long, number, point.is_none());
    values.points.push(texture_or_origin(point))?;
    Ok(())
}
