ghost use Rattle.std.specs.Prelude.{◌≡◌, ◌+◌, ◌%◌, nat_eq, ◌<◌, ◌≤◌, ◌^◌, ℕ, List, ◌∷◌, length, map, take, None, if◌then◌else◌, IfSome, IfNone};
ghost use Rattle.std.specs.List.{fold};
ghost use Rattle.subdiv_model.specs.ObjLine.{begins_with, lines_of, is_vertex_line, is_face_line, line_words};
ghost use Rattle.subdiv_model.specs.ReadObj as model;
ghost use Rattle.subdiv_model.specs.ReadObj.{is_texture_line};
ghost use Rattle.ratio128.specs.Ratio.{IsLcm};
ghost use Rattle.obj_tags.specs.Survey as spec;
ghost use Rattle.obj_tags.specs.Survey.{IsBounded, IsSurveyOf};
ghost use Rattle.obj_tags.specs.View.{counts_of};
ghost use Rattle.obj_tags.specs.Walk.{words_left};

use crate::face::Counts;
use crate::number::numeral;
use crate::plain::is_over;
use crate::words::{first_line, is_word, next_word};
use obj_text::{Words, words_of};
use ratio128::lcm_within;
use ratio128::limits::NUMERAL_BOUND;

/// The common denominator of a channel, from 1 to 10^37. If that of all lines exceeds 10^37, `wide` is the first line at which it does,
/// counted from 1.
#[derive(Clone, Copy)]
pub(crate) struct Common {
    pub(crate) value: u128,
    pub(crate) wide: Option<u32>,
}

/// The result of the first pass over a text. It has the number of lines of each kind, and the common denominators of positions and of
/// texture values.
#[derive(Clone, Copy)]
pub(crate) struct Survey {
    pub(crate) counts: Counts,
    pub(crate) positions: Common,
    pub(crate) texture: Common,
}

// Whether a denominator divides a common denominator.
fn divides(den: u128, common: u128) -> bool
    requires { 0 < den }
    ensures { result ≡ nat_eq (common % den) 0 }
{
    den == 1 || common % den == 0
}

// The least common multiple of a common denominator and a denominator, if it is at most 10^37.
fn multiple_of(common: u128, den: u128) -> Option<u128>
    requires common { 0 < common }
    requires den { 0 < den }
    ensures passed { IfNone result ((m : ℕ) → IsLcm common den m → 10 ^ 37 < m) }
    ensures multiple { IfSome result (IsLcm common den) }
    ensures within { IfSome result (λ m. m ≤ 10 ^ 37) }
{
    lcm_within(common, den, NUMERAL_BOUND)
}

// The common denominator after one more denominator, of the line with this number.
fn with_denominator(common: Common, number: u32, den: u128) -> Common
    requires bounded { IsBounded common }
    requires positive { 0 < den }
    ensures with { result ≡ spec.with_denominator number common den }
    ensures bounded { IsBounded result }
{
    if common.wide.is_some() || divides(den, common.value) {
        return common;
    }
    match multiple_of(common.value, den) {
        Some(value) => Common { value, wide: None },
        None => Common {
            value: common.value,
            wide: Some(number),
        },
    }
}

// The common denominator after the denominator of a word. A faulty word counts nothing, and a word that changes nothing is not read.
fn with_word(common: Common, number: u32, word: &[u8]) -> Common
    requires bounded { IsBounded common }
    ensures with { result ≡ spec.with_word number common word.now }
    ensures bounded { IsBounded result }
{
    if common.wide.is_some() || is_over(word, common.value) {
        return common;
    }
    match numeral(word) {
        Ok(read) => with_denominator(common, number, read.den),
        Err(_) => common,
    }
}

// The common denominator after the next words, of which at most `most` are read.
fn with_words(common: Common, number: u32, words: &mut Words<'_>, most: u32) -> Common
    requires bounded { IsBounded common }
    ensures with { result ≡ fold (spec.with_word number) common (take most (words_left words.old)) }
    ensures bounded { IsBounded result }
{
    let mut common = common;
    let mut left = most;
    while left > 0 {
        let Some(word) = next_word(words) else {
            return common;
        };
        common = with_word(common, number, word);
        left -= 1;
    }
    common
}

// The survey after one more line with this first word and these words after it.
fn with_values(all: Survey, number: u32, first: &[u8], words: &mut Words<'_>) -> Survey
    requires points { all.counts.point_count < 2 ^ 31 }
    requires textures { all.counts.texture_count < 2 ^ 31 }
    requires faces { all.counts.face_count < 2 ^ 31 }
    requires positions { IsBounded all.positions }
    requires texture { IsBounded all.texture }
    ensures points { let line = first.now ∷ words_left words.old in
        result.counts.point_count ≡ all.counts.point_count + (if is_vertex_line line then 1 else 0) }
    ensures textures { let line = first.now ∷ words_left words.old in
        result.counts.texture_count ≡ all.counts.texture_count + (if is_texture_line line then 1 else 0) }
    ensures faces { let line = first.now ∷ words_left words.old in
        result.counts.face_count ≡ all.counts.face_count + (if is_face_line line then 1 else 0) }
    ensures positions { let line = first.now ∷ words_left words.old in
        result.positions ≡ spec.with_line is_vertex_line number all.positions line }
    ensures texture { let line = first.now ∷ words_left words.old in
        result.texture ≡ spec.with_line is_texture_line number all.texture line }
    ensures positions_bounded { IsBounded result.positions }
    ensures texture_bounded { IsBounded result.texture }
{
    let mut all = all;
    if is_word(first, b"v") {
        all.counts.point_count += 1;
        all.positions = with_words(all.positions, number, words, 3);
    } else if is_word(first, b"vt") {
        all.counts.texture_count += 1;
        all.texture = with_words(all.texture, number, words, 2);
    } else if is_word(first, b"f") {
        all.counts.face_count += 1;
    }
    all
}

// The survey after one more line.
fn with_line(all: Survey, number: u32, line: &[u8]) -> Survey
    requires points { all.counts.point_count < 2 ^ 31 }
    requires textures { all.counts.texture_count < 2 ^ 31 }
    requires faces { all.counts.face_count < 2 ^ 31 }
    requires positions { IsBounded all.positions }
    requires texture { IsBounded all.texture }
    ensures points { result.counts.point_count
        ≡ all.counts.point_count + (if is_vertex_line (line_words line.now) then 1 else 0) }
    ensures textures { result.counts.texture_count
        ≡ all.counts.texture_count + (if is_texture_line (line_words line.now) then 1 else 0) }
    ensures faces { result.counts.face_count
        ≡ all.counts.face_count + (if is_face_line (line_words line.now) then 1 else 0) }
    ensures positions { result.positions ≡ spec.with_line is_vertex_line number all.positions (line_words line.now) }
    ensures texture { result.texture ≡ spec.with_line is_texture_line number all.texture (line_words line.now) }
    ensures positions_bounded { IsBounded result.positions }
    ensures texture_bounded { IsBounded result.texture }
{
    let mut words = words_of(line);
    match next_word(&mut words) {
        None => all,
        Some(first) => with_values(all, number, first, &mut words),
    }
}

/// The number of lines of each kind and the common denominators of the channels, over good and bad lines. The common denominator of the
/// positions is a multiple of 10^least_scale.
pub(crate) fn survey_of(text: &[u8], least_scale: u32) -> Survey
    requires short { length text.now ≤ 2 ^ 28 }
    requires scale { least_scale ≤ 18 }
    ensures counts { counts_of result.counts ≡ model.counts_of (map line_words (lines_of text.now)) }
    ensures commons { IsSurveyOf result least_scale (map line_words (lines_of text.now)) }
    ensures positions_bounded { IsBounded result.positions }
    ensures texture_bounded { IsBounded result.texture }
{
    let mut all = Survey {
        counts: Counts {
            point_count: 0,
            texture_count: 0,
            face_count: 0,
        },
        positions: Common {
            value: 10u128.pow(least_scale),
            wide: None,
        },
        texture: Common {
            value: 1,
            wide: None,
        },
    };
    let mut number = 0;
    let mut rest = text;
    while let Some((line, others)) = first_line(rest) {
        number += 1;
        all = with_line(all, number, line);
        rest = others;
    }
    all
}
