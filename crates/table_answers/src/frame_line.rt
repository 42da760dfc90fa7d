ghost use Rattle.std.specs.Prelude.{◌≡◌, ◌^◌, ◌≤◌, bytes_eq, Some, MatchResult};
ghost use Rattle.far_model.specs.Frames.{words_cause, frame_cause};
ghost use Rattle.obj_tags.specs.Kept.{ReadUnless};
ghost use Rattle.obj_tags.specs.Walk.{words_left};
ghost use Rattle.obj_tags.specs.View.{cause_of};
ghost use Rattle.table_answers.specs.FrameRequest.{Asks, IsFrameLine};

use crate::move_words::read_move;
use obj_tags::ObjCause;
use obj_text::{Words, words_of};
use ratio128::Point3;

/// The request of a line of `frames`.
#[derive(Clone, Copy, Debug, PartialEq, Eq)]
pub enum FrameLine {
    /// An empty line or a comment: no request.
    Empty,
    /// A move of a control point, counted from 0, to a point. Its numerators are over the common denominator.
    Move { index: u32, point: Point3 },
    /// The word `go`: a request for the points that changed.
    Go,
}

// The greatest length of a line, in bytes.
const LINE_LIMIT: usize = 65_535;

// Returns whether a word is this text.
fn is_word(word: &[u8], text: &[u8]) -> bool
    ensures { result ≡ bytes_eq word.now text.now }
{
    word == text
}

// Reads the words of a line.
fn read_words(words: &mut Words<'_>, count: u32, common: u128) -> Result<FrameLine, ObjCause>
    requires { common ≤ 10 ^ 37 }
    ensures { let line = words_left words.old in
        ReadUnless result (words_cause count common line) (λ read. Asks count common line read) }
{
    let Some(keyword) = words.next() else {
        return Ok(FrameLine::Empty);
    };
    if is_word(keyword, b"move") {
        return read_move(words, count, common);
    }
    if is_word(keyword, b"go") {
        return Ok(FrameLine::Go);
    }
    Err(ObjCause::UnknownKeyword)
}

/// Reads a line of `frames`. `count` is the number of control points, and `common` is their common denominator, at most 10^37.
///
/// Any words after `go`, or after the four words of a `move`, are dropped unread.
///
/// # Errors
///
/// The first of these faults:
///
/// - `LongLine`: the line has more than 65,535 bytes.
/// - `UnknownKeyword`: the first word is neither `move` nor `go`.
/// - `ShortLine`: fewer than four words follow `move`.
/// - `BadNumeral`: the first of them has a byte that is not a digit.
/// - `MoveIndex`: that number is not below `count`.
/// - The first fault of x, then of y, then of z.
///
/// The fault of a coordinate is the first of these:
///
/// - `BadNumeral`: the word is not a numeral.
/// - `NumberRange`: the numeral is out of range.
/// - `TooFine`: its denominator in lowest terms does not divide `common`.
/// - `NumberRange`: its numerator over `common` has more than 37 digits.
pub fn read_frame_line(line: &[u8], count: u32, common: u128) -> Result<FrameLine, ObjCause>
    requires { common ≤ 10 ^ 37 }
    ensures { MatchResult result (λ read. IsFrameLine count common line.now read) (λ cause. frame_cause count common line.now ≡ Some (cause_of cause)) }
{
    if line.len() > LINE_LIMIT {
        return Err(ObjCause::LongLine);
    }
    let mut words = words_of(line);
    read_words(&mut words, count, common)
}
