ghost use Rattle.std.specs.Prelude.{◌≡◌, ◌^◌, ◌<◌, ◌≤◌, ℕ, List, length, drop, true, MatchOption};
ghost use Rattle.subdiv_model.specs.Digits.{number_of_digits};
ghost use Rattle.far_model.specs.Frames.{is_move_line, move_cause};
ghost use Rattle.obj_tags.specs.Kept.{ReadUnless};
ghost use Rattle.obj_tags.specs.Walk.{words_left};
ghost use Rattle.table_answers.specs.FrameRequest.{Asks, AreFirst, index_cause, point_cause, IsPointOf};

use crate::coordinate::read_coordinate;
use crate::frame_line::FrameLine;
use obj_tags::ObjCause;
use obj_text::{Words, digits_up_to};
use ratio128::Point3;

/// The four words that a move needs after its keyword.
#[derive(Drop)]
pub(crate) struct MoveWords<'a> {
    pub(crate) index: &'a [u8],
    pub(crate) x: &'a [u8],
    pub(crate) y: &'a [u8],
    pub(crate) z: &'a [u8],
}

// Returns the first four words, or `None` if there are fewer.
fn first_four<'a>(words: &mut Words<'a>) -> Option<MoveWords<'a>>
    ensures { let line = words_left words.old in
        MatchOption result (length line < 4) (λ four. AreFirst four line) }
{
    Some(MoveWords {
        index: words.next()?,
        x: words.next()?,
        y: words.next()?,
        z: words.next()?,
    })
}

// Returns the control point that a word names, counted from 0.
fn read_place(word: &[u8], count: u32) -> Result<u32, ObjCause>
    ensures { ReadUnless result (index_cause count word.now) (λ i. (i ≡ number_of_digits word.now) × (i < count)) }
{
    let place = digits_up_to(word, u128::from(count)).ok_or(ObjCause::BadNumeral)?;
    if place < u128::from(count) {
        Ok(place as u32)
    } else {
        Err(ObjCause::MoveIndex)
    }
}

// Returns the point of a move over the common denominator.
fn read_point(words: &MoveWords<'_>, common: u128) -> Result<Point3, ObjCause>
    requires { common ≤ 10 ^ 37 }
    ensures { ReadUnless result (point_cause common words.now) (λ point. IsPointOf common point words.now) }
{
    let x = read_coordinate(words.x, common)?;
    let y = read_coordinate(words.y, common)?;
    let z = read_coordinate(words.z, common)?;
    Ok(Point3 { x, y, z })
}

/// Reads a move, given the words after its keyword.
pub(crate) fn read_move(
    words: &mut Words<'_>,
    count: u32,
    common: u128,
) -> Result<FrameLine, ObjCause>
    requires { common ≤ 10 ^ 37 }
    ensures { (line : List (List ℕ)) → is_move_line line ≡ true → drop 1 line ≡ words_left words.old
        → ReadUnless result (move_cause count common line) (λ read. Asks count common line read) }
{
    let four = first_four(words).ok_or(ObjCause::ShortLine)?;
    let index = read_place(four.index, count)?;
    let point = read_point(&four, common)?;
    Ok(FrameLine::Move { index, point })
}
