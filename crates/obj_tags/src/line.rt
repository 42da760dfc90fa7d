ghost use Rattle.std.specs.Prelude.{◌≡◌, ◌+◌, ◌^◌, ◌≤◌, ℕ, List, ◌∷◌, length};
ghost use Rattle.subdiv_model.specs.ObjLine.{line_words};
ghost use Rattle.subdiv_model.specs.ReadObj.{is_dropped_line, least_values};
ghost use Rattle.obj_tags.specs.Draft.{HasCapacity, KeepsWords, KeepsLine};
ghost use Rattle.obj_tags.specs.Keyword.{IsKeywordOf, IsReadAs, least_of};
ghost use Rattle.obj_tags.specs.Line.{Line};
ghost use Rattle.obj_tags.specs.Walk.{words_left};

use crate::ObjCause;
use crate::channel::{keep_position, keep_texture_value};
use crate::draft::Draft;
use crate::face::keep_face;
use crate::fault::LineFault;
use crate::survey::Survey;
use crate::tag::keep_tag;
use crate::words::{extent_of, is_word, next_word};
use obj_text::{Words, words_of};
use std::alloc::Global;

/// The keyword of a line.
#[derive(Clone, Copy)]
pub(crate) enum Keyword {
    Position,
    Texture,
    Face,
    Tag,
    /// The reader drops the rest of the line unread.
    Ignored,
}

// Whether the reader drops the rest of a line with this first word unread.
fn is_ignored(word: &[u8]) -> bool
    ensures { (rest : List (List ℕ)) → result ≡ is_dropped_line (word.now ∷ rest) }
{
    is_word(word, b"vn")
        || is_word(word, b"g")
        || is_word(word, b"o")
        || is_word(word, b"s")
        || is_word(word, b"usemtl")
        || is_word(word, b"mtllib")
        || is_word(word, b"l")
        || is_word(word, b"p")
}

/// The keyword that a word is, or `None`.
pub(crate) fn keyword_of(word: &[u8]) -> Option<Keyword>
    ensures { (rest : List (List ℕ)) → IsReadAs result (word.now ∷ rest) }
{
    if is_word(word, b"v") {
        Some(Keyword::Position)
    } else if is_word(word, b"vt") {
        Some(Keyword::Texture)
    } else if is_word(word, b"f") {
        Some(Keyword::Face)
    } else if is_word(word, b"t") {
        Some(Keyword::Tag)
    } else if is_ignored(word) {
        Some(Keyword::Ignored)
    } else {
        None
    }
}

// How many words must follow a keyword.
fn least_words(keyword: Keyword) -> usize
    ensures least { (line : Line) → IsKeywordOf keyword line → result ≡ least_values line }
    ensures value { result ≡ least_of keyword }
{
    match keyword {
        Keyword::Position => 3,
        Keyword::Texture => 1,
        Keyword::Face => 1,
        Keyword::Tag => 2,
        Keyword::Ignored => 0,
    }
}

// Keeps the `len` words after a keyword. They are enough for the keyword.
fn keep_values(
    alloc: Global,
    draft: &mut Draft,
    all: Survey,
    number: u32,
    keyword: Keyword,
    len: usize,
    words: &mut Words<'_>,
) -> Result<(), LineFault>
    requires capacity { HasCapacity draft.old all.counts (length (words_left words.old)) }
    requires positions { all.positions.value ≤ 10 ^ 37 }
    requires texture { all.texture.value ≤ 10 ^ 37 }
    requires count { len ≡ length (words_left words.old) }
    requires enough { least_of keyword ≤ len }
    ensures { KeepsWords all number keyword (words_left words.old) draft.old draft.new result }
{
    match keyword {
        Keyword::Position => {
            keep_position(&mut draft.positions, all.positions.value, number, words)
        }
        Keyword::Texture => {
            keep_texture_value(&mut draft.texture, all.texture.value, number, words)
        }
        Keyword::Face => {
            let before = draft.counts();
            keep_face(&mut draft.faces, all.counts, before, words)
        }
        Keyword::Tag => keep_tag(alloc, &mut draft.tags, all.counts, len, words),
        Keyword::Ignored => Ok(()),
    }
}

/// Keeps a line. `number` is its place in the text, counted from 1, and `all` is the survey of the whole text.
pub(crate) fn keep_line(
    alloc: Global,
    draft: &mut Draft,
    all: Survey,
    number: u32,
    line: &[u8],
) -> Result<(), LineFault>
    requires short { length line.now ≤ 2 ^ 28 }
    requires positions { all.positions.value ≤ 10 ^ 37 }
    requires texture { all.texture.value ≤ 10 ^ 37 }
    requires capacity { HasCapacity draft.old all.counts (length line.now) }
    ensures { KeepsLine all number (line_words line.now) draft.old draft.new result }
{
    let mut words = words_of(line);
    let Some(first) = next_word(&mut words) else {
        return Ok(());
    };
    let extent = extent_of(line);
    if extent.continued {
        return Err(LineFault::Cause(ObjCause::Continuation));
    }
    let Some(keyword) = keyword_of(first) else {
        return Err(LineFault::Cause(ObjCause::UnknownKeyword));
    };
    let len = extent.len - 1;
    if len < least_words(keyword) {
        return Err(LineFault::Cause(ObjCause::ShortLine));
    }
    keep_values(alloc, draft, all, number, keyword, len, &mut words)
}
