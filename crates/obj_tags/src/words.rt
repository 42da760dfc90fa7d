ghost use Rattle.std.specs.Prelude.{◌≡◌, ◌+◌, ◌<◌, ◌≤◌, ◌^◌, length, [], ◌∷◌, MatchOption, IfSome, bytes_eq};
ghost use Rattle.std.specs.Iterator.{YieldsFirstRef};
ghost use Rattle.std.specs.List.{slice_split, position_or_len};
ghost use Rattle.subdiv_model.specs.ObjLine.{lines_of, line_words};
ghost use Rattle.subdiv_model.specs.Numeral.{is_slash};
ghost use Rattle.subdiv_model.specs.ReadObj.{without_mark, is_continued, ends_with_backslash};
ghost use Rattle.obj_tags.specs.Walk.{words_left, parts_left};

use obj_text::{Words, line_end, words_of};

/// Returns the text without a byte order mark at its start.
pub fn skip_mark(text: &[u8]) -> &[u8]
    ensures { result.now ≡ without_mark text.now }
{
    match text {
        [0xEF, 0xBB, 0xBF, rest @ ..] => rest,
        _ => text,
    }
}

/// The first line of a text without its line end, and the rest of the text, or `None` if there is no line. The last line may lack a line
/// end.
pub(crate) fn first_line(text: &[u8]) -> Option<(&[u8], &[u8])>
    ensures lines { MatchOption result (lines_of text.now ≡ [])
        (λ r. lines_of text.now ≡ r.0.now ∷ lines_of r.1.now) }
    ensures shorter { IfSome result (λ r. length r.1.now < length text.now) }
    ensures parts { IfSome result (λ r. length r.0.now + length r.1.now ≤ length text.now) }
{
    if text.is_empty() {
        return None;
    }
    let (line, others) = text.split_at(line_end(text, 0));
    match others {
        [_, rest @ ..] => Some((line, rest)),
        [] => Some((line, others)),
    }
}

fn ends_in_backslash(word: &[u8]) -> bool
    ensures { result ≡ ends_with_backslash word.now }
{
    match word {
        [.., last] => *last == b'\\',
        [] => false,
    }
}

/// How many words a line has, and whether the last of them ends with a backslash.
#[derive(Clone, Copy)]
pub(crate) struct Extent {
    pub(crate) len: usize,
    pub(crate) continued: bool,
}

/// The extent of a line, found in one pass over its words.
pub(crate) fn extent_of(line: &[u8]) -> Extent
    requires { length line.now ≤ 2 ^ 28 }
    ensures len { result.len ≡ length (line_words line.now) }
    ensures continued { result.continued ≡ is_continued (line_words line.now) }
{
    let mut words = words_of(line);
    let mut len = 0;
    let mut continued = false;
    while let Some(word) = next_word(&mut words) {
        len += 1;
        continued = ends_in_backslash(word);
    }
    Extent { len, continued }
}

/// The next word of a line, or `None` if there is none.
pub(crate) fn next_word<'a>(words: &mut Words<'a>) -> Option<&'a [u8]>
    ensures { YieldsFirstRef words_left words.old result words.new }
{
    words.next()
}

/// Whether a word is this text.
pub(crate) fn is_word(word: &[u8], text: &[u8]) -> bool
    ensures { result ≡ bytes_eq word.now text.now }
{
    word == text
}

// How many bytes precede the first slash.
fn part_len(word: &[u8]) -> usize
    ensures { result ≡ position_or_len is_slash word.now }
{
    for (i, b) in word.iter().enumerate() {
        if *b == b'/' {
            return i;
        }
    }
    word.len()
}

/// The bytes before the first slash, and those after it, or `None` if there is no slash.
pub(crate) fn split_slash(word: &[u8]) -> (&[u8], Option<&[u8]>)
    ensures { slice_split is_slash word.now ≡ result.0.now ∷ parts_left result.1 }
{
    let (part, others) = word.split_at(part_len(word));
    match others {
        [_, rest @ ..] => (part, Some(rest)),
        [] => (part, None),
    }
}
