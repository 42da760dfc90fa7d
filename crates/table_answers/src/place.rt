//! The place of the stored table in an input.

ghost use Rattle.std.specs.Prelude.{◌≡◌, ◌≤◌, ◌^◌, length};
ghost use Rattle.far_model.specs.Stored.{is_table_line};
ghost use Rattle.subdiv_model.specs.ObjLine.{line_words};
ghost use Rattle.table_answers.specs.Place.{IsTablePlace};

use obj_tags::skip_mark;
use obj_text::{line_end, words_of};

/// The place of a stored table: the number of lines before it, and the place of its first byte, counted from 0.
#[derive(Clone, Copy, Debug, PartialEq, Eq)]
pub(crate) struct TablePlace {
    pub(crate) lines: u32,
    pub(crate) start: usize,
}

// Whether the first word of a line is `table`.
fn begins_table(line: &[u8]) -> bool
    ensures { result ≡ is_table_line (line_words line.now) }
{
    match words_of(line).next() {
        Some(word) => word == b"table".as_slice(),
        None => false,
    }
}

/// Returns the place of the first line whose first word is `table`, or the end of the input if no line begins so. A byte order mark
/// before the first line does not count as part of it.
pub(crate) fn place_of_table(bytes: &[u8]) -> TablePlace
    requires { length bytes.now ≤ 2 ^ 28 }
    ensures { IsTablePlace bytes.now result }
{
    let mut start = bytes.len() - skip_mark(bytes).len();
    let mut lines = 0;
    while start < bytes.len() {
        let end = line_end(bytes, start);
        if begins_table(&bytes[start..end]) {
            return TablePlace { lines, start };
        }
        lines += 1;
        if end == bytes.len() {
            return TablePlace { lines, start: end };
        }
        start = end + 1;
    }
    TablePlace { lines, start }
}
