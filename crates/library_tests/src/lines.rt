// Lines of OBJ text and their words.

use crate::expect::expect_same;
use obj_text::{line_end, words_of};
use std::process::Abort;

#[test]
fn ends_lines(rt: HostRuntime) {
    let text = b"v 1\n\nf";
    let ends = (
        line_end(text, 0),
        line_end(text, 3),
        line_end(text, 4),
        line_end(text, 5),
        line_end(text, 6),
    );
    expect_same(&rt, &ends, &(3, 3, 4, 6, 6), &"a text of three lines");
}

// Lines, each with its words.
type Line = (&'static str, &'static [&'static str]);

const LINES: &[Line] = &[
    ("", &[]),
    (" \t\r ", &[]),
    ("v 1 2 3", &["v", "1", "2", "3"]),
    ("  v\t1 \t 2\r3\r", &["v", "1", "2", "3"]),
    ("# all", &[]),
    ("#", &[]),
    ("f 1 # 2", &["f", "1"]),
    ("f 1 #2 3", &["f", "1"]),
    ("f x# y", &["f", "x#", "y"]),
    ("f x#y #", &["f", "x#y"]),
    ("v \\", &["v", "\\"]),
    ("a\x0bb\x0cc\0d", &["a\x0bb\x0cc\0d"]),
];

fn lines() -> &'static [Line] {
    LINES
}

// The line has these words. No word is empty.
fn expect_words(rt: &impl Abort, line: &str, words: &[&str]) {
    let mut count: usize = 0;
    for word in words_of(line.as_bytes()) {
        let want = words.get(count).copied().unwrap_or("");
        expect_same(rt, &word, &want.as_bytes(), &line);
        count = count.saturating_add(1);
    }
    expect_same(rt, &count, &words.len(), &line);
}

#[test]
fn splits_lines_into_words(rt: HostRuntime) {
    for &(line, words) in lines() {
        expect_words(&rt, line, words);
    }
}
