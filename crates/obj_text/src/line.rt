ghost use Rattle.std.specs.Prelude.{◌≡◌, ◌<◌, ◌≤◌, false, length, [], ◌∷◌, MatchOption};
ghost use Rattle.std.specs.Iterator.{YieldsFirstRef, item_count};
ghost use Rattle.std.specs.List.{position_or_len, before_first, after_first};
ghost use Rattle.subdiv_model.specs.ObjLine.{is_blank, line_end_of, opens_comment, line_words};

/// Returns the place of the first LF from `at` on, or the length if there is none. A line that begins at `at` ends before that place (this
/// profile).
pub fn line_end(bytes: &[u8], at: usize) -> usize
    requires { at ≤ length bytes.now }
    ensures { result ≡ line_end_of bytes.now at }
{
    let (_, rest) = bytes.split_at(at);
    for (i, b) in rest.iter().enumerate() {
        if *b == b'\n' {
            return at + i;
        }
    }
    bytes.len()
}

/// The words of a line that are still to come.
#[derive(Drop)]
pub struct Words<'a> {
    line: &'a [u8],
}

/// Returns the words of a line, in order.
///
/// A word is a longest run of bytes other than space, tab and carriage return. The first run that begins with `#` starts a comment and ends
/// the words (this profile).
pub fn words_of<'a>(line: &'a [u8]) -> Words<'a>
    ensures { line_words result.line.now ≡ line_words line.now }
{
    Words { line }
}

impl<'a> Iterator for Words<'a> {
    type Item = &'a [u8];

    ghost next_gives = { YieldsFirstRef (λ s. line_words s.line.now) };

    ghost remaining = { item_count (λ s. line_words s.line.now) };

    fn next(&mut self) -> Option<&'a [u8]> {
        let (word, rest) = first_word(self.line)?;
        self.line = rest;
        Some(word)
    }
}

fn is_blank_byte(b: u8) -> bool
    ensures { result ≡ is_blank b }
{
    b == b' ' || b == b'\t' || b == b'\r'
}

// How many bytes precede the first blank.
fn run_len(line: &[u8]) -> usize
    ensures { result ≡ position_or_len is_blank line.now }
{
    for (i, b) in line.iter().enumerate() {
        if is_blank_byte(*b) {
            return i;
        }
    }
    line.len()
}

// The bytes before the first blank and those after it.
fn first_run(line: &[u8]) -> (&[u8], &[u8])
    ensures run { result.0.now ≡ before_first is_blank line.now }
    ensures rest { result.1.now ≡ after_first is_blank line.now }
    ensures shorter { 0 < length line.now → length result.1.now < length line.now }
{
    let (run, others) = line.split_at(run_len(line));
    match others {
        [_, rest @ ..] => (run, rest),
        [] => (run, others),
    }
}

fn is_comment(run: &[u8]) -> bool
    ensures { result ≡ opens_comment run.now }
{
    match run {
        [first, ..] => *first == b'#',
        [] => false,
    }
}

// The first word of a line and the bytes after it, or `None` if there is no word.
fn first_word(line: &[u8]) -> Option<(&[u8], &[u8])>
    ensures { MatchOption result (line_words line.now ≡ []) (λ r. line_words line.now ≡ r.0.now ∷ line_words r.1.now) }
{
    let mut rest = line;
    while !rest.is_empty() {
        let (run, others) = first_run(rest);
        if is_comment(run) {
            return None;
        }
        if !run.is_empty() {
            return Some((run, others));
        }
        rest = others;
    }
    None
}
