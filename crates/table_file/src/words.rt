//! The words of a line. Single spaces separate them.

ghost use Rattle.std.specs.Prelude.{◌≡◌, ◌∷◌, [], bytes_eq, MatchOption};
ghost use Rattle.std.specs.List.{position_or_len};
ghost use Rattle.subdiv_model.specs.ReadTable.{spaced_words};
ghost use Rattle.table_file.specs.Words.{is_space, words_in, words_left};

// The rest of the words of a line.
#[derive(Clone, Copy, Drop)]
pub(crate) struct Words<'a> {
    rest: Option<&'a [u8]>,
}

// Returns the words of a line, in their order. There is at least one word, which may be empty.
pub(crate) fn words_of<'a>(line: &'a [u8]) -> Words<'a>
    ensures { words_left result ≡ spaced_words line.now }
{
    Words { rest: Some(line) }
}

impl<'a> Words<'a> {
    // Takes the next word.
    pub(crate) fn next(&mut self) -> Option<&'a [u8]>
        ensures { MatchOption result (words_left self.old ≡ []) (λ word. words_left self.old ≡ word.now ∷ words_left self.new) }
    {
        let rest = self.rest?;
        let (word, others) = first_word(rest);
        self.rest = others;
        Some(word)
    }
}

// Returns the number of bytes before the first space.
fn word_len(line: &[u8]) -> usize
    ensures { result ≡ position_or_len is_space line.now }
{
    for (i, b) in line.iter().enumerate() {
        if *b == b' ' {
            return i;
        }
    }
    line.len()
}

// Returns the first word of a line, and the bytes after the space that follows it.
fn first_word(line: &[u8]) -> (&[u8], Option<&[u8]>)
    ensures { spaced_words line.now ≡ result.0.now ∷ words_in result.1 }
{
    let (word, others) = line.split_at(word_len(line));
    match others {
        [_, rest @ ..] => (word, Some(rest)),
        [] => (word, None),
    }
}

// Returns whether a word is this text.
pub(crate) fn is_word(word: &[u8], text: &[u8]) -> bool
    ensures { result ≡ bytes_eq word.now text.now }
{
    word == text
}
