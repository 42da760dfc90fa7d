//! The words of a command line in one slice, each ended by a zero byte.

ghost use Rattle.std.specs.Prelude.{◌≡◌, ◌+◌, ◌<◌, [], map, position, MatchOption, IfOk, string_bytes, if◌then◌else◌};
ghost use Rattle.far_engine.specs.MemoryWords.{is_zero, words_of};

use std::alloc::{AllocError, Global};

// The place of the first zero byte.
fn first_zero(bytes: &[u8]) -> Option<usize>
    ensures { result ≡ position is_zero bytes.now }
{
    bytes.iter().position(|b| *b == 0)
}

// Reads the words into a list, and returns whether the bytes spell words.
fn read_words(alloc: Global, bytes: &[u8], words: &mut Vec<String>) -> Result<bool, AllocError>
    requires { words.old.items ≡ [] }
    ensures { IfOk result (λ fine. words_of bytes.now ≡ (if fine then map string_bytes words.new.items else [])) }
{
    let mut rest = bytes;
    while let Some(at) = first_zero(rest) {
        let Ok(word) = str::from_utf8(&rest[..at]) else {
            return Ok(false);
        };
        words.push(String::from_str(alloc, word)?)?;
        rest = &rest[at + 1..];
    }
    Ok(rest.is_empty())
}

// The words that the bytes spell.
pub(crate) fn words_in(alloc: Global, bytes: &[u8]) -> Result<Vec<String>, AllocError>
    ensures { IfOk result (λ words. map string_bytes words.items ≡ words_of bytes.now) }
{
    let mut words = Vec::new(alloc);
    if read_words(alloc, bytes, &mut words)? {
        return Ok(words);
    }
    Ok(Vec::new(alloc))
}
