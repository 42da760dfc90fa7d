//! The first line of a stored table.

ghost use Rattle.std.specs.Prelude.{◌≡◌, ◌&&◌, ◌≤◌, ◌^◌, true, false, [], drop, length, get_or, bytes_eq, codes, MatchOption};
ghost use Rattle.subdiv_model.specs.Digits.{is_number_word, number_of_digits};
ghost use Rattle.subdiv_model.specs.ReadTable.{spaced_words, is_header_form, is_header_in_range, is_miscounted};
ghost use Rattle.table_file.specs.Words.{words_left};
ghost use Rattle.table_file.specs.Header.{IsHeaderForm, IsHeaderRead, AreNumbers, IsNamedNumber, is_named_number, header_of_words};

use crate::fault::TableCause;
use crate::number::{is_number, read_in_range};
use crate::words::{Words, is_word, words_of};
use std::marker::Model;

// The numbers of control points, rows and entries in the first line.
#[derive(Drop)]
pub(crate) struct Header {
    pub(crate) controls: u32,
    pub(crate) rows: u32,
    pub(crate) entries: u32,
}

impl Model for Header {
    ghost use Rattle.std.specs.Prelude.{◌≤◌, ◌^◌};
    ghost use Rattle.subdiv_model.specs.ReadTable as model;

    ghost Value = { model.Header };

    ghost view = { λ h. record { controls = h.controls; rows = h.rows; entries = h.entries } };

    ghost invariant = { λ h. (h.controls ≤ 2 ^ 20) × (h.rows ≤ 2 ^ 27) × (h.entries ≤ 2 ^ 27) };
}

impl Header {
    // Returns whether there are too many entries up to a line, or too few after the last one. `left` rows follow the line.
    pub(crate) fn is_miscounted(&self, left: u32, entries: u64) -> bool
        ensures { result ≡ is_miscounted self.now left entries }
    {
        let most = u64::from(self.entries);
        most < entries || (left == 0 && entries < most)
    }
}

// The greatest number of control points of a stored table.
const CONTROL_LIMIT: u32 = 1 << 20;

// The greatest number of rows of a stored table, and of their entries.
const ENTRY_LIMIT: u32 = 1 << 27;

// The words of the three numbers of a first line.
#[derive(Clone, Copy)]
pub(crate) struct HeaderWords<'a> {
    controls: &'a [u8],
    rows: &'a [u8],
    entries: &'a [u8],
}

// Takes a name and the number after it from the words. It returns `None` if the next words are others.
fn named_number<'a>(words: &mut Words<'a>, name: &[u8]) -> Option<&'a [u8]>
    ensures { MatchOption result (is_named_number name.now (words_left words.old) ≡ false)
        (λ number. IsNamedNumber name.now (words_left words.old) number.now (words_left words.new)) }
{
    if !is_word(words.next()?, name) {
        return None;
    }
    let number = words.next()?;
    if !is_number(number) {
        return None;
    }
    Some(number)
}

// Returns the words of the numbers of a first line. It returns `None` if the line has other words.
fn header_words(line: &[u8]) -> Option<HeaderWords<'_>>
    ensures { MatchOption result (is_header_form (spaced_words line.now) ≡ false)
        (λ words. IsHeaderForm words (spaced_words line.now)) }
{
    let mut words = words_of(line);
    if !is_word(words.next()?, b"table") {
        return None;
    }
    let controls = named_number(&mut words, b"controls")?;
    let rows = named_number(&mut words, b"rows")?;
    let entries = named_number(&mut words, b"entries")?;
    match words.next() {
        None => Some(HeaderWords {
            controls,
            rows,
            entries,
        }),
        Some(_) => None,
    }
}

// Returns the counts in the words. It returns `None` if one of them exceeds its limit.
fn header_in_range(words: &HeaderWords<'_>) -> Option<Header>
    requires { AreNumbers words.now }
    ensures { MatchOption result (is_header_in_range (header_of_words words.now) ≡ false)
        (λ header. (is_header_in_range (header_of_words words.now) ≡ true) × (header ≡ header_of_words words.now)) }
{
    let controls = read_in_range(words.controls, 0, CONTROL_LIMIT + 1)?;
    let rows = read_in_range(words.rows, 0, ENTRY_LIMIT + 1)?;
    let entries = read_in_range(words.entries, 0, ENTRY_LIMIT + 1)?;
    Some(Header {
        controls,
        rows,
        entries,
    })
}

// Reads the first line of a stored table.
pub(crate) fn read_header(line: &[u8]) -> Result<Header, TableCause>
    ensures { IsHeaderRead (spaced_words line.now) result }
{
    let words = header_words(line).ok_or(TableCause::Form)?;
    let header = header_in_range(&words).ok_or(TableCause::Range)?;
    if header.is_miscounted(header.rows, 0) {
        return Err(TableCause::Count);
    }
    Ok(header)
}
