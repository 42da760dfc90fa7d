//! The line of a row of a stored table.

ghost use Rattle.std.specs.Prelude.{◌≡◌, ◌≤◌, ◌^◌, true, false, nat_eq, [], length, IfOk, MatchOption};
ghost use Rattle.std.specs.List.{list_all};
ghost use Rattle.std.specs.Option.{option_map};
ghost use Rattle.subdiv_model.specs.Channel.{number_bound};
ghost use Rattle.subdiv_model.specs.Digits.{is_number_word};
ghost use Rattle.subdiv_model.specs.ReadTable.{spaced_words, is_row_form, shares_of_words, are_shares_in_range, is_row_in_range};
ghost use Rattle.stencil_apply.specs.Arrays.{row_of, shares_of};
ghost use Rattle.stencil_apply.specs.Table.{total_of};
ghost use Rattle.table_file.specs.View.{cause_of};
ghost use Rattle.table_file.specs.Words.{words_left, are_number_pairs, share_of, is_share_in_range, IsNextEntry};
ghost use Rattle.table_file.specs.Row as specs;
ghost use Rattle.table_file.specs.Row.{IsInRange, IsRowForm, row_in};

use crate::fault::TableCause;
use crate::header::Header;
use crate::number::{is_number, read_in_range, read_term};
use crate::words::{Words, is_word, words_of};
use ratio128::Memory;
use stencil_apply::Entry;

// The words of a row's numbers: its denominator, and its entries.
#[derive(Clone, Copy, Drop)]
pub(crate) struct RowWords<'a> {
    denominator: &'a [u8],
    shares: Words<'a>,
}

// Returns whether the words are numbers and come in pairs.
fn are_pairs(words: &mut Words<'_>) -> bool
    ensures { result ≡ are_number_pairs (words_left words.old) }
{
    while let Some(control) = words.next() {
        let Some(numerator) = words.next() else {
            return false;
        };
        if !is_number(control) || !is_number(numerator) {
            return false;
        }
    }
    true
}

// Returns the words of the numbers of a row. It returns `None` if the line has other words.
pub(crate) fn row_words(line: &[u8]) -> Option<RowWords<'_>>
    ensures { MatchOption result (is_row_form (spaced_words line.now) ≡ false) (λ words. IsRowForm words (spaced_words line.now)) }
{
    let mut words = words_of(line);
    if !is_word(words.next()?, b"s") {
        return None;
    }
    let denominator = words.next()?;
    let shares = words;
    if !is_number(denominator) {
        return None;
    }
    if !are_pairs(&mut words) {
        return None;
    }
    Some(RowWords {
        denominator,
        shares,
    })
}

// Returns the entry of two words. It returns `None` if a number is out of range.
fn read_entry(control: &[u8], numerator: &[u8], least: u32, controls: u32) -> Option<Entry>
    requires control { is_number_word control.now ≡ true }
    requires numerator { is_number_word numerator.now ≡ true }
    ensures { let share = share_of control.now numerator.now in
        MatchOption result (is_share_in_range controls least share ≡ false) (λ entry. IsNextEntry controls least share entry) }
{
    let index = read_in_range(control, least, controls)?;
    let numerator = read_term(numerator)?;
    Some(Entry { index, numerator })
}

// Reads the entries of a row, and returns whether all are in range.
fn read_shares(words: &mut Words<'_>, controls: u32, row: &mut Vec<Entry>) -> Result<bool, Memory>
    requires numbers { list_all is_number_word (words_left words.old) ≡ true }
    requires empty { row.old.items ≡ [] }
    ensures range { IfOk result (λ fits. fits ≡ are_shares_in_range controls 0 (shares_of_words (words_left words.old))) }
    ensures shares { IfOk result (λ fits. fits ≡ true → shares_of row.new.items ≡ shares_of_words (words_left words.old)) }
{
    let mut least = 0;
    while let Some(control) = words.next() {
        let Some(numerator) = words.next() else {
            return Ok(true);
        };
        let Some(entry) = read_entry(control, numerator, least, controls) else {
            return Ok(false);
        };
        row.push(entry)?;
        least = entry.index + 1;
    }
    Ok(true)
}

// Reads the numbers of a row, and returns its denominator. It returns `None` where a number is out of range.
pub(crate) fn read_values(
    words: &RowWords<'_>,
    controls: u32,
    row: &mut Vec<Entry>,
) -> Result<Option<u128>, Memory>
    requires denominator { is_number_word words.now.denominator.now ≡ true }
    requires numbers { list_all is_number_word (words_left words.now.shares) ≡ true }
    ensures { IfOk result (λ read. MatchOption read (is_row_in_range controls (row_in words.now) ≡ false)
        (λ den. IsInRange controls words.now den row.new.items)) }
{
    let Some(denominator) = read_term(words.denominator) else {
        return Ok(None);
    };
    row.clear();
    let mut shares = words.shares;
    if !read_shares(&mut shares, controls, row)? {
        return Ok(None);
    }
    Ok(Some(denominator))
}

// Returns whether the numerators of a row sum to a denominator.
fn sums_to(row: &[Entry], denominator: u128) -> bool
    requires { denominator ≤ number_bound }
    ensures { result ≡ nat_eq (total_of (shares_of row.now)) denominator }
{
    let mut total: u128 = 0;
    for entry in row {
        total = total.saturating_add(entry.numerator);
    }
    total == denominator
}

// Returns the fault of a row whose numbers are in range. `left` rows follow it, and `entries` entries come before it.
pub(crate) fn cause_in_range(
    denominator: u128,
    row: &[Entry],
    header: &Header,
    left: u32,
    entries: u64,
) -> Option<TableCause>
    requires short { denominator ≤ number_bound }
    requires few { entries ≤ 2 ^ 27 }
    ensures { option_map cause_of result ≡ specs.cause_in_range header.now left entries (row_of denominator row.now) }
{
    if !sums_to(row, denominator) {
        return Some(TableCause::Sum);
    }
    if header.is_miscounted(left, entries + row.len() as u64) {
        return Some(TableCause::Count);
    }
    None
}
