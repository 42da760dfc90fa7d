//! Texts of at most five pieces.

ghost use Rattle.std.specs.Prelude.{◌≡◌, ℕ, ◌++◌, List, length, Some};
ghost use Rattle.subdiv_model.specs.NumberText.{number_text};
ghost use Rattle.text_pieces.specs.Text.{pieces_text};

use crate::piece::Piece;
use crate::piece::Piece::{Number, Text};
use std::fmt;
use std::marker::Model;

// The empty piece that fills unused places.
const NOTHING: Piece = Text("");

/// A text of at most five pieces. Contracts read it as its text.
#[derive(Drop)]
pub struct Pieces {
    pieces: [Piece; 5],
}

impl Model for Pieces {
    ghost Value = { List ℕ };

    ghost view = { λ text. pieces_text text.pieces };

    ghost invariant = { λ text. length text.pieces ≡ 5 };
}

impl Pieces {
    /// Returns a text of words only.
    pub fn plain(text: &'static str) -> Pieces
        ensures { result ≡ text.now }
    {
        Pieces {
            pieces: [Text(text), NOTHING, NOTHING, NOTHING, NOTHING],
        }
    }

    /// Returns words, a number and words.
    pub fn about(before: &'static str, number: u64, after: &'static str) -> Pieces
        ensures { result ≡ before.now ++ (number_text number ++ after.now) }
    {
        Pieces {
            pieces: [Text(before), Number(number), Text(after), NOTHING, NOTHING],
        }
    }

    /// Returns words, a number, words, a second number and words.
    pub fn about_two(
        before: &'static str,
        first: u64,
        middle: &'static str,
        second: u64,
        after: &'static str,
    ) -> Pieces
        ensures { result ≡ before.now ++ (number_text first ++ (middle.now ++ (number_text second ++ after.now))) }
    {
        Pieces {
            pieces: [
                Text(before),
                Number(first),
                Text(middle),
                Number(second),
                Text(after),
            ],
        }
    }

    /// Returns words, a number, words and a last text, such as "line 7: " and its cause.
    pub fn about_with(
        before: &'static str,
        number: u64,
        middle: &'static str,
        after: &'static str,
    ) -> Pieces
        ensures { result ≡ before.now ++ (number_text number ++ (middle.now ++ after.now)) }
    {
        Pieces {
            pieces: [
                Text(before),
                Number(number),
                Text(middle),
                Text(after),
                NOTHING,
            ],
        }
    }

    /// Returns the five pieces in order. The ones that the text does not need are empty.
    pub fn as_slice(&self) -> &[Piece]
        ensures { pieces_text result.now ≡ self.now }
    {
        &self.pieces
    }
}

impl fmt::Display for Pieces {
    ghost output = { λ text. Some text };

    fn fmt<W: fmt::Write>(&self, f: &mut fmt::Formatter<W>) -> fmt::Result {
        let [a, b, c, d, e] = &self.pieces;
        write!(f, "{a}{b}{c}{d}{e}")
    }
}
