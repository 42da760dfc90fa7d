//! One piece of a text.

ghost use Rattle.std.specs.Prelude.{◌≡◌, Some};
ghost use Rattle.subdiv_model.specs.NumberText.{number_text};
ghost use Rattle.text_pieces.specs.Text.{piece_text};

use itoa::Buffer;
use std::fmt;

/// One piece of a text: words, or a number in decimal digits.
#[derive(Clone, Copy)]
pub enum Piece {
    Text(&'static str),
    Number(u64),
}

// The decimal digits of the number, written to the buffer.
fn digits(number: u64, buffer: &mut Buffer) -> &str
    ensures { result.now ≡ number_text number }
{
    buffer.format(number)
}

impl Piece {
    /// Returns the text of the piece. The digits of a number are written to the buffer.
    pub fn text<'a>(&self, buffer: &'a mut Buffer) -> &'a str
        ensures { result.now ≡ piece_text self.now }
    {
        match self {
            Piece::Text(text) => text,
            Piece::Number(number) => digits(*number, buffer),
        }
    }
}

impl fmt::Display for Piece {
    ghost output = { λ piece. Some (piece_text piece) };

    fn fmt<W: fmt::Write>(&self, f: &mut fmt::Formatter<W>) -> fmt::Result {
        f.write_str(self.text(&mut Buffer::new()))
    }
}
