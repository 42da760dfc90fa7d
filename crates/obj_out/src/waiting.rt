ghost use Rattle.std.specs.Prelude.{◌≡◌, ℕ, ◌+◌, ◌≤◌, [], ◌∷◌, ◌++◌, decimal, length, take};

use itoa::write_digits;
use std::marker::Model;

// Up to 4,096 bytes of a text that wait to be passed on.
#[derive(Drop)]
pub(crate) struct Waiting {
    bytes: [u8; 4096],
    len: usize,
}

impl Model for Waiting {
    ghost use Rattle.std.specs.Prelude.{ℕ, ◌≤◌, List, take};

    ghost Value = { List ℕ };

    ghost view = { λ w. take w.len w.bytes };

    ghost invariant = { λ w. w.len ≤ 4096 };
}

impl Waiting {
    pub(crate) fn new() -> Waiting
        ensures { result ≡ [] }
    {
        Waiting {
            bytes: [0; 4096],
            len: 0,
        }
    }

    // Returns how many more bytes fit.
    #[inline]
    pub(crate) fn free_bytes(&self) -> usize
        ensures { result + length self.now ≡ 4096 }
    {
        4096 - self.len
    }

    pub(crate) fn as_slice(&self) -> &[u8]
        ensures { result.now ≡ self.now }
    {
        &self.bytes[..self.len]
    }

    pub(crate) fn clear(&mut self)
        ensures { self.new ≡ [] }
    {
        self.len = 0;
    }

    pub(crate) fn push(&mut self, text: &[u8])
        requires { length self.old + length text.now ≤ 4096 }
        ensures { self.new ≡ self.old ++ text.now }
    {
        copy_behind(&mut self.bytes, self.len, text);
        self.len += text.len();
    }

    #[inline]
    pub(crate) fn push_byte(&mut self, byte: u8)
        requires { length self.old + 1 ≤ 4096 }
        ensures { self.new ≡ self.old ++ (byte ∷ []) }
    {
        self.bytes[self.len] = byte;
        self.len += 1;
    }

    // Appends the digits of a number, written straight to their place.
    pub(crate) fn push_digits(&mut self, n: u64)
        requires { length self.old + 20 ≤ 4096 }
        ensures { self.new ≡ self.old ++ decimal n }
    {
        let end = self.len + digits_of(n);
        write_digits(n, &mut self.bytes, end);
        self.len = end;
    }
}

// Returns how many digits a number has.
fn digits_of(n: u64) -> usize
    ensures count { result ≡ length (decimal n) }
    ensures few { result ≤ 20 }
{
    if n < 10 {
        return 1;
    }
    n.ilog10() as usize + 1
}

// Copies the text to place `at` of a buffer.
fn copy_behind(buffer: &mut [u8], at: usize, text: &[u8])
    requires { at + length text.now ≤ length buffer.old }
    ensures { take (at + length text.now) buffer.new ≡ take at buffer.old ++ text.now }
{
    buffer[at..at + text.len()].copy_from_slice(text);
}
