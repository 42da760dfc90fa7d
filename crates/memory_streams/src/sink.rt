ghost use Rattle.std.specs.Prelude.{◌≡◌, ◌+◌, ◌-◌, ◌^◌, ◌≤◌, ◌++◌, length, take, drop, min};

use crate::beyond::Beyond;
use crate::written::Written;
use far_io::{Sink, WriteFailed};

/// A sink over a slice. Its calls never fail.
///
/// To contracts it holds every byte written. The slice receives the first bytes that fit; the sink counts the rest. Places behind the
/// text keep their bytes. `fixed` is a number for the name of the slice and its first bytes, so a generic call cannot exchange it.
#[derive(Drop)]
pub struct SliceSink<'a> {
    out: &'a mut [u8],
    at: usize,
    beyond: Beyond,
    before: Written,
    ghost same_length: { length out.now ≡ length before.bytes },
    ghost kept: { drop at out.now ≡ drop at before.bytes },
}

// Copies the piece to the places from `at` on.
fn copy_behind(out: &mut [u8], at: usize, piece: &[u8])
    requires { at + length piece.now ≤ length out.old }
    ensures same_length { length out.new ≡ length out.old }
    ensures copied { take (at + length piece.now) out.new ≡ take at out.old ++ piece.now }
    ensures kept { drop (at + length piece.now) out.new ≡ drop (at + length piece.now) out.old }
{
    out[at..at + piece.len()].copy_from_slice(piece);
}

impl<'a> SliceSink<'a> {
    ghost use Rattle.std.specs.Prelude.{◌≡◌, []};
    ghost use Rattle.memory_streams.specs.Text.{text_of, before_of, IsStored, count_of};

    /// Returns an empty sink over this slice.
    pub fn new(out: &'a mut [u8]) -> SliceSink<'a>
        ensures same_reference { result.out.ghost_name ≡ out.entry.ghost_name }
        ensures same { result.out.now ≡ out.entry.now }
        ensures empty { text_of result ≡ [] }
        ensures before { before_of result ≡ out.entry.now }
    {
        let before = Written::new().and(out);
        SliceSink {
            out,
            at: 0,
            beyond: Beyond::new(),
            before,
        }
    }

    /// Returns how many bytes were written in all, up to 2^64 - 1.
    pub fn total(&self) -> u64
        ensures { result ≡ count_of (text_of self.now) }
    {
        if self.at < self.out.len() {
            return self.at as u64;
        }
        (self.out.len() as u64).saturating_add(self.beyond.count())
    }

    /// Returns the slice to its owner. The result is the count of all bytes written, up to 2^64 - 1. The slice begins with as much of the
    /// text as fits, and places behind the text keep their bytes.
    pub fn finish(self) -> u64
        ensures total { result ≡ count_of (text_of self.entry) }
        ensures stored { IsStored (text_of self.entry) (before_of self.entry) self.exit.0.now }
    {
        self.total()
    }
}

impl<'a> Sink for SliceSink<'a> {
    ghost use Rattle.std.specs.Prelude.{◌≡◌, ℕ, ◌<◌, ◌≤◌, ◌∷◌, ◌++◌, length, take, IsOk, IfOk, Some};
    ghost use Rattle.memory_streams.specs.Number.{number_of_list};
    ghost use Rattle.memory_streams.specs.Text.{text_of, before_of, count_taken};

    ghost held = { λ s. Some (text_of s) };

    ghost faults = { λ _. 0 };

    ghost fixed = { λ s. number_of_list (s.out.ghost_name ∷ before_of s) };

    /// Adds as much of the piece as fits into the slice. If the slice is full, it counts the whole piece.
    fn write(&mut self, piece: &[u8]) -> Result<usize, WriteFailed>
        ensures fine { IsOk result }
        ensures fits { IfOk result (λ n. n ≡ count_taken self.old piece.now) }
        ensures count { IfOk result (λ n. n ≤ length piece.now) }
        ensures some { IfOk result (λ n. 0 < length piece.now → 0 < n) }
        ensures added { IfOk result (λ n. text_of self.new ≡ text_of self.old ++ take n piece.now) }
        ensures same_reference { self.new.out.ghost_name ≡ self.old.out.ghost_name }
        ensures same_before { before_of self.new ≡ before_of self.old }
    {
        let at = self.at;
        if at >= self.out.len() {
            self.beyond.add(piece);
            return Ok(piece.len());
        }
        let n = piece.len().min(self.out.len() - at);
        self.at = at + n;
        self.beyond = Beyond::new();
        copy_behind(self.out, at, &piece[..n]);
        Ok(n)
    }

    /// Changes nothing and never fails.
    fn flush(&mut self) -> Result<(), WriteFailed>
        ensures fine { IsOk result }
        ensures same { text_of self.new ≡ text_of self.old }
        ensures same_reference { self.new.out.ghost_name ≡ self.old.out.ghost_name }
        ensures same_before { before_of self.new ≡ before_of self.old }
    {
        Ok(())
    }
}
