ghost use Rattle.std.specs.Prelude.{◌≡◌, ℕ, ◌<◌, ◌≤◌, length, IfOk, OnOk, OnErr, None};
ghost use Rattle.std.specs.Io.KnownBytes.{Keeps, ReadConsumes, WriteAppends};
ghost use Rattle.far_io.specs.Memory.{one_more};

use crate::{ReadFailed, Sink, Source, WriteFailed};
use std::io::{Read, Write};
use std::marker::Model;

/// A reader of std as a source. It reports no bytes as a source, because no contract can say what a file or a terminal holds. If the type
/// of the reader knows its bytes, as a slice does, the clause `bytes` of `read` says which came.
#[derive(Drop)]
pub struct StdSource<R: Read + Drop> {
    reader: R,
    count: u64,
}

impl<R: Read + Drop> Model for StdSource<R> {
    ghost use Rattle.far_io.specs.Standard.{Stream};

    ghost Value = { Stream };

    ghost view = { λ s. record { known = R.remaining s.reader; faults = s.count } };
}

impl<R: Read + Drop> StdSource<R> {
    /// Returns a source over the reader, with a fault count of 0.
    pub fn new(reader: R) -> StdSource<R>
        ensures known { result.known ≡ R.remaining reader }
        ensures faults { result.faults ≡ 0 }
    {
        StdSource { reader, count: 0 }
    }
}

impl<R: Read + Drop> Source for StdSource<R> {
    ghost left = { λ _. None };

    ghost faults = { λ s. s.faults };

    /// Reads once. `ReadFailed`: the reader failed; the source counts the fault.
    fn read(&mut self, buf: &mut [u8]) -> Result<usize, ReadFailed>
        ensures count { IfOk result (λ n. n ≤ length buf.old) }
        ensures bytes { ReadConsumes self.old.known self.new.known result buf.new }
        ensures counted { OnErr result (self.new.faults ≡ one_more self.old.faults) }
        ensures faults { OnOk result (self.new.faults ≡ self.old.faults) }
        ensures later { self.old.faults ≤ self.new.faults }
    {
        match self.reader.read(buf) {
            Ok(n) => Ok(n),
            Err(_) => {
                self.count = self.count.saturating_add(1);
                Err(ReadFailed)
            }
        }
    }
}

/// A writer of std as a sink. It reports no bytes as a sink. If the type of the writer knows its bytes, as a `Vec` does, the clause `bytes`
/// of `write` says which it added.
#[derive(Drop)]
pub struct StdSink<W: Write + Drop> {
    writer: W,
    count: u64,
}

impl<W: Write + Drop> Model for StdSink<W> {
    ghost use Rattle.far_io.specs.Standard.{Stream};

    ghost Value = { Stream };

    ghost view = { λ s. record { known = W.contents s.writer; faults = s.count } };
}

impl<W: Write + Drop> StdSink<W> {
    /// Returns a sink over the writer, with a fault count of 0.
    pub fn new(writer: W) -> StdSink<W>
        ensures known { result.known ≡ W.contents writer }
        ensures faults { result.faults ≡ 0 }
    {
        StdSink { writer, count: 0 }
    }
}

impl<W: Write + Drop> Sink for StdSink<W> {
    ghost held = { λ _. None };

    ghost faults = { λ s. s.faults };

    ghost fixed = { λ _. 0 };

    /// Writes once, and not at all if the piece is empty. `WriteFailed`: the writer failed or took no byte; the sink counts the fault.
    fn write(&mut self, piece: &[u8]) -> Result<usize, WriteFailed>
        ensures count { IfOk result (λ n. n ≤ length piece.now) }
        ensures some { IfOk result (λ n. 0 < length piece.now → 0 < n) }
        ensures bytes { WriteAppends self.old.known self.new.known result piece.now }
        ensures counted { OnErr result (self.new.faults ≡ one_more self.old.faults) }
        ensures faults { OnOk result (self.new.faults ≡ self.old.faults) }
        ensures later { self.old.faults ≤ self.new.faults }
    {
        if piece.is_empty() {
            return Ok(0);
        }
        match self.writer.write(piece) {
            Ok(n) if n > 0 => Ok(n),
            // A retry after a write that took no byte of a nonempty piece could go on forever.
            _ => {
                self.count = self.count.saturating_add(1);
                Err(WriteFailed)
            }
        }
    }

    /// Flushes the writer. `WriteFailed`: the writer failed; the sink counts the fault.
    fn flush(&mut self) -> Result<(), WriteFailed>
        ensures bytes { Keeps self.old.known self.new.known }
        ensures counted { OnErr result (self.new.faults ≡ one_more self.old.faults) }
        ensures faults { OnOk result (self.new.faults ≡ self.old.faults) }
        ensures later { self.old.faults ≤ self.new.faults }
    {
        match self.writer.flush() {
            Ok(()) => Ok(()),
            Err(_) => {
                self.count = self.count.saturating_add(1);
                Err(WriteFailed)
            }
        }
    }
}
