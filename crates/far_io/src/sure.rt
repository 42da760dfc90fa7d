ghost use Rattle.std.specs.Prelude.{◌≡◌, ℕ, ◌<◌, ◌≤◌, ◌↔◌, [], ◌++◌, length, take, drop, min, IsErr, IsOk, IfOk, OnOk, OnErr, Some};
ghost use Rattle.far_io.specs.Memory.{one_more, fitting, IsFull, sure_faults};

use crate::store::{FixedBuffer, copy_prefix};
use crate::{ReadFailed, Sink, Source, WriteFailed};
use ratio128::Memory;
use std::alloc::Global;
use std::marker::Model;

/// A source of bytes in memory whose reads never fail.
#[derive(Drop)]
pub struct SureSource {
    bytes: Vec<u8>,
    at: usize,
}

impl Model for SureSource {
    ghost use Rattle.std.specs.Prelude.{◌≤◌, ℕ, List, drop, vec_len};

    ghost Value = { List ℕ };

    ghost view = { λ s. drop s.at s.bytes.items };

    ghost invariant = { λ s. s.at ≤ vec_len s.bytes };
}

impl SureSource {
    /// Returns a source of these bytes.
    pub fn new(bytes: Vec<u8>) -> SureSource
        ensures { result ≡ bytes.items }
    {
        SureSource { bytes, at: 0 }
    }
}

impl Source for SureSource {
    ghost left = { λ s. Some s };

    ghost faults = { λ _. 0 };

    /// Reads as many bytes as are left and fit into the buffer. The rest of the buffer keeps its bytes.
    fn read(&mut self, buf: &mut [u8]) -> Result<usize, ReadFailed>
        ensures fine { IsOk result }
        ensures count { IfOk result (λ n. n ≡ min (length self.old) (length buf.old)) }
        ensures taken { IfOk result (λ n. self.old ≡ take n buf.new ++ self.new) }
        ensures rest { IfOk result (λ n. drop n buf.new ≡ drop n buf.old) }
    {
        let n = copy_prefix(&self.bytes[self.at..], buf);
        self.at += n;
        Ok(n)
    }
}

/// A sink of fixed size in memory. Its writes succeed while it has room for one byte, and its flushes always do.
#[derive(Drop)]
pub struct SureSink {
    buffer: FixedBuffer,
    count: u64,
}

impl Model for SureSink {
    ghost use Rattle.far_io.specs.Memory.{SureOutput};

    ghost Value = { SureOutput };

    ghost view = { λ s. record { store = s.buffer; failures = s.count } };
}

impl SureSink {
    /// Returns an empty sink that holds up to `n` bytes. It takes all its memory here. `Memory`: memory ran out.
    pub fn with_room(alloc: Global, n: usize) -> Result<SureSink, Memory>
        ensures empty { IfOk result (λ s. (s.store.held ≡ []) × (s.store.room ≡ n)) }
        ensures failures { IfOk result (λ s. s.failures ≡ 0) }
    {
        let buffer = FixedBuffer::with_room(alloc, n)?;
        Ok(SureSink { buffer, count: 0 })
    }

    /// The bytes that the sink holds.
    pub fn bytes(&self) -> &[u8]
        ensures { result.now ≡ self.now.store.held }
    {
        self.buffer.bytes()
    }
}

impl Sink for SureSink {
    ghost held = { λ s. Some s.store.held };

    ghost faults = { sure_faults };

    ghost fixed = { λ s. s.store.room };

    /// Adds as much of the piece as fits. `WriteFailed`: the piece is not empty and there is no room; the call adds nothing and counts one
    /// fault.
    fn write(&mut self, piece: &[u8]) -> Result<usize, WriteFailed>
        ensures full { IsErr result ↔ IsFull self.old.store piece.now }
        ensures count { IfOk result (λ n. n ≡ fitting self.old.store piece.now) }
        ensures some { IfOk result (λ n. 0 < length piece.now → 0 < n) }
        ensures added { IfOk result (λ n. self.new.store.held ≡ self.old.store.held ++ take n piece.now) }
        ensures failed { OnErr result (self.new.store.held ≡ self.old.store.held) }
        ensures counted { OnErr result (self.new.failures ≡ one_more self.old.failures) }
        ensures failures { OnOk result (self.new.failures ≡ self.old.failures) }
        ensures later { sure_faults self.old ≤ sure_faults self.new }
        ensures room { self.new.store.room ≡ self.old.store.room }
    {
        let n = self.buffer.add(piece);
        if n == 0 && !piece.is_empty() {
            self.count = self.count.saturating_add(1);
            return Err(WriteFailed);
        }
        Ok(n)
    }

    /// Changes nothing and never fails.
    fn flush(&mut self) -> Result<(), WriteFailed>
        ensures fine { IsOk result }
        ensures same { self.new ≡ self.old }
    {
        Ok(())
    }
}
