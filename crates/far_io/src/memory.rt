ghost use Rattle.std.specs.Prelude.{◌≡◌, ℕ, ◌<◌, ◌≤◌, ◌↔◌, ◌⊎◌, [], ◌++◌, length, take, drop, min, Contains, IsErr, IfOk, OnOk, OnErr, Some};
ghost use Rattle.std.specs.List.{All};
ghost use Rattle.far_io.specs.Memory.{one_more, piece_of, fitting, IsFull};

use crate::plan::Plan;
use crate::{ReadFailed, Sink, Source, SureSink, SureSource, WriteFailed};
use ratio128::Memory;
use std::alloc::Global;
use std::marker::Model;

/// A source of bytes in memory. Planned calls fail, and the others may return the bytes in pieces. It serves tests of failing and short
/// reads.
#[derive(Drop)]
pub struct MemSource {
    source: SureSource,
    plan: Plan,
    count: u64,
}

impl Model for MemSource {
    ghost use Rattle.far_io.specs.Memory.{MemInput};

    ghost Value = { MemInput };

    ghost view = { λ s. record { left = s.source; fails = s.plan.fails; sizes = s.plan.sizes; calls = s.plan.calls; faults = s.count } };
}

impl MemSource {
    /// Returns a source of these bytes. Exactly the calls whose numbers, counted from 0, are in `fails` fail.
    pub fn new(bytes: Vec<u8>, fails: Vec<u32>) -> MemSource
        ensures left { result.left ≡ bytes.items }
        ensures plan { (result.fails ≡ fails.items) × (result.calls ≡ 0) }
        ensures whole { result.sizes ≡ [] }
        ensures faults { result.faults ≡ 0 }
    {
        MemSource {
            source: SureSource::new(bytes),
            plan: Plan::new(fails),
            count: 0,
        }
    }

    /// Returns a source of these bytes that reads them in pieces. Exactly the calls whose numbers, counted from 0, are in `fails` fail.
    ///
    /// Call k, counted from 0, reads at most `sizes[k mod sizes.len()]` bytes. `sizes` is not empty, and each size is at least 1.
    pub fn in_pieces(bytes: Vec<u8>, fails: Vec<u32>, sizes: Vec<u32>) -> MemSource
        requires some { 0 < length sizes.items }
        requires positive { All (λ size. 0 < size) sizes.items }
        ensures left { result.left ≡ bytes.items }
        ensures plan { (result.fails ≡ fails.items) × (result.calls ≡ 0) }
        ensures pieces { result.sizes ≡ sizes.items }
        ensures faults { result.faults ≡ 0 }
    {
        MemSource {
            source: SureSource::new(bytes),
            plan: Plan::in_pieces(fails, sizes),
            count: 0,
        }
    }
}

impl Source for MemSource {
    ghost left = { λ s. Some s.left };

    ghost faults = { λ s. s.faults };

    /// Reads as many bytes as are left, fit into the buffer, and fit the size of this call. A planned failure counts one fault, takes no
    /// byte and leaves the buffer unchanged.
    fn read(&mut self, buf: &mut [u8]) -> Result<usize, ReadFailed>
        ensures planned { IsErr result ↔ Contains self.old.fails self.old.calls }
        ensures count { IfOk result (λ n. n ≡ piece_of self.old.sizes self.old.calls (min (length self.old.left) (length buf.old))) }
        ensures some { IfOk result (λ n. 0 < length self.old.left → 0 < length buf.old → 0 < n) }
        ensures taken { IfOk result (λ n. self.old.left ≡ take n buf.new ++ self.new.left) }
        ensures rest { IfOk result (λ n. drop n buf.new ≡ drop n buf.old) }
        ensures failed { OnErr result (self.new.left ≡ self.old.left) }
        ensures buffer { OnErr result (buf.new ≡ buf.old) }
        ensures counted { OnErr result (self.new.faults ≡ one_more self.old.faults) }
        ensures faults { OnOk result (self.new.faults ≡ self.old.faults) }
        ensures later { self.old.faults ≤ self.new.faults }
        ensures plan { (self.new.fails ≡ self.old.fails) × (self.new.calls ≡ one_more self.old.calls) }
        ensures pieces { self.new.sizes ≡ self.old.sizes }
    {
        let Some(size) = self.plan.begin(buf.len()) else {
            self.count = self.count.saturating_add(1);
            return Err(ReadFailed);
        };
        self.source.read(&mut buf[..size])
    }
}

/// A sink of fixed size in memory. Planned calls fail, and the others may take a written piece in parts. It serves tests of failing and
/// short writes.
#[derive(Drop)]
pub struct MemSink {
    sink: SureSink,
    plan: Plan,
    count: u64,
}

impl Model for MemSink {
    ghost use Rattle.far_io.specs.Memory.{MemOutput};

    ghost Value = { MemOutput };

    ghost view = { λ s. record { store = s.sink.store; fails = s.plan.fails; sizes = s.plan.sizes; calls = s.plan.calls; faults = s.count } };
}

impl MemSink {
    /// Returns a sink that holds up to `n` bytes. It takes all its memory here.
    ///
    /// The calls whose numbers are in `fails` fail, counted from 0 over writes and flushes. Every other call acts as a call of `SureSink`.
    /// `Memory`: memory ran out.
    pub fn with_room(alloc: Global, n: usize, fails: Vec<u32>) -> Result<MemSink, Memory>
        ensures empty { IfOk result (λ s. (s.store.held ≡ []) × (s.store.room ≡ n)) }
        ensures plan { IfOk result (λ s. (s.fails ≡ fails.items) × (s.calls ≡ 0)) }
        ensures whole { IfOk result (λ s. s.sizes ≡ []) }
        ensures faults { IfOk result (λ s. s.faults ≡ 0) }
    {
        let sink = SureSink::with_room(alloc, n)?;
        Ok(MemSink {
            sink,
            plan: Plan::new(fails),
            count: 0,
        })
    }

    /// Returns a sink that holds up to `n` bytes and takes each written piece in parts. It takes all its memory here.
    ///
    /// The calls whose numbers are in `fails` fail, counted from 0 over writes and flushes. Call k takes at most `sizes[k mod sizes.len()]`
    /// bytes. `sizes` is not empty, and each size is at least 1. `Memory`: memory ran out.
    pub fn in_pieces(
        alloc: Global,
        n: usize,
        fails: Vec<u32>,
        sizes: Vec<u32>,
    ) -> Result<MemSink, Memory>
        requires some { 0 < length sizes.items }
        requires positive { All (λ size. 0 < size) sizes.items }
        ensures empty { IfOk result (λ s. (s.store.held ≡ []) × (s.store.room ≡ n)) }
        ensures plan { IfOk result (λ s. (s.fails ≡ fails.items) × (s.calls ≡ 0)) }
        ensures pieces { IfOk result (λ s. s.sizes ≡ sizes.items) }
        ensures faults { IfOk result (λ s. s.faults ≡ 0) }
    {
        let sink = SureSink::with_room(alloc, n)?;
        Ok(MemSink {
            sink,
            plan: Plan::in_pieces(fails, sizes),
            count: 0,
        })
    }

    /// The bytes that the sink holds.
    pub fn bytes(&self) -> &[u8]
        ensures { result.now ≡ self.now.store.held }
    {
        self.sink.bytes()
    }
}

impl Sink for MemSink {
    ghost held = { λ s. Some s.store.held };

    ghost faults = { λ s. s.faults };

    ghost fixed = { λ s. s.store.room };

    /// Adds as many bytes of the piece as fit into the room and into the size of this call.
    ///
    /// `WriteFailed`: the plan names this call, or the piece is not empty and there is no room. A failed call adds nothing and counts one
    /// fault.
    fn write(&mut self, piece: &[u8]) -> Result<usize, WriteFailed>
        ensures fails { IsErr result ↔ (Contains self.old.fails self.old.calls ⊎ IsFull self.old.store piece.now) }
        ensures count { IfOk result (λ n. n ≡ piece_of self.old.sizes self.old.calls (fitting self.old.store piece.now)) }
        ensures some { IfOk result (λ n. 0 < length piece.now → 0 < n) }
        ensures added { IfOk result (λ n. self.new.store.held ≡ self.old.store.held ++ take n piece.now) }
        ensures failed { OnErr result (self.new.store.held ≡ self.old.store.held) }
        ensures counted { OnErr result (self.new.faults ≡ one_more self.old.faults) }
        ensures faults { OnOk result (self.new.faults ≡ self.old.faults) }
        ensures later { self.old.faults ≤ self.new.faults }
        ensures room { self.new.store.room ≡ self.old.store.room }
        ensures plan { (self.new.fails ≡ self.old.fails) × (self.new.calls ≡ one_more self.old.calls) }
        ensures pieces { self.new.sizes ≡ self.old.sizes }
    {
        let Some(size) = self.plan.begin(piece.len()) else {
            self.count = self.count.saturating_add(1);
            return Err(WriteFailed);
        };
        match self.sink.write(&piece[..size]) {
            Ok(n) => Ok(n),
            Err(WriteFailed) => {
                self.count = self.count.saturating_add(1);
                Err(WriteFailed)
            }
        }
    }

    /// Leaves the held bytes unchanged. `WriteFailed`: the plan names this call.
    fn flush(&mut self) -> Result<(), WriteFailed>
        ensures planned { IsErr result ↔ Contains self.old.fails self.old.calls }
        ensures same { self.new.store ≡ self.old.store }
        ensures counted { OnErr result (self.new.faults ≡ one_more self.old.faults) }
        ensures faults { OnOk result (self.new.faults ≡ self.old.faults) }
        ensures later { self.old.faults ≤ self.new.faults }
        ensures plan { (self.new.fails ≡ self.old.fails) × (self.new.calls ≡ one_more self.old.calls) }
        ensures pieces { self.new.sizes ≡ self.old.sizes }
    {
        if self.plan.begin(0).is_none() {
            self.count = self.count.saturating_add(1);
            return Err(WriteFailed);
        }
        Ok(())
    }
}
