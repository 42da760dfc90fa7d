ghost use Rattle.std.specs.Prelude.{◌≡◌, ℕ, ◌+◌, ◌^◌, ◌<◌, ◌≤◌, [], ◌∷◌, ◌++◌, length, take, drop, IfOk, true, false};
ghost use Rattle.std.specs.List.{position};
ghost use Rattle.far_io.specs.Bytes.{Rose, Took, IsDry};
ghost use Rattle.far_io.specs.Lines.{is_lf, HasNoLf, IsClosed};
ghost use Rattle.far_io.specs.Buffer.{BufferedLine, Fills};

use crate::part::{first_lf, read_behind};
use crate::{ReadFailed, Source};
use ratio128::Memory;
use std::alloc::Global;
use std::marker::Model;

// The current line and the bytes read after it, in a buffer of fixed length.
#[derive(Drop)]
pub(crate) struct LineBuffer {
    bytes: Vec<u8>,
    // Where the line begins, and its length.
    start: usize,
    size: usize,
    // Where the pending bytes begin, their count, and how many of them were already searched for LF.
    from: usize,
    count: usize,
    searched: usize,
}

impl Model for LineBuffer {
    ghost use Rattle.std.specs.Prelude.{vec_len};
    ghost use Rattle.far_io.specs.Buffer.{BufferedLine, IsPlaced, buffered};

    ghost Value = { BufferedLine };

    ghost view = { λ b. buffered b.bytes.items (vec_len b.bytes) b.start b.size b.from b.count };

    ghost invariant = { λ b. IsPlaced b.bytes.items b.start b.size b.from b.count b.searched };
}

impl LineBuffer {
    // Returns a buffer of `room` bytes with the bytes of `first` pending.
    pub(crate) fn new(alloc: Global, room: usize, first: &[u8]) -> Result<LineBuffer, Memory>
        requires { length first.now ≤ room }
        ensures line { IfOk result (λ b. b.line ≡ []) }
        ensures pending { IfOk result (λ b. b.pending ≡ first.now) }
        ensures room { IfOk result (λ b. b.room ≡ room) }
    {
        let bytes = padded(alloc, room, first)?;
        Ok(LineBuffer {
            bytes,
            start: 0,
            size: 0,
            from: 0,
            count: first.len(),
            searched: 0,
        })
    }

    pub(crate) fn line(&self) -> &[u8]
        ensures { result.now ≡ self.now.line }
    {
        &self.bytes[self.start..self.start + self.size]
    }

    fn pending(&self) -> &[u8]
        ensures { result.now ≡ self.now.pending }
    {
        &self.bytes[self.from..self.from + self.count]
    }

    // Whether the pending bytes fill the buffer.
    pub(crate) fn is_full(&self) -> bool
        ensures full { result ≡ true → self.now.room ≤ length self.now.pending }
        ensures short { result ≡ false → length self.now.pending < self.now.room }
    {
        self.count >= self.bytes.len()
    }

    // The place of the first pending LF.
    fn next_lf(&self) -> Option<usize>
        ensures { result ≡ position is_lf self.now.pending }
    {
        first_lf(self.pending(), self.searched)
    }

    // Moves to the next line if its LF is pending. Returns whether it was.
    pub(crate) fn close(&mut self) -> bool
        ensures closed { result ≡ true → IsClosed self.old.pending self.new.line self.new.pending }
        ensures line { result ≡ false → self.new.line ≡ [] }
        ensures same { result ≡ false → self.new.pending ≡ self.old.pending }
        ensures plain { result ≡ false → HasNoLf self.new.pending }
        ensures room { self.new.room ≡ self.old.room }
    {
        let Some(at) = self.next_lf() else {
            self.size = 0;
            self.searched = self.count;
            return false;
        };
        self.start = self.from;
        self.size = at;
        self.from += at + 1;
        self.count -= at + 1;
        self.searched = 0;
        true
    }

    // Makes all pending bytes the line. Returns whether the line has any bytes.
    pub(crate) fn finish(&mut self) -> bool
        ensures some { result ≡ true → 0 < length self.new.line }
        ensures none { result ≡ false → self.new.line ≡ [] }
        ensures line { self.new.line ≡ self.old.pending }
        ensures pending { self.new.pending ≡ [] }
        ensures room { self.new.room ≡ self.old.room }
    {
        self.start = self.from;
        self.size = self.count;
        self.from += self.count;
        self.count = 0;
        self.searched = 0;
        self.size > 0
    }

    // Moves the pending bytes to the front if no space follows them.
    fn make_space(&mut self)
        requires { length self.old.pending < self.old.room }
        ensures same { self.new.pending ≡ self.old.pending }
        ensures room { self.new.room ≡ self.old.room }
        ensures space { 0 < self.new.space }
    {
        if self.from + self.count == self.bytes.len() {
            to_front(&mut self.bytes, self.from);
            self.from = 0;
        }
    }

    // Reads once behind the pending bytes, at most `most` bytes. The line becomes empty.
    fn read<S: Source>(&mut self, source: &mut S, most: usize) -> Result<usize, ReadFailed>
        requires space { 0 < self.old.space }
        requires some { 0 < most }
        ensures fills { Fills S.Source self.old self.new source.old source.new most result }
        ensures line { self.new.line ≡ [] }
        ensures room { self.new.room ≡ self.old.room }
        ensures later { S.faults source.old ≤ S.faults source.new }
    {
        self.start = 0;
        self.size = 0;
        let n = read_behind(source, &mut self.bytes, self.from + self.count, most)?;
        self.count += n;
        Ok(n)
    }

    // Reads once behind the pending bytes, at most `most` bytes, after making space. The line becomes empty.
    pub(crate) fn fill<S: Source>(
        &mut self,
        source: &mut S,
        most: usize,
    ) -> Result<usize, ReadFailed>
        requires room { length self.old.pending < self.old.room }
        requires some { 0 < most }
        ensures fills { Fills S.Source self.old self.new source.old source.new most result }
        ensures line { self.new.line ≡ [] }
        ensures room { self.new.room ≡ self.old.room }
        ensures later { S.faults source.old ≤ S.faults source.new }
    {
        self.make_space();
        self.read(source, most)
    }
}

// The bytes of `first`, padded with zeros to `room` bytes.
fn padded(alloc: Global, room: usize, first: &[u8]) -> Result<Vec<u8>, Memory>
    requires { length first.now ≤ room }
    ensures first { IfOk result (λ bytes. take (length first.now) bytes.items ≡ first.now) }
    ensures room { IfOk result (λ bytes. length bytes.items ≡ room) }
{
    let mut bytes = Vec::with_capacity(alloc, room)?;
    bytes.extend_from_slice(first)?;
    bytes.resize(room, 0)?;
    Ok(bytes)
}

// Moves the bytes from `from` on to the front.
fn to_front(bytes: &mut [u8], from: usize)
    requires { from ≤ length bytes.old }
    ensures moved { (count : ℕ) → from + count ≤ length bytes.old → take count bytes.new ≡ take count (drop from bytes.old) }
    ensures room { length bytes.new ≡ length bytes.old }
{
    bytes.copy_within(from.., 0);
}
