ghost use Rattle.std.specs.Prelude.{◌≡◌, ℕ, ◌^◌, ◌<◌, ◌≤◌, List, [], length, Option, IfOk, Ok, Some, true, false};
ghost use Rattle.far_io.specs.Bytes.{Took, IsDry};
ghost use Rattle.std.specs.List.{list_any};
ghost use Rattle.far_io.specs.Lines.{is_lf, LineInput, HasNoLf, IsNext, IsCounted, ReadsLine, ReadsOn, ReadsMore};

use crate::buffer::LineBuffer;
use crate::part::has_more;
use crate::{ReadFailed, Source};
use ratio128::Memory;
use std::alloc::Global;
use std::marker::Model;

/// What a [`LineReader`] found next.
#[derive(Clone, Copy, Debug, PartialEq, Eq)]
pub enum NextLine {
    /// A line closed by LF.
    Closed,
    /// The bytes after the last LF, at the end of the input. They are not empty.
    Last,
    /// The end of the input, with no line.
    End,
    /// The pending bytes fill the reader and contain no LF.
    Full,
    /// More bytes came than the reader allows.
    Long,
}

/// A reader of lines of bounded length.
///
/// It takes all its memory in `new`. It reads from the source only if no LF is pending.
#[derive(Drop)]
pub struct LineReader {
    buffer: LineBuffer,
    allowed: usize,
}

impl Model for LineReader {
    ghost use Rattle.std.specs.List.{list_any};
    ghost use Rattle.far_io.specs.Lines.{is_lf, LineInput};

    ghost Value = { LineInput };

    ghost view = { λ r. record { line = r.buffer.line; pending = r.buffer.pending; room = r.buffer.room; allowed = r.allowed } };
}

impl LineReader {
    /// Returns a reader that holds one line of up to `room` bytes, LF included, and takes up to `allowed` bytes from its source.
    ///
    /// The bytes of `first` were read earlier: they are pending, and do not count as taken. `Memory`: memory ran out.
    pub fn new(
        alloc: Global,
        room: usize,
        first: &[u8],
        allowed: usize,
    ) -> Result<LineReader, Memory>
        requires { length first.now ≤ room }
        ensures line { IfOk result (λ r. r.line ≡ []) }
        ensures pending { IfOk result (λ r. r.pending ≡ first.now) }
        ensures room { IfOk result (λ r. r.room ≡ room) }
        ensures allowed { IfOk result (λ r. r.allowed ≡ allowed) }
    {
        let buffer = LineBuffer::new(alloc, room, first)?;
        Ok(LineReader { buffer, allowed })
    }

    /// The current line, without its LF. It is empty before the first `next` and after `End`, `Full`, `Long` or an error.
    pub fn line(&self) -> &[u8]
        ensures { result.now ≡ self.now.line }
    {
        self.buffer.line()
    }

    /// Moves to the next line. The call takes no memory.
    ///
    /// If the LF of that line is pending, the call does not read. `Full`, `Long` and `ReadFailed` keep every pending byte; after
    /// `ReadFailed` a later call goes on from there. `Long` reads one byte more than `allowed` and drops it. `ReadFailed`: a read of the
    /// source failed.
    pub fn next<S: Source>(&mut self, source: &mut S) -> Result<NextLine, ReadFailed>
        ensures reads { ReadsLine S.Source self.old self.new source.old source.new result }
        ensures still { list_any is_lf self.old.pending ≡ true → source.new ≡ source.old }
    {
        if self.buffer.close() {
            return Ok(NextLine::Closed);
        }
        self.read_line(source)
    }

    // Reads up to the end of the line.
    fn read_line<S: Source>(&mut self, source: &mut S) -> Result<NextLine, ReadFailed>
        requires plain { HasNoLf self.old.pending }
        requires line { self.old.line ≡ [] }
        ensures { ReadsLine S.Source self.old self.new source.old source.new result }
    {
        loop {
            if let Some(found) = self.read_more(source)? {
                return Ok(found);
            }
        }
    }

    // Reads once if the buffer has space and bytes are allowed.
    fn read_more<S: Source>(&mut self, source: &mut S) -> Result<Option<NextLine>, ReadFailed>
        requires plain { HasNoLf self.old.pending }
        requires line { self.old.line ≡ [] }
        ensures { ReadsMore S.Source self.old self.new source.old source.new result }
    {
        if self.buffer.is_full() {
            return Ok(Some(NextLine::Full));
        }
        if self.allowed == 0 {
            return self.past_bound(source);
        }
        self.read_some(source)
    }

    // Reads once behind the pending bytes.
    fn read_some<S: Source>(&mut self, source: &mut S) -> Result<Option<NextLine>, ReadFailed>
        requires plain { HasNoLf self.old.pending }
        requires room { length self.old.pending < self.old.room }
        requires some { 0 < self.old.allowed }
        ensures { ReadsMore S.Source self.old self.new source.old source.new result }
    {
        let n = self.buffer.fill(source, self.allowed)?;
        self.allowed -= n;
        if n == 0 {
            return Ok(Some(self.ended()));
        }
        if self.buffer.close() {
            return Ok(Some(NextLine::Closed));
        }
        Ok(None)
    }

    // Tries to read one byte more than is allowed.
    fn past_bound<S: Source>(&mut self, source: &mut S) -> Result<Option<NextLine>, ReadFailed>
        requires plain { HasNoLf self.old.pending }
        requires line { self.old.line ≡ [] }
        requires room { length self.old.pending < self.old.room }
        requires none { self.old.allowed ≡ 0 }
        ensures { ReadsMore S.Source self.old self.new source.old source.new result }
    {
        if has_more(source)? {
            return Ok(Some(NextLine::Long));
        }
        Ok(Some(self.ended()))
    }

    // The result of a read at the end of the input.
    fn ended(&mut self) -> NextLine
        requires { HasNoLf self.old.pending }
        ensures next { (left : Option (List ℕ)) → IsDry left → IsNext self.old self.new [] left (Ok result) }
        ensures counted { IsCounted self.old.allowed self.new.allowed [] (Ok result) }
        ensures room { self.new.room ≡ self.old.room }
    {
        if self.buffer.finish() {
            NextLine::Last
        } else {
            NextLine::End
        }
    }
}
