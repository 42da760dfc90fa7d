ghost use Rattle.std.specs.Prelude.{◌≡◌, ℕ, ◌<◌, ◌≤◌, List, [], ◌∷◌, ◌++◌, length, take, Option, Some, OnOk, OnErr, IfOk, Ok, Err, true, false};
ghost use Rattle.std.specs.List.{list_any, position};
ghost use Rattle.far_io.specs.declared.source.InputFault.TheVariants.{Read, Memory};
ghost use Rattle.far_io.specs.declared.text.NextText.{NextText};
ghost use Rattle.far_io.specs.Bytes.{Rose, Took, TookOne, IsDry};
ghost use Rattle.far_io.specs.Lines.{is_lf, HasNoLf, IsClosed};
ghost use Rattle.far_io.specs.Text.{TextInput, passed, IsBetweenLines, IsNextText, IsCountedText, ReadsText, ReadsMoreText, IsKept};

use crate::part::{first_lf, has_more, read_within};
use crate::{InputFault, ReadFailed, Source};
use std::alloc::Global;
use std::marker::Model;

/// What a [`TextReader`] found next.
#[derive(Clone, Copy, Debug, PartialEq, Eq)]
pub enum NextText {
    /// A line closed by LF.
    Closed,
    /// The bytes after the last LF, at the end of the input. They are not empty.
    Last,
    /// The end of the input, with no line.
    End,
}

/// A reader of lines of any length that keeps all bytes it took.
///
/// It reads from the source only if no LF is pending.
#[derive(Drop)]
pub struct TextReader {
    text: Vec<u8>,
    // Where the line begins, and its length.
    start: usize,
    size: usize,
    // Where the pending bytes begin, and how many of them were already searched for LF.
    from: usize,
    searched: usize,
    allowed: usize,
}

impl Model for TextReader {
    ghost use Rattle.far_io.specs.Text.{TextInput, IsTextPlaced, text_input};

    ghost Value = { TextInput };

    ghost view = { λ r. text_input r.text.items r.start r.size r.from r.allowed };

    ghost invariant = { λ r. IsTextPlaced r.text.items r.start r.size r.from r.searched };
}

impl TextReader {
    /// Returns a reader that takes up to `allowed` bytes from its source. It takes no memory yet.
    pub fn new(alloc: Global, allowed: usize) -> TextReader
        ensures before { result.before ≡ [] }
        ensures line { result.line ≡ [] }
        ensures end { result.end ≡ [] }
        ensures pending { result.pending ≡ [] }
        ensures allowed { result.allowed ≡ allowed }
    {
        TextReader {
            text: Vec::new(alloc),
            start: 0,
            size: 0,
            from: 0,
            searched: 0,
            allowed,
        }
    }

    /// All bytes before the current line.
    pub fn before(&self) -> &[u8]
        ensures { result.now ≡ self.now.before }
    {
        &self.text[..self.start]
    }

    /// The current line, without its LF. It is empty before the first `next` and after `End` or an error.
    pub fn line(&self) -> &[u8]
        ensures { result.now ≡ self.now.line }
    {
        &self.text[self.start..self.start + self.size]
    }

    /// All bytes up to the end of the current line, with its LF if it has one.
    pub fn passed(&self) -> &[u8]
        ensures { result.now ≡ passed self.now }
    {
        &self.text[..self.from]
    }

    /// The bytes read but not yet passed: those after the current line and its LF.
    pub fn pending(&self) -> &[u8]
        ensures { result.now ≡ self.now.pending }
    {
        &self.text[self.from..]
    }

    /// How many bytes the reader may still take from its source.
    pub fn allowed(&self) -> usize
        ensures { result ≡ self.now.allowed }
    {
        self.allowed
    }

    /// Moves to the next line.
    ///
    /// If the LF of that line is pending, the call does not read. One read of the source takes at most 4,096 bytes and never more than
    /// `allowed`; if none is allowed, it takes one.
    ///
    /// - `Read`: a read of the source failed. It loses no byte, so a later call goes on from there.
    /// - `Long`: a byte came after the last allowed one. That byte is lost.
    /// - `Memory`: memory ran out. The bytes of the last read are lost.
    pub fn next<S: Source>(&mut self, source: &mut S) -> Result<NextText, InputFault>
        ensures reads { ReadsText S.Source self.old self.new source.old source.new result }
        ensures still { list_any is_lf self.old.pending ≡ true → source.new ≡ source.old }
        ensures few { length self.old.pending ≤ 4096 → OnOk result (length self.new.pending ≤ 4096) }
    {
        if self.close() {
            return Ok(NextText::Closed);
        }
        self.read_line(source)
    }

    // Reads up to the end of the line.
    fn read_line<S: Source>(&mut self, source: &mut S) -> Result<NextText, InputFault>
        requires plain { HasNoLf self.old.pending }
        requires between_lines { IsBetweenLines self.old }
        ensures reads { ReadsText S.Source self.old self.new source.old source.new result }
        ensures few { OnOk result (length self.new.pending ≤ 4096) }
    {
        let mut piece = [0u8; 4096];
        loop {
            if let Some(found) = self.read_more(source, &mut piece)? {
                return Ok(found);
            }
        }
    }

    // Reads once, at most as many bytes as the piece holds.
    fn read_more<S: Source>(
        &mut self,
        source: &mut S,
        piece: &mut [u8],
    ) -> Result<Option<NextText>, InputFault>
        requires some { 0 < length piece.old }
        requires few { length piece.old ≤ 4096 }
        requires plain { HasNoLf self.old.pending }
        requires between_lines { IsBetweenLines self.old }
        ensures reads { ReadsMoreText S.Source self.old self.new source.old source.new result }
        ensures few { (found : NextText) → result ≡ Ok (Some found) → length self.new.pending ≤ 4096 }
    {
        if self.allowed == 0 {
            return self.past_bound(source);
        }
        self.read_some(source, piece)
    }

    // Reads once; at least one byte is allowed.
    fn read_some<S: Source>(
        &mut self,
        source: &mut S,
        piece: &mut [u8],
    ) -> Result<Option<NextText>, InputFault>
        requires allowed { 0 < self.old.allowed }
        requires some { 0 < length piece.old }
        requires few { length piece.old ≤ 4096 }
        requires plain { HasNoLf self.old.pending }
        requires between_lines { IsBetweenLines self.old }
        ensures reads { ReadsMoreText S.Source self.old self.new source.old source.new result }
        ensures few { (found : NextText) → result ≡ Ok (Some found) → length self.new.pending ≤ 4096 }
    {
        let n = read_input(source, piece, self.allowed)?;
        self.allowed -= n;
        if n == 0 {
            return Ok(Some(self.ended()));
        }
        self.keep(&piece[..n])
    }

    // Tries to read one byte more than is allowed.
    fn past_bound<S: Source>(&mut self, source: &mut S) -> Result<Option<NextText>, InputFault>
        requires none { self.old.allowed ≡ 0 }
        requires plain { HasNoLf self.old.pending }
        requires between_lines { IsBetweenLines self.old }
        ensures reads { ReadsMoreText S.Source self.old self.new source.old source.new result }
        ensures few { (found : NextText) → result ≡ Ok (Some found) → length self.new.pending ≤ 4096 }
    {
        if has_more_input(source)? {
            return Err(InputFault::Long);
        }
        Ok(Some(self.ended()))
    }

    // Keeps a piece, and moves to the next line if its LF is now pending.
    fn keep(&mut self, piece: &[u8]) -> Result<Option<NextText>, InputFault>
        requires plain { HasNoLf self.old.pending }
        requires between_lines { IsBetweenLines self.old }
        ensures kept { IsKept self.old.pending self.new piece.now result }
        ensures before { self.new.before ≡ passed self.old }
        ensures allowed { self.new.allowed ≡ self.old.allowed }
    {
        self.add(piece)?;
        if self.close() {
            return Ok(Some(NextText::Closed));
        }
        Ok(None)
    }

    // Adds a piece behind the pending bytes.
    fn add(&mut self, piece: &[u8]) -> Result<(), InputFault>
        ensures kept { OnOk result (self.new.pending ≡ self.old.pending ++ piece.now) }
        ensures failed { OnErr result (self.new.pending ≡ self.old.pending) }
        ensures fault { OnErr result (result ≡ Err Memory) }
        ensures before { self.new.before ≡ self.old.before }
        ensures line { self.new.line ≡ self.old.line }
        ensures end { self.new.end ≡ self.old.end }
        ensures allowed { self.new.allowed ≡ self.old.allowed }
    {
        self.text.extend_from_slice(piece)?;
        Ok(())
    }

    // Moves to the next line if its LF is pending, and behind the current line otherwise. Returns whether it was.
    fn close(&mut self) -> bool
        ensures closed { result ≡ true → IsClosed self.old.pending self.new.line self.new.pending }
        ensures end { result ≡ true → self.new.end ≡ 10 ∷ [] }
        ensures same { result ≡ false → self.new.pending ≡ self.old.pending }
        ensures plain { result ≡ false → HasNoLf self.new.pending }
        ensures between_lines { result ≡ false → IsBetweenLines self.new }
        ensures before { self.new.before ≡ passed self.old }
        ensures allowed { self.new.allowed ≡ self.old.allowed }
    {
        let Some(at) = self.next_lf() else {
            self.searched = self.text.len() - self.from;
            self.start = self.from;
            self.size = 0;
            return false;
        };
        self.start = self.from;
        self.size = at;
        self.from += at + 1;
        self.searched = 0;
        true
    }

    // The place of the first pending LF.
    fn next_lf(&self) -> Option<usize>
        ensures { result ≡ position is_lf self.now.pending }
    {
        first_lf(self.pending(), self.searched)
    }

    // The result of a read at the end of the input.
    fn ended(&mut self) -> NextText
        requires { HasNoLf self.old.pending }
        ensures next { (left : Option (List ℕ)) → IsDry left → IsNextText self.old.pending self.new [] left (Ok result) }
        ensures pending { self.new.pending ≡ [] }
        ensures before { self.new.before ≡ passed self.old }
        ensures allowed { self.new.allowed ≡ self.old.allowed }
    {
        self.start = self.from;
        self.size = self.text.len() - self.from;
        self.from = self.text.len();
        self.searched = 0;
        if self.size > 0 {
            NextText::Last
        } else {
            NextText::End
        }
    }
}

// Reads once, at most `most` bytes, to the start of the piece.
fn read_input<S: Source>(source: &mut S, piece: &mut [u8], most: usize) -> Result<usize, InputFault>
    requires room { 0 < length piece.old }
    requires some { 0 < most }
    ensures count { IfOk result (λ n. n ≤ length piece.old) }
    ensures few { IfOk result (λ n. n ≤ most) }
    ensures taken { IfOk result (λ n. Took (S.left source.old) (S.left source.new) (take n piece.new)) }
    ensures end { IfOk result (λ n. n ≡ 0 → IsDry (S.left source.new)) }
    ensures failed { OnErr result (S.left source.new ≡ S.left source.old) }
    ensures fault { OnErr result (result ≡ Err Read) }
    ensures cause { OnErr result (Rose (S.faults source.old) (S.faults source.new)) }
    ensures later { S.faults source.old ≤ S.faults source.new }
{
    match read_within(source, piece, most) {
        Ok(n) => Ok(n),
        Err(ReadFailed) => Err(InputFault::Read),
    }
}

// Reads one byte and drops it. Returns whether there was one.
fn has_more_input<S: Source>(source: &mut S) -> Result<bool, InputFault>
    ensures came { IfOk result (λ more. more ≡ true → TookOne (S.left source.old) (S.left source.new)) }
    ensures same { IfOk result (λ more. more ≡ false → Took (S.left source.old) (S.left source.new) []) }
    ensures end { IfOk result (λ more. more ≡ false → IsDry (S.left source.new)) }
    ensures failed { OnErr result (S.left source.new ≡ S.left source.old) }
    ensures fault { OnErr result (result ≡ Err Read) }
    ensures cause { OnErr result (Rose (S.faults source.old) (S.faults source.new)) }
    ensures later { S.faults source.old ≤ S.faults source.new }
{
    match has_more(source) {
        Ok(more) => Ok(more),
        Err(ReadFailed) => Err(InputFault::Read),
    }
}
