//! The frame lines of a source: the lines behind the line `frames`.

ghost use Rattle.std.specs.Prelude.{◌≡◌, ◌^◌, ◌+◌, ◌-◌, ◌<◌, ◌≤◌, length, Ok, IfOk, IfErr, true};
ghost use Rattle.far_io.specs.declared.text.NextText.TheVariants.{Closed};
ghost use Rattle.far_fault.specs.View.{fault_of, outcome_of};
ghost use Rattle.stream_laws.specs.Laws.{long_line};
ghost use Rattle.far_fault.specs.declared.fault.FarFault.TheVariants.{Memory};
ghost use Rattle.far_engine.specs.FrameLines.{AnswersFrame, CanCount, GoesOn, IsStreaming, Moves, Origin, RunsFrames, bytes_left, next_of, next_of_code};

use far_fault::FarFault;
use far_io::{LineReader, NextLine, NextText, ReadFailed, Sink, Source, TextReader};
use obj_tags::ObjCause;
use ratio128::Steps;
use std::alloc::Global;
use std::sync::ledger::Ledger;
use table_answers::PosedMesh;

// The greatest number of bytes of a frame line, with its line feed.
const LINE_LIMIT: usize = 65_536;

/// A reader of frame lines, and the number of lines of the input that it has passed.
#[derive(Drop)]
pub(crate) struct FrameLines {
    pub(crate) reader: LineReader,
    pub(crate) passed: u32,
}

// The end of a line, or the fault of the reader. A line that does not fit into the reader is too long.
fn line_found(found: Result<NextLine, ReadFailed>, number: u32) -> Result<NextText, FarFault>
    ensures { next_of_code result ≡ next_of number found }
{
    match found {
        Ok(NextLine::Closed) => Ok(NextText::Closed),
        Ok(NextLine::Last) => Ok(NextText::Last),
        Ok(NextLine::End) => Ok(NextText::End),
        Ok(NextLine::Full) => Err(too_long(number)),
        Ok(NextLine::Long) => Err(FarFault::Long),
        Err(ReadFailed) => Err(FarFault::Read),
    }
}

// The fault of a line that is too long.
fn too_long(number: u32) -> FarFault
    ensures { fault_of result ≡ long_line number }
{
    FarFault::Obj {
        line: number,
        cause: ObjCause::LongLine,
    }
}

impl FrameLines {
    /// The lines behind the present line of a reader of a text. `number` is the number of that line, counted from 1.
    pub(crate) fn after(
        alloc: Global,
        text: &TextReader,
        number: u32,
    ) -> Result<FrameLines, FarFault>
        requires { length text.now.pending ≤ 4096 }
        ensures passed { IfOk result (λ lines. lines.passed ≡ number) }
        ensures pending { IfOk result (λ lines. lines.reader.pending ≡ text.now.pending) }
        ensures room { IfOk result (λ lines. lines.reader.room ≡ 65536) }
        ensures allowed { IfOk result (λ lines. lines.reader.allowed ≡ text.now.allowed) }
        ensures fault { IfErr result (λ fault. fault ≡ Memory) }
    {
        let reader = LineReader::new(alloc, LINE_LIMIT, text.pending(), text.allowed())?;
        Ok(FrameLines {
            reader,
            passed: number,
        })
    }

    // Moves on to the next line. The error is `Obj` for a line that is too long, `Long` for too many bytes, or `Read`.
    fn next<S: Source>(&mut self, source: &mut S) -> Result<NextText, FarFault>
        requires { CanCount self.old }
        ensures moved { Moves S.Source source.old source.new self.old self.new result }
        ensures passed { self.new.passed ≡ self.old.passed }
        ensures shorter { result ≡ Ok Closed → bytes_left self.new < bytes_left self.old }
    {
        let found = self.reader.next(source);
        line_found(found, self.passed + 1)
    }

    // Answers the present line.
    fn answer<K: Sink, L: Ledger>(
        &mut self,
        posed: &mut PosedMesh,
        sink: &mut K,
        steps: &mut Steps<L>,
    ) -> Result<(), FarFault>
        requires { self.old.passed ≤ 2 ^ 28 }
        ensures answers { AnswersFrame K.Sink (self.old.passed + 1) self.old.reader.line posed.old posed.new sink.old sink.new result (steps.new - steps.old) }
        ensures passed { self.new.passed ≡ self.old.passed + 1 }
        ensures reader { self.new.reader ≡ self.old.reader }
        ensures later { steps.old ≤ steps.new }
    {
        self.passed += 1;
        posed.answer_line(self.passed, self.reader.line(), sink, steps)
    }

    // Answers the next line, and returns whether another one may follow.
    fn answer_next<S: Source, K: Sink, L: Ledger>(
        &mut self,
        posed: &mut PosedMesh,
        source: &mut S,
        sink: &mut K,
        steps: &mut Steps<L>,
    ) -> Result<bool, FarFault>
        requires { CanCount self.old }
        ensures went { (from : Origin S.Source K.Sink) → IsStreaming from source.old sink.old self.old posed.old steps.old
            → GoesOn from source.new sink.new self.new posed.new steps.new result }
        ensures counted { result ≡ Ok true → CanCount self.new }
        ensures shorter { result ≡ Ok true → bytes_left self.new < bytes_left self.old }
    {
        match self.next(source)? {
            NextText::Closed => {
                self.answer(posed, sink, steps)?;
                Ok(true)
            }
            NextText::Last => {
                self.answer(posed, sink, steps)?;
                Ok(false)
            }
            NextText::End => Ok(false),
        }
    }

    /// Answers one line after another, up to the end of the input. It takes no memory, and flushes each answer before it calls the source
    /// again.
    pub(crate) fn answer_all<S: Source, K: Sink, L: Ledger>(
        &mut self,
        posed: &mut PosedMesh,
        source: &mut S,
        sink: &mut K,
        steps: &mut Steps<L>,
    ) -> Result<(), FarFault>
        requires { CanCount self.old }
        ensures { (from : Origin S.Source K.Sink) → IsStreaming from source.old sink.old self.old posed.old steps.old
            → RunsFrames from source.new sink.new (outcome_of result) steps.new }
    {
        loop {
            let more = self.answer_next(posed, source, sink, steps)?;
            if !more {
                return Ok(());
            }
        }
    }
}
