// The program and a command, over memory whose calls succeed or fail.

ghost use Rattle.std.specs.Prelude.{◌≡◌, ◌<◌};
ghost use Rattle.far_model.specs.Command.{IsInRange};
ghost use Rattle.far_words.specs.View.{command_of_code};

use crate::expect::expect_same;
use crate::inputs::{CUBE, CUBE_LEVEL, GEN, LEVELS, REFINE, SHEET, TRIANGLES, TRIANGLES_REFINED};
use far_engine::{FarFault, program, run_command};
use far_io::{MemSink, MemSource, SureSink, SureSource};
use far_words::{Command, ReadCommand};
use ratio128::{Memory, Steps};
use std::alloc::{AllocError, Global};
use std::marker::Brand;
use std::process::Abort;
use std::sync::ledger::{Blank, Ledger};
use std::test::Fail;

fn program_counted<L: Ledger>(
    alloc: Global,
    blank: Blank,
    words: &Vec<String>,
    source: &mut MemSource,
    sink: &mut MemSink,
    errors: &mut MemSink,
) -> u8
    requires name { blank.name ≡ L.name }
    requires parts { blank.parts ≡ L.parts }
    requires some { 0 < blank.parts }
{
    program(
        alloc,
        words,
        source,
        sink,
        errors,
        &mut Steps::start(blank.open::<L>()),
    )
}

fn command_counted<L: Ledger>(
    alloc: Global,
    blank: Blank,
    command: &Command,
    source: &mut SureSource,
    sink: &mut SureSink,
) -> Result<(), FarFault>
    requires name { blank.name ≡ L.name }
    requires parts { blank.parts ≡ L.parts }
    requires some { 0 < blank.parts }
    requires range { IsInRange (command_of_code command.now) }
{
    run_command(
        alloc,
        command,
        source,
        sink,
        &mut Steps::start(blank.open::<L>()),
    )
}

// The program and a command, each with a new counter of steps.
fn program_on(
    alloc: Global,
    words: &Vec<String>,
    source: &mut MemSource,
    sink: &mut MemSink,
    errors: &mut MemSink,
) -> u8 {
    program_counted::<Brand>(alloc, Blank::new(1), words, source, sink, errors)
}

fn command_on(
    alloc: Global,
    command: &Command,
    source: &mut SureSource,
    sink: &mut SureSink,
) -> Result<(), FarFault>
    requires { IsInRange (command_of_code command.now) }
{
    command_counted::<Brand>(alloc, Blank::new(1), command, source, sink)
}

pub fn words_of(alloc: Global, text: &str) -> Result<Vec<String>, AllocError> {
    let mut words = Vec::new(alloc);
    for word in text.split_whitespace() {
        words.push(String::from_str(alloc, word)?)?;
    }
    Ok(words)
}

// The call of the source that fails, and the numbers of bytes that its reads give in turn.
pub type Reads = (u32, u32, u32);

// The call of the sink that fails, the number of bytes that a write takes, and the capacity.
pub type Writes = (u32, u32, usize);

// The reads, the writes, and the call of the sink for errors that fails.
pub type Calls = (Reads, Writes, u32);

// The number of no call.
pub const NONE: u32 = u32::MAX;

pub const ALL_READ: Reads = (NONE, 4096, 4096);

pub const ALL_WRITTEN: Writes = (NONE, 4096, 4096);

// The status, the line of the fault, and the text.
pub type Ended<'a> = (u8, &'a str, &'a [u8]);

fn source_of(alloc: Global, input: &str, reads: &Reads) -> Result<MemSource, AllocError>
    requires first { 0 < reads.now.1 }
    requires second { 0 < reads.now.2 }
{
    let &(call, first, second) = reads;
    let (fails, sizes) = (vec![in alloc; call]?, vec![in alloc; first, second]?);
    Ok(MemSource::in_pieces(input.as_bytes().to_vec(alloc)?, fails, sizes))
}

fn sink_of(alloc: Global, writes: &Writes) -> Result<MemSink, Memory>
    requires { 0 < writes.now.1 }
{
    let &(call, size, room) = writes;
    MemSink::in_pieces(alloc, room, vec![in alloc; call]?, vec![in alloc; size]?)
}

fn expect_outcome(
    rt: &(impl Abort + AllocGlobal),
    words: &Vec<String>,
    source: &mut MemSource,
    sink: &mut MemSink,
    calls: &Calls,
    want: &Ended,
) -> Result<(), Fail> {
    let &(_, _, failing) = calls;
    let mut errors = sink_of(rt.alloc(), &(failing, 64, 64))?;
    let status = program_on(rt.alloc(), words, source, sink, &mut errors);
    let &(wanted, line, text) = want;
    let given = (status, errors.bytes(), sink.bytes());
    expect_same(rt, &given, &(wanted, line.as_bytes(), text), calls);
    Ok(())
}

fn expect_written(
    rt: &(impl Abort + AllocGlobal),
    words: &Vec<String>,
    source: &mut MemSource,
    calls: &Calls,
    want: &Ended,
) -> Result<(), Fail> {
    let (_, writes, _) = calls;
    assert!(rt; 0 < writes.1);
    let mut sink = sink_of(rt.alloc(), writes)?;
    expect_outcome(rt, words, source, &mut sink, calls, want)
}

fn expect_read(
    rt: &(impl Abort + AllocGlobal),
    words: &Vec<String>,
    input: &str,
    calls: &Calls,
    want: &Ended,
) -> Result<(), Fail> {
    let (reads, _, _) = calls;
    assert!(rt; 0 < reads.1 && 0 < reads.2);
    let mut source = source_of(rt.alloc(), input, reads)?;
    expect_written(rt, words, &mut source, calls, want)
}

// The program with these words, on this input and with these calls, ends so.
pub fn expect_ended(
    rt: &(impl Abort + AllocGlobal),
    words: &str,
    input: &str,
    calls: &Calls,
    want: &Ended,
) -> Result<(), Fail> {
    let words = words_of(rt.alloc(), words)?;
    expect_read(rt, &words, input, calls, want)
}

// Words; the failing call of the source, of the sink and of the sink for errors (9 for none); the capacity of the sink; the status, the
// line of the fault, and the text.
type FailedCalls = (
    &'static str,
    (u32, u32, u32),
    usize,
    (u8, &'static str, &'static str),
);

const FAILED_CALLS: &[FailedCalls] = &[
    (REFINE, (9, 9, 9), 4096, (0, "", TRIANGLES_REFINED)),
    (REFINE, (0, 9, 9), 4096, (3, "far: reading failed\n", "")),
    (REFINE, (1, 9, 9), 4096, (3, "far: reading failed\n", "")),
    (REFINE, (0, 9, 0), 4096, (3, "", "")),
    (REFINE, (9, 0, 9), 4096, (10, "far: writing failed\n", "")),
    // The flush.
    (
        REFINE,
        (9, 1, 9),
        4096,
        (10, "far: writing failed\n", TRIANGLES_REFINED),
    ),
    (
        REFINE,
        (9, 9, 9),
        8,
        (10, "far: writing failed\n", "v 5 5 0\n"),
    ),
    (
        "refine",
        (0, 0, 9),
        4096,
        (2, "far: word 1 is not understood\n", ""),
    ),
    ("refine", (0, 0, 0), 4096, (2, "", "")),
    (LEVELS, (0, 9, 9), 4096, (3, "far: reading failed\n", "")),
    (LEVELS, (9, 0, 9), 4096, (10, "far: writing failed\n", "")),
    (
        LEVELS,
        (9, 9, 9),
        13,
        (10, "far: writing failed\n", "level 0 point"),
    ),
    // A sheet of `gen` needs no input.
    (GEN, (0, 9, 9), 4096, (0, "", SHEET)),
    (GEN, (0, 0, 9), 4096, (10, "far: writing failed\n", "")),
    (
        GEN,
        (0, 9, 9),
        12,
        (10, "far: writing failed\n", "gen points 4"),
    ),
];

fn failed_calls() -> &'static [FailedCalls] {
    FAILED_CALLS
}

#[test]
fn answers_calls_that_fail(rt: HostRuntime) -> Result<(), Fail> {
    for row in failed_calls() {
        let &(words, (read, write, tell), room, (status, line, text)) = row;
        let calls = ((read, 4096, 4096), (write, 4096, room), tell);
        let want = (status, line, text.as_bytes());
        expect_ended(&rt, words, TRIANGLES, &calls, &want)?;
    }
    Ok(())
}

// A command that does not come from words.
#[test]
fn runs_a_command_without_words(rt: HostRuntime) -> Result<(), Fail> {
    let command = Command::Read(ReadCommand::Levels { depth: 0 });
    assert!(rt; command.is_in_range());
    let mut source = SureSource::new(CUBE.as_bytes().to_vec(rt.alloc())?);
    let mut sink = SureSink::with_room(rt.alloc(), 4096)?;
    let given = command_on(rt.alloc(), &command, &mut source, &mut sink);
    let given = (given, sink.bytes());
    expect_same(&rt, &given, &(Ok(()), CUBE_LEVEL.as_bytes()), &command);
    Ok(())
}
