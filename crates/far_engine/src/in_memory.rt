//! A run of the program over slices.

ghost use Rattle.std.specs.Prelude.{◌≡◌, ◌<◌, ◌++◌, ℕ, List, map, string_bytes};
ghost use Rattle.memory_streams.specs.Text.{KeepsSlice, text_of};
ghost use Rattle.far_engine.specs.MemoryRuns.{RunsInMemory, RunsOverSlices, memory_line};
ghost use Rattle.far_engine.specs.MemoryWords.{words_of};

use crate::engine::program;
use crate::memory_words::words_in;
use far_fault::{FarFault, report, status};
use memory_streams::{SliceSink, SliceSource};
use ratio128::Steps;
use std::alloc::Global;
use std::marker::Brand;
use std::sync::ledger::{Blank, Ledger};

/// The result of a run in memory.
#[repr(C)]
#[derive(Clone, Copy, Debug, PartialEq, Eq)]
pub struct Ran {
    /// The exit status of the program: 0 without a fault, else that of the fault.
    pub status: u8,
    /// The length of the whole answer in bytes, or 2^64 - 1 if it is longer.
    pub written: u64,
    /// The length of the fault's line in bytes, or 0 without a fault.
    pub reported: u64,
}

// The program over the streams, with a new counter of steps.
fn run_counted<L: Ledger>(
    alloc: Global,
    blank: Blank,
    words: &Vec<String>,
    source: &mut SliceSource,
    sink: &mut SliceSink,
    errors: &mut SliceSink,
) -> u8
    requires name { blank.name ≡ L.name }
    requires parts { blank.parts ≡ L.parts }
    requires some { 0 < blank.parts }
    ensures { RunsOverSlices (map string_bytes words.now.items) source.old source.new sink.old sink.new errors.old errors.new result }
{
    program(
        alloc,
        words,
        source,
        sink,
        errors,
        &mut Steps::start(blank.open::<L>()),
    )
}

// The program over the streams, which keep their slices.
fn run_streams(
    alloc: Global,
    words: &Vec<String>,
    source: &mut SliceSource,
    sink: &mut SliceSink,
    errors: &mut SliceSink,
) -> u8
    ensures runs { RunsOverSlices (map string_bytes words.now.items) source.old source.new sink.old sink.new errors.old errors.new result }
    ensures kept_out { KeepsSlice sink.old sink.new }
    ensures kept_errors { KeepsSlice errors.old errors.new }
{
    run_counted::<Brand>(alloc, Blank::new(1), words, source, sink, errors)
}

// The program over these words.
fn run_words(
    alloc: Global,
    words: &Vec<String>,
    input: &[u8],
    out: &mut [u8],
    errors: &mut [u8],
) -> Ran
    ensures { RunsInMemory (map string_bytes words.now.items) input.now out.old out.new errors.old errors.new result }
{
    let mut sink = SliceSink::new(out);
    let mut reports = SliceSink::new(errors);
    let status = run_streams(
        alloc,
        words,
        &mut SliceSource::new(input),
        &mut sink,
        &mut reports,
    );
    let written = sink.finish();
    let reported = reports.finish();
    Ran {
        status,
        written,
        reported,
    }
}

// The line of `Memory`, put into a sink that keeps its slice.
fn put_memory_line(errors: &mut SliceSink)
    ensures added { text_of errors.new ≡ text_of errors.old ++ memory_line }
    ensures kept { KeepsSlice errors.old errors.new }
{
    let _ = report(&FarFault::Memory, errors);
}

// The report of `Memory` before any word was read.
fn without_memory(out: &mut [u8], errors: &mut [u8]) -> Ran
    ensures { (words : List (List ℕ)) (input : List ℕ) → RunsInMemory words input out.old out.new errors.old errors.new result }
{
    let _ = out;
    let mut reports = SliceSink::new(errors);
    put_memory_line(&mut reports);
    Ran {
        status: status(&FarFault::Memory),
        written: 0,
        reported: reports.finish(),
    }
}

/// Runs the program over slices. `words` has the words of its command line, and `input` its standard input. `out` is its standard output,
/// and `errors` its standard error.
///
/// `words` has the words after the program's name, each ended by a zero byte. If a word is not UTF-8 or the last one does not end, the
/// status is that of `Usage` with word 0. `out` gets as much of the answer as fits and `errors` as much of the fault's line; the result
/// has the lengths of the whole texts. A longer slice keeps its bytes behind its text.
///
/// `Memory` may come at any time; the call then writes nothing into `out`. `Read` and `Write` never come.
pub fn run_in_memory(
    alloc: Global,
    words: &[u8],
    input: &[u8],
    out: &mut [u8],
    errors: &mut [u8],
) -> Ran
    ensures { RunsInMemory (words_of words.now) input.now out.old out.new errors.old errors.new result }
{
    match words_in(alloc, words) {
        Ok(words) => run_words(alloc, &words, input, out, errors),
        Err(_) => without_memory(out, errors),
    }
}
