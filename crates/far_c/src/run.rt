//! Runs of the program.

ghost use Rattle.far_engine.specs.MemoryRuns.{RunsInMemory};
ghost use Rattle.far_engine.specs.MemoryWords.{words_of};

use far_engine::{Ran, run_in_memory};
use std::alloc::Global;

/// Runs the program over slices. `words` has the words of its command line, each ended by a zero byte; `input` is its standard input.
/// `out` gets as much of the answer as fits, `errors` as much of the fault's line. Both keep their bytes behind the text.
#[unsafe(no_mangle)]
pub extern "C" fn far_run(
    alloc: Global,
    words: &[u8],
    input: &[u8],
    out: &mut [u8],
    errors: &mut [u8],
) -> Ran
    ensures { RunsInMemory (words_of words.now) input.now out.old out.new errors.old errors.new result }
{
    run_in_memory(alloc, words, input, out, errors)
}
