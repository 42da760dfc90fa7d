// Runs of `frames` whose reads and writes fail: each answer before the failed call stays written.

use crate::engine::{ALL_READ, ALL_WRITTEN, NONE, expect_ended};
use crate::hostile::{FAILED_READ, FAILED_WRITE};
use crate::inputs::{MOVES, MOVES_ANSWERS};
use std::test::Fail;

const WORDS: &str = "frames depth=1";

// The number of bytes up to the end of each line `go`, and the length of its answer.
type Go = (usize, usize);

const GOES: &[Go] = &[(65, 74), (76, 8), (105, 84)];

fn goes() -> &'static [Go] {
    GOES
}

// The number of bytes that are answered when this number of bytes has been read.
fn answered_within(bytes: usize) -> usize {
    let mut answered: usize = 0;
    for &(end, length) in goes() {
        if end <= bytes {
            answered = answered.saturating_add(length);
        }
    }
    answered
}

// If this read of 7 bytes fails, the sink has the answers of the lines before.
#[test]
fn keeps_answers_before_a_failed_read(rt: HostRuntime) -> Result<(), Fail> {
    for call in 0..18 {
        let held = answered_within(call as usize * 7);
        let held = MOVES_ANSWERS.as_bytes().get(..held).ok_or("the answers")?;
        let calls = ((call, 7, 7), ALL_WRITTEN, NONE);
        expect_ended(&rt, WORDS, MOVES, &calls, &(3, FAILED_READ, held))?;
    }
    let calls = ((18, 7, 7), ALL_WRITTEN, NONE);
    let want = (
        5,
        "far: line 13: move finer than the scale\n",
        MOVES_ANSWERS.as_bytes(),
    );
    expect_ended(&rt, WORDS, MOVES, &calls, &want)
}

// The number of bytes in the sink if this call of it fails. Each answer is written in pieces of 16 bytes, then flushed.
fn held_at(call: usize) -> usize {
    let mut held: usize = 0;
    let mut left = call;
    for &(_, length) in goes() {
        held = held.saturating_add(length.min(left.saturating_mul(16)));
        left = left.saturating_sub(length.div_ceil(16)).saturating_sub(1);
    }
    held
}

// If this call of the sink fails, the sink has the pieces before it.
#[test]
fn fails_at_each_write_of_an_answer(rt: HostRuntime) -> Result<(), Fail> {
    for call in 0..15 {
        let held = held_at(call as usize);
        let held = MOVES_ANSWERS.as_bytes().get(..held).ok_or("the pieces")?;
        let calls = (ALL_READ, (call, 16, 4096), NONE);
        expect_ended(&rt, WORDS, MOVES, &calls, &(10, FAILED_WRITE, held))?;
    }
    let calls = (ALL_READ, (15, 16, 4096), NONE);
    let want = (
        5,
        "far: line 13: move finer than the scale\n",
        MOVES_ANSWERS.as_bytes(),
    );
    expect_ended(&rt, WORDS, MOVES, &calls, &want)
}
