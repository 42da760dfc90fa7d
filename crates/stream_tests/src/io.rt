// Sources and sinks in memory.

use crate::expect::expect_same;
use crate::failing::failing_source;
use far_io::{InputFault, MemSink, ReadFailed, Sink, WriteFailed, read_all, write_all_of};
use ratio128::Memory;
use std::process::Abort;
use std::test::Fail;

// A bound, the failing call (9 for none), and what is read of four bytes.
type Reading = (usize, u32, Result<&'static [u8], InputFault>);

const READINGS: &[Reading] = &[
    (4, 9, Ok(b"abcd")),
    (3, 9, Err(InputFault::Long)),
    (4, 0, Err(InputFault::Read)),
    (4, 1, Err(InputFault::Read)),
];

fn readings() -> &'static [Reading] {
    READINGS
}

fn expect_reading(rt: &(impl Abort + AllocGlobal), row: &Reading) -> Result<(), Fail> {
    let &(bound, call, want) = row;
    assert!(rt; bound < 10);
    let mut source = failing_source(rt.alloc(), "abcd", call)?;
    match read_all(rt.alloc(), &mut source, bound) {
        Ok(bytes) => expect_same(rt, &Ok(bytes.as_slice()), &want, row),
        Err(fault) => expect_same(rt, &Err(fault), &want, row),
    }
    Ok(())
}

#[test]
fn reads_an_input_or_refuses_it(rt: HostRuntime) -> Result<(), Fail> {
    for row in readings() {
        expect_reading(&rt, row)?;
    }
    Ok(())
}

// The text, the answer, and the contents of the sink afterwards.
type Writing = (&'static str, Result<(), WriteFailed>, &'static str);

const WRITINGS: &[Writing] = &[
    ("ab", Ok(()), "ab"),
    ("cd", Err(WriteFailed), "ab"),
    ("efghij", Err(WriteFailed), "abefgh"),
    ("", Ok(()), "abefgh"),
];

fn writings() -> &'static [Writing] {
    WRITINGS
}

#[test]
fn keeps_the_prefix_that_was_written(rt: HostRuntime) -> Result<(), Fail> {
    let alloc = rt.alloc();
    let mut sink = MemSink::with_room(alloc, 6, vec![in alloc; 1]?)?;
    for row in writings() {
        let &(text, answer, held) = row;
        let given = write_all_of(&mut sink, text.as_bytes());
        expect_same(&rt, &(given, sink.bytes()), &(answer, held.as_bytes()), row);
    }
    expect_same(&rt, &sink.flush(), &Ok(()), &"the flush");
    Ok(())
}

#[test]
fn names_faults_of_calls(rt: HostRuntime) -> Result<(), Fail> {
    let text = format!(in rt.alloc();
        "{ReadFailed}, {WriteFailed}, {}, {Memory}",
        InputFault::Long
    )?;
    let want = "reading failed, writing failed, input is too long, out of memory";
    expect_same(&rt, &text.as_str(), &want, &"faults");
    Ok(())
}
