// Readers of lines, over sources that give their bytes in pieces.

ghost use Rattle.std.specs.Prelude.{◌<◌};

use crate::expect::expect_same;
use far_io::{InputFault, LineReader, MemSource, NextLine, NextText, ReadFailed, TextReader};
use std::alloc::{AllocError, Global};
use std::process::Abort;
use std::test::Fail;

// A source that gives this number of bytes a call, and one of whose calls fails.
fn pieces_of(alloc: Global, text: &str, size: u32, call: u32) -> Result<MemSource, AllocError>
    requires { 0 < size }
{
    let (fails, sizes) = (vec![in alloc; call]?, vec![in alloc; size]?);
    Ok(MemSource::in_pieces(text.as_bytes().to_vec(alloc)?, fails, sizes))
}

// The bytes that are pending first, the text, and the number of bytes that may come; the number of bytes a call gives, and the failing
// call.
type Input = (&'static str, &'static str, usize, u32, u32);

// The answer of a call, and the line.
type Line = (Result<NextLine, ReadFailed>, &'static str);

// An input, the capacity of a reader, and its calls.
type Lines = (Input, usize, &'static [Line]);

const LINES: &[Lines] = &[
    (
        ("", "a\nbc\n\nd", 99, 1, 99),
        4,
        &[
            (Ok(NextLine::Closed), "a"),
            (Ok(NextLine::Closed), "bc"),
            (Ok(NextLine::Closed), ""),
            (Ok(NextLine::Last), "d"),
            (Ok(NextLine::End), ""),
        ],
    ),
    (
        ("", "a\nbc\n\nd", 99, 7, 99),
        4,
        &[
            (Ok(NextLine::Closed), "a"),
            (Ok(NextLine::Closed), "bc"),
            (Ok(NextLine::Closed), ""),
            (Ok(NextLine::Last), "d"),
            (Ok(NextLine::End), ""),
        ],
    ),
    (
        ("", "a\nbc\n\n", 99, 7, 99),
        4,
        &[
            (Ok(NextLine::Closed), "a"),
            (Ok(NextLine::Closed), "bc"),
            (Ok(NextLine::Closed), ""),
            (Ok(NextLine::End), ""),
        ],
    ),
    (
        ("x\ny", "z\n", 99, 1, 99),
        4,
        &[
            (Ok(NextLine::Closed), "x"),
            (Ok(NextLine::Closed), "yz"),
            (Ok(NextLine::End), ""),
        ],
    ),
    // A line of one byte less than the capacity, with its line feed, and as many bytes as the capacity without one.
    (
        ("", "abc\nabc\n", 99, 1, 99),
        4,
        &[
            (Ok(NextLine::Closed), "abc"),
            (Ok(NextLine::Closed), "abc"),
            (Ok(NextLine::End), ""),
        ],
    ),
    (
        ("", "abc\nabc\n", 99, 7, 99),
        4,
        &[
            (Ok(NextLine::Closed), "abc"),
            (Ok(NextLine::Closed), "abc"),
            (Ok(NextLine::End), ""),
        ],
    ),
    (
        ("", "abc\nabcd", 99, 1, 99),
        4,
        &[(Ok(NextLine::Closed), "abc"), (Ok(NextLine::Full), "")],
    ),
    (
        ("", "abc\nabcd", 99, 7, 99),
        4,
        &[(Ok(NextLine::Closed), "abc"), (Ok(NextLine::Full), "")],
    ),
    // As many bytes as are allowed, and one more.
    (
        ("", "a\nbc", 4, 1, 99),
        9,
        &[
            (Ok(NextLine::Closed), "a"),
            (Ok(NextLine::Last), "bc"),
            (Ok(NextLine::End), ""),
        ],
    ),
    (
        ("", "a\nbc", 4, 7, 99),
        9,
        &[
            (Ok(NextLine::Closed), "a"),
            (Ok(NextLine::Last), "bc"),
            (Ok(NextLine::End), ""),
        ],
    ),
    (
        ("", "a\nbc", 3, 1, 99),
        9,
        &[(Ok(NextLine::Closed), "a"), (Ok(NextLine::Long), "")],
    ),
    (
        ("", "a\nbc", 3, 7, 99),
        9,
        &[(Ok(NextLine::Closed), "a"), (Ok(NextLine::Long), "")],
    ),
    (
        ("q", "a\n", 2, 7, 99),
        9,
        &[(Ok(NextLine::Closed), "qa"), (Ok(NextLine::End), "")],
    ),
    (("", "", 0, 1, 99), 9, &[(Ok(NextLine::End), "")]),
    (("", "a", 0, 1, 99), 9, &[(Ok(NextLine::Long), "")]),
    // A line that is already here is answered before the call that fails.
    (("", "a\nb\nc", 99, 7, 0), 9, &[(Err(ReadFailed), "")]),
    (
        ("", "a\nb\nc", 99, 7, 1),
        9,
        &[
            (Ok(NextLine::Closed), "a"),
            (Ok(NextLine::Closed), "b"),
            (Err(ReadFailed), ""),
        ],
    ),
    (
        ("", "a\nb\nc", 99, 1, 3),
        9,
        &[(Ok(NextLine::Closed), "a"), (Err(ReadFailed), "")],
    ),
    (
        ("", "a\nb\nc", 99, 1, 4),
        9,
        &[
            (Ok(NextLine::Closed), "a"),
            (Ok(NextLine::Closed), "b"),
            (Err(ReadFailed), ""),
        ],
    ),
];

fn lines() -> &'static [Lines] {
    LINES
}

fn expect_lines(rt: &impl Abort, reader: &mut LineReader, source: &mut MemSource, row: &Lines) {
    let &(_, _, wanted) = row;
    for &(answer, line) in wanted {
        let given = reader.next(source);
        expect_same(rt, &(given, reader.line()), &(answer, line.as_bytes()), row);
    }
}

fn expect_reader(rt: &(impl Abort + AllocGlobal), row: &Lines) -> Result<(), Fail> {
    let &((first, text, allowed, size, call), room, _) = row;
    assert!(rt; 0 < size && first.len() <= room);
    let mut source = pieces_of(rt.alloc(), text, size, call)?;
    let mut reader = LineReader::new(rt.alloc(), room, first.as_bytes(), allowed)?;
    expect_lines(rt, &mut reader, &mut source, row);
    Ok(())
}

#[test]
fn reads_lines_of_a_bounded_length(rt: HostRuntime) -> Result<(), Fail> {
    for row in lines() {
        expect_reader(&rt, row)?;
    }
    Ok(())
}

// The answer of a call, and the line.
type TextLine = (Result<NextText, InputFault>, &'static str);

// The passed and the pending bytes, and the number of bytes that may still come.
type Kept = (&'static str, &'static str, usize);

// An input, and the calls of a reader with what it keeps then.
type Texts = (Input, &'static [TextLine], Kept);

const TEXTS: &[Texts] = &[
    (
        ("", "a\nbcdefgh\n\ni", 99, 1, 99),
        &[
            (Ok(NextText::Closed), "a"),
            (Ok(NextText::Closed), "bcdefgh"),
            (Ok(NextText::Closed), ""),
            (Ok(NextText::Last), "i"),
            (Ok(NextText::End), ""),
        ],
        ("a\nbcdefgh\n\ni", "", 87),
    ),
    (
        ("", "a\nbcdefgh\n\ni", 99, 7, 99),
        &[
            (Ok(NextText::Closed), "a"),
            (Ok(NextText::Closed), "bcdefgh"),
            (Ok(NextText::Closed), ""),
            (Ok(NextText::Last), "i"),
            (Ok(NextText::End), ""),
        ],
        ("a\nbcdefgh\n\ni", "", 87),
    ),
    (
        ("", "a\nbc", 4, 7, 99),
        &[
            (Ok(NextText::Closed), "a"),
            (Ok(NextText::Last), "bc"),
            (Ok(NextText::End), ""),
        ],
        ("a\nbc", "", 0),
    ),
    (
        ("", "a\nbc", 3, 1, 99),
        &[(Ok(NextText::Closed), "a"), (Err(InputFault::Long), "")],
        ("a\n", "b", 0),
    ),
    (
        ("", "a\nbc", 3, 7, 99),
        &[(Ok(NextText::Closed), "a"), (Err(InputFault::Long), "")],
        ("a\n", "b", 0),
    ),
    (("", "", 0, 1, 99), &[(Ok(NextText::End), "")], ("", "", 0)),
    (
        ("", "a\nb\nc", 99, 7, 1),
        &[
            (Ok(NextText::Closed), "a"),
            (Ok(NextText::Closed), "b"),
            (Err(InputFault::Read), ""),
        ],
        ("a\nb\n", "c", 94),
    ),
    (
        ("", "a\nb\nc", 99, 1, 3),
        &[(Ok(NextText::Closed), "a"), (Err(InputFault::Read), "")],
        ("a\n", "b", 96),
    ),
];

fn texts() -> &'static [Texts] {
    TEXTS
}

fn expect_text(rt: &impl Abort, reader: &mut TextReader, source: &mut MemSource, row: &Texts) {
    let &(_, wanted, (passed, pending, left)) = row;
    for &(answer, line) in wanted {
        let given = reader.next(source);
        expect_same(rt, &(given, reader.line()), &(answer, line.as_bytes()), row);
    }
    let passed = passed.as_bytes();
    let given = (
        reader.before(),
        reader.passed(),
        reader.pending(),
        reader.allowed(),
    );
    expect_same(rt, &given, &(passed, passed, pending.as_bytes(), left), row);
}

fn expect_text_reader(rt: &(impl Abort + AllocGlobal), row: &Texts) -> Result<(), Fail> {
    let &((_, text, allowed, size, call), ..) = row;
    assert!(rt; 0 < size);
    let mut source = pieces_of(rt.alloc(), text, size, call)?;
    let mut reader = TextReader::new(rt.alloc(), allowed);
    expect_text(rt, &mut reader, &mut source, row);
    Ok(())
}

#[test]
fn reads_a_text_and_keeps_it(rt: HostRuntime) -> Result<(), Fail> {
    for row in texts() {
        expect_text_reader(&rt, row)?;
    }
    Ok(())
}
