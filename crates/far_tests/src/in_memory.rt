//! Whole runs over slices: the status, the texts and their lengths.

use far_engine::{Ran, run_in_memory};

const TRIANGLE: &str = "v 0 0 0\nv 12 0 0\nv 0 12 0\nf 1 2 3\n";

// The words and the input; the result of the run; the contents of a slice of 10 bytes and of one of 30.
type Run = (
    &'static [u8],
    &'static str,
    (u8, u64, u64),
    &'static str,
    &'static str,
);

const RUNS: &[Run] = &[
    (
        b"refine\0depth=0\0",
        TRIANGLE,
        (0, 34, 0),
        "v 0 0 0\nv ",
        "..............................",
    ),
    (
        b"apply\0\0",
        "",
        (2, 0, 30),
        "..........",
        "far: word 1 is not understood\n",
    ),
    (
        b"refine\0depth=0",
        TRIANGLE,
        (2, 0, 30),
        "..........",
        "far: word 0 is not understood\n",
    ),
    (
        b"refine\0depth=\xff\0",
        TRIANGLE,
        (2, 0, 30),
        "..........",
        "far: word 0 is not understood\n",
    ),
];

fn runs() -> &'static [Run] {
    RUNS
}

#[test]
fn slices_get_the_answer_and_the_fault(rt: HostRuntime) {
    for row in runs() {
        let &(words, input, (status, written, reported), answer, fault) = row;
        let mut out = *b"..........";
        let mut errors = *b"..............................";
        let ran = run_in_memory(rt.alloc(), words, input.as_bytes(), &mut out, &mut errors);
        assert_eq!(rt;
            ran,
            Ran {
                status,
                written,
                reported
            }
        );
        assert_eq!(rt; out.as_slice(), answer.as_bytes());
        assert_eq!(rt; errors.as_slice(), fault.as_bytes());
    }
}
