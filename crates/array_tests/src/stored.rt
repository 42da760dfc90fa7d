//! Stored tables: read, written from rows in arrays, and compared with a mesh.

use crate::cages::{ONE, cube};
use array_answers::{BAD_ARRAYS, FaultRecord};
use flat_arrays::Wide;
use std::alloc::Global;
use table_arrays::{
    ExactPlaces, ExactRows, check_stored, put_exact_table, read_stored, table_of_rows, write_stored,
};

const ZERO: Wide = Wide { low: 0, high: 0 };

const TWO: Wide = Wide { low: 2, high: 0 };

const THREE: Wide = Wide { low: 3, high: 0 };

// 2^64 - 1.
const GREAT: Wide = Wide {
    low: u64::MAX,
    high: 0,
};

// Rows over four control points: of three entries, of two, and of two over a denominator of 65 bits.
const ROWS: &str = "table controls 4 rows 3 entries 7\ns 8 0 6 1 1 3 1\ns 3 1 1 2 2\n\
    s 18446744073709551616 0 1 1 18446744073709551615\n";

// Writes the table of a text into arrays. Returns whether it did, and how long the text of the table is.
fn read_into(
    alloc: Global,
    text: &[u8],
    places: &mut ExactPlaces,
) -> Result<(bool, usize), FaultRecord> {
    let read = read_stored(alloc, text)?;
    Ok((put_exact_table(read.table(), places), read.end()))
}

// Writes the text of the table of rows, and returns its length in bytes.
fn write_rows(alloc: Global, rows: &ExactRows, out: &mut [u8]) -> Result<u64, FaultRecord> {
    let table = table_of_rows(alloc, rows)?;
    Ok(write_stored(&table, out))
}

#[test]
fn a_text_comes_back_from_the_arrays_of_its_table(rt: HostRuntime) {
    let mut starts = [9u32; 4];
    let mut indices = [9u32; 7];
    let mut numerators = [ZERO; 7];
    let mut denominators = [ZERO; 3];
    let mut places = ExactPlaces {
        starts: &mut starts,
        indices: &mut indices,
        numerators: &mut numerators,
        denominators: &mut denominators,
    };
    let text = ROWS.as_bytes();
    let read = read_into(rt.alloc(), text, &mut places);
    assert_eq!(rt; read, Ok((true, text.len())));
    assert_eq!(rt; starts, [0, 3, 5, 7]);
    assert_eq!(rt; indices, [0, 1, 3, 1, 2, 0, 1]);
    assert_eq!(rt; (numerators[4], numerators[6]), (TWO, GREAT));
    assert_eq!(rt;
        (denominators[1], denominators[2]),
        (THREE, Wide { low: 0, high: 1 })
    );
    let rows = ExactRows {
        controls: 4,
        starts: &starts,
        indices: &indices,
        numerators: &numerators,
        denominators: &denominators,
    };
    let mut again = [b'.'; 113];
    let len = write_rows(rt.alloc(), &rows, &mut again);
    assert_eq!(rt; len, Ok(text.len() as u64));
    assert_eq!(rt; again.strip_prefix(text), Some(b".".as_slice()));
}

const TWO_INDICES: &[u32] = &[0, 1];

const TWO_NUMERATORS: &[Wide] = &[ONE, TWO];

// Rows over two control points, with these starts and denominators.
fn two_entries<'a>(starts: &'a [u32], denominators: &'a [Wide]) -> ExactRows<'a> {
    ExactRows {
        controls: 2,
        starts,
        indices: TWO_INDICES,
        numerators: TWO_NUMERATORS,
        denominators,
    }
}

// The starts and the denominators of refused rows, and the numbers of their record.
type RefusedRows = (&'static [u32], &'static [Wide], (u64, u64));

const ROWS_REFUSED: &[RefusedRows] = &[
    // There is no start.
    (&[], &[], (0, 1)),
    // A row has no end.
    (&[0], &[THREE], (0, 1)),
    // Numerators do not sum to their denominator.
    (&[0, 2], &[TWO], (0, 0)),
    (&[0, 1, 2], &[ONE, ONE], (1, 0)),
    // A row has no entries.
    (&[0, 2, 2], &[THREE, ONE], (1, 0)),
    // Entries end before they begin, or outside the arrays.
    (&[2, 1], &[ONE], (0, 0)),
    (&[0, 1, 3], &[ONE, TWO], (1, 0)),
];

fn rows_refused() -> &'static [RefusedRows] {
    ROWS_REFUSED
}

#[test]
fn the_first_bad_row_comes_as_a_record(rt: HostRuntime) {
    for row in rows_refused() {
        let &(starts, denominators, (first, second)) = row;
        let written = write_rows(rt.alloc(), &two_entries(starts, denominators), &mut []);
        let bad = FaultRecord {
            status: BAD_ARRAYS,
            kind: 17,
            first,
            second,
        };
        assert_eq!(rt; written, Err(bad));
    }
}

// The table of the cube at depth 0, each row of which is a control point.
const IDENTITY: &str =
    "table controls 8 rows 8 entries 8\ns 1 0 1\ns 1 1 1\ns 1 2 1\ns 1 3 1\ns 1 4 1\ns 1 5 1\ns 1 6 1\ns 1 7 1\n";

#[test]
fn the_text_of_a_cube_is_its_own(rt: HostRuntime) {
    assert_eq!(rt;
        check_stored(rt.alloc(), cube(), 0, IDENTITY.as_bytes()),
        Ok(8)
    );
}
