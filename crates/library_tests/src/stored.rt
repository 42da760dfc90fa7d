// Texts of stored tables, each with its table or its bad line.

use crate::expect::expect_same;
use table_file::TableCause::{Count, Form, Range, Sum};
use table_file::{ReadTable, TableReadFault, read_table};

// The control points, rows and entries of a table, its greatest denominator, and the length of its text in bytes.
type Read = (u32, u32, u64, u128, usize);

// A text with its table, or with its fault.
type Text = (&'static str, Result<Read, TableReadFault>);

// The bad line and the cause.
macro_rules! refused {
    ($line:literal, $cause:ident) => {
        Err(TableReadFault::Table { line: $line, cause: $cause })
    };
}

const TEXTS: &[Text] = &[
    ("table controls 0 rows 0 entries 0\n", Ok((0, 0, 0, 1, 34))),
    (
        "table controls 2 rows 1 entries 2\ns 4 0 3 1 1\n",
        Ok((2, 1, 2, 4, 46)),
    ),
    (
        "table controls 2 rows 1 entries 2\ns 4 0 3 1 1\nv 0 0 0\n",
        Ok((2, 1, 2, 4, 46)),
    ),
    (
        "table controls 1048576 rows 2 entries 2\ns 1 1048575 1\ns 7 0 7\n",
        Ok((1048576, 2, 2, 7, 62)),
    ),
    (
        "table controls 1 rows 1 entries 1\ns 85070591730234615865843651857942052863 0 85070591730234615865843651857942052863\n",
        Ok((1, 1, 1, 85070591730234615865843651857942052863, 116)),
    ),
    (
        "table controls 2 rows 2 entries 3\ns 18446744073709551615 1 18446744073709551615\ns 18446744073709551616 0 1 1 18446744073709551615\n",
        Ok((2, 2, 3, 18446744073709551616, 130)),
    ),
    // Texts that are refused.
    ("", refused!(1, Form)),
    ("table controls 2 rows 1 entries 2", refused!(1, Form)),
    (" table controls 2 rows 1 entries 2\n", refused!(1, Form)),
    ("table controls 2 rows 1 entries 2 \n", refused!(1, Form)),
    ("table controls 2  rows 1 entries 2\n", refused!(1, Form)),
    ("table controls 02 rows 1 entries 2\n", refused!(1, Form)),
    ("table controls +2 rows 1 entries 2\n", refused!(1, Form)),
    ("table controls 2 rows 1 entries 2\r\n", refused!(1, Form)),
    ("table rows 1 controls 2 entries 2\n", refused!(1, Form)),
    (
        "table controls 1048577 rows 0 entries 0\n",
        refused!(1, Range),
    ),
    (
        "table controls 0 rows 134217729 entries 0\n",
        refused!(1, Range),
    ),
    (
        "table controls 0 rows 0 entries 134217729\n",
        refused!(1, Range),
    ),
    ("table controls 0 rows 0 entries 1\n", refused!(1, Count)),
    (
        "table controls 1 rows 134217728 entries 0\n",
        refused!(2, Form),
    ),
    (
        "table controls 2 rows 1 entries 2\ns 4 0 3 1 1",
        refused!(2, Form),
    ),
    (
        "table controls 2 rows 1 entries 2\ns 4 0 3 1\n",
        refused!(2, Form),
    ),
    (
        "table controls 2 rows 1 entries 2\nS 4 0 3 1 1\n",
        refused!(2, Form),
    ),
    ("table controls 2 rows 1 entries 2\ns\n", refused!(2, Form)),
    (
        "table controls 2 rows 1 entries 2\ns 0 5 0 5 00\n",
        refused!(2, Form),
    ),
    (
        "table controls 2 rows 1 entries 2\ns 0 0 0\n",
        refused!(2, Range),
    ),
    (
        "table controls 2 rows 1 entries 2\ns 4 0 4 1 0\n",
        refused!(2, Range),
    ),
    (
        "table controls 2 rows 1 entries 2\ns 4 1 1 0 3\n",
        refused!(2, Range),
    ),
    (
        "table controls 2 rows 1 entries 2\ns 4 1 1 1 3\n",
        refused!(2, Range),
    ),
    (
        "table controls 2 rows 1 entries 2\ns 4 0 3 2 1\n",
        refused!(2, Range),
    ),
    (
        "table controls 2 rows 1 entries 2\ns 85070591730234615865843651857942052864 0 1\n",
        refused!(2, Range),
    ),
    (
        "table controls 1 rows 1 entries 1\ns 1 0 340282366920938463463374607431768211457\n",
        refused!(2, Range),
    ),
    (
        "table controls 2 rows 1 entries 2\ns 5 0 3 1 1\n",
        refused!(2, Sum),
    ),
    ("table controls 2 rows 1 entries 0\ns 1\n", refused!(2, Sum)),
    (
        "table controls 2 rows 2 entries 1\ns 4 0 3 1 1\n",
        refused!(2, Count),
    ),
    (
        "table controls 2 rows 1 entries 3\ns 4 0 3 1 1\n",
        refused!(2, Count),
    ),
    (
        "table controls 2 rows 2 entries 3\ns 4 0 3 1 1\ns 1 0 2\n",
        refused!(3, Sum),
    ),
];

fn texts() -> &'static [Text] {
    TEXTS
}

// The table of a text.
fn seen(read: &ReadTable) -> Read {
    let table = read.table();
    (
        table.controls(),
        table.rows(),
        table.entries(),
        table.greatest(),
        read.end(),
    )
}

#[test]
fn reads_tables_or_refuses_them(rt: HostRuntime) {
    for row in texts() {
        let &(text, want) = row;
        assert!(rt; text.len() <= 1 << 28);
        let given = match read_table(rt.alloc(), text.as_bytes()) {
            Ok(read) => Ok(seen(&read)),
            Err(fault) => Err(fault),
        };
        expect_same(&rt, &given, &want, row);
    }
}
