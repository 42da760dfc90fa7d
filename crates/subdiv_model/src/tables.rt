//! Examples of stored tables that are read, and of tables that are refused, each proved by computing.

ghost use Rattle.std.specs.Prelude.{◌≡◌, [], ◌++◌, codes};
ghost use Rattle.subdiv_model.specs.ExampleTables.{small_table, small_text, refused_at, read_as};
ghost use Rattle.subdiv_model.specs.Fault.{Controls, Differs, Table, fault_line, fault_status};
ghost use Rattle.subdiv_model.specs.ReadTable.{read_table};
ghost use Rattle.subdiv_model.specs.TableFault.{Form, Range, Sum, Count};
ghost use Rattle.subdiv_model.specs.TableText.{text_of_table};

/// A table of one row over two control points, and a table without rows. The bytes after the text are left.
pub fn tables_that_are_read()
    ensures text { text_of_table small_table ≡ small_text }
    ensures small { read_table small_text ≡ read_as small_table [] }
    ensures more { read_table (small_text ++ codes "v 0 0 0\n") ≡ read_as small_table (codes "v 0 0 0\n") }
    ensures none { read_table (codes "table controls 0 rows 0 entries 0\n") ≡ read_as (record { controls = 0; rows = [] }) [] }
{}

/// Lines of another form: a cut first line, a number with a leading zero, two spaces, a missing row, and a row without LF. A
/// control point lacks its numerator, and a row with a denominator of 0 ends with a letter.
pub fn tables_of_another_form()
    ensures empty { read_table [] ≡ refused_at 1 Form }
    ensures cut { read_table (codes "table controls 2 rows 1 entries 2") ≡ refused_at 1 Form }
    ensures zeros { read_table (codes "table controls 02 rows 1 entries 2\n") ≡ refused_at 1 Form }
    ensures spaces { read_table (codes "table controls  2 rows 1 entries 2\n") ≡ refused_at 1 Form }
    ensures missing { read_table (codes "table controls 2 rows 2 entries 3\ns 4 0 3 1 1\n") ≡ refused_at 3 Form }
    ensures open { read_table (codes "table controls 2 rows 1 entries 2\ns 4 0 3 1 1") ≡ refused_at 2 Form }
    ensures unpaired { read_table (codes "table controls 2 rows 1 entries 2\ns 4 0 3 1\n") ≡ refused_at 2 Form }
    ensures letter { read_table (codes "table controls 2 rows 1 entries 2\ns 0 0 3 1 x\n") ≡ refused_at 2 Form }
{}

/// Numbers out of range: too many control points, a numerator of 0, and control points that do not ascend or do not exist.
pub fn numbers_out_of_range()
    ensures controls { read_table (codes "table controls 1048577 rows 1 entries 2\n") ≡ refused_at 1 Range }
    ensures numerator { read_table (codes "table controls 2 rows 1 entries 2\ns 4 0 4 1 0\n") ≡ refused_at 2 Range }
    ensures denominator { read_table (codes "table controls 1 rows 1 entries 1\ns 85070591730234615865843651857942052864 0 1\n") ≡ refused_at 2 Range }
    ensures descending { read_table (codes "table controls 2 rows 1 entries 2\ns 4 1 1 0 3\n") ≡ refused_at 2 Range }
    ensures twice { read_table (codes "table controls 2 rows 1 entries 2\ns 4 1 1 1 3\n") ≡ refused_at 2 Range }
    ensures past { read_table (codes "table controls 2 rows 1 entries 2\ns 4 0 3 2 1\n") ≡ refused_at 2 Range }
{}

/// Rows that do not sum to their denominator, and more or fewer entries than the first line says.
pub fn sums_and_counts()
    ensures sum { read_table (codes "table controls 2 rows 1 entries 2\ns 5 0 3 1 1\n") ≡ refused_at 2 Sum }
    ensures empty_row { read_table (codes "table controls 2 rows 1 entries 0\ns 1\n") ≡ refused_at 2 Sum }
    ensures more { read_table (codes "table controls 2 rows 2 entries 1\ns 4 0 3 1 1\n") ≡ refused_at 2 Count }
    ensures fewer { read_table (codes "table controls 2 rows 1 entries 3\ns 4 0 3 1 1\n") ≡ refused_at 2 Count }
    ensures no_rows { read_table (codes "table controls 2 rows 0 entries 1\n") ≡ refused_at 1 Count }
{}

/// The messages for refused tables, and their status.
pub fn lines_of_refused_tables()
    ensures form { fault_line (Table (record { line = 3; cause = Form })) ≡ codes "far: line 3: table form\n" }
    ensures range { fault_line (Table (record { line = 2; cause = Range })) ≡ codes "far: line 2: table number out of range\n" }
    ensures sum { fault_line (Table (record { line = 2; cause = Sum })) ≡ codes "far: line 2: table row does not sum\n" }
    ensures count { fault_line (Table (record { line = 1; cause = Count })) ≡ codes "far: line 1: table entry count\n" }
    ensures differs { fault_line (Differs 0) ≡ codes "far: row 0 differs\n" }
    ensures controls { fault_line (Controls 1) ≡ codes "far: 1 control points given\n" }
    ensures table_status { fault_status (Table (record { line = 2; cause = Sum })) ≡ 14 }
    ensures differs_status { fault_status (Differs 0) ≡ 15 }
    ensures controls_status { fault_status (Controls 1) ≡ 16 }
{}
