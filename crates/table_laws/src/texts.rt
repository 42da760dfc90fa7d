//! Laws of the texts of stored tables: each is read back as its table, and no other text is read.

ghost use Rattle.std.specs.Prelude.{◌≡◌, ◌≢◌, ℕ, List, [], ◌++◌, Ok, Err};
ghost use Rattle.subdiv_model.specs.Table.{Table};
ghost use Rattle.subdiv_model.specs.TableFault.{TableFault};
ghost use Rattle.subdiv_model.specs.ReadTable.{Reading, read_table};
ghost use Rattle.subdiv_model.specs.TableText.{text_of_table};
ghost use Rattle.table_laws.specs.StoredTable.{IsStored};

/// The text of a stored table is read as the table, and the bytes after it are left, whatever they are.
pub fn written_tables_are_read()
    ensures { (table : Table) (rest : List ℕ) → IsStored table → read_table (text_of_table table ++ rest) ≡ Ok (record { table = table; rest = rest }) }
{}

/// Bytes that are read as a table begin with the text of a stored table, and the bytes after it are left.
pub fn read_tables_were_written()
    ensures text { (bytes : List ℕ) (reading : Reading) → read_table bytes ≡ Ok reading → bytes ≡ text_of_table reading.table ++ reading.rest }
    ensures stored { (bytes : List ℕ) (reading : Reading) → read_table bytes ≡ Ok reading → IsStored reading.table }
{}

/// The text of a stored table does not begin with the text of another stored table.
pub fn table_texts_are_no_prefixes()
    ensures table { (a b : Table) (rest : List ℕ) → IsStored a → IsStored b → text_of_table a ≡ text_of_table b ++ rest → a ≡ b }
    ensures rest { (a b : Table) (rest : List ℕ) → IsStored a → IsStored b → text_of_table a ≡ text_of_table b ++ rest → rest ≡ [] }
{}

/// Bytes that are refused do not begin with the text of a stored table.
pub fn refused_texts_begin_with_no_table()
    ensures { (bytes : List ℕ) (fault : TableFault) → read_table bytes ≡ Err fault
        → (table : Table) (rest : List ℕ) → IsStored table → bytes ≢ text_of_table table ++ rest }
{}
