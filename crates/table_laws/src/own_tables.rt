//! The law that the table of a mesh, if it is not refused, is a stored table.

ghost use Rattle.std.specs.Prelude.{◌≡◌, ℕ, List, None};
ghost use Rattle.subdiv_model.specs.ReadObj.{mesh_of_lines};
ghost use Rattle.far_model.specs.Answer.{composition_refusal, own_table};
ghost use Rattle.table_laws.specs.StoredTable.{IsStored};

/// If neither the lines of a mesh nor its table at a depth are refused, the table is a stored table. Its rows are means, and each
/// number is within its limit.
pub fn composed_tables_are_stored()
    ensures { (depth scale : ℕ) (lines : List (List (List ℕ))) → composition_refusal depth scale lines ≡ None
        → IsStored (own_table depth (mesh_of_lines lines scale)) }
{}
