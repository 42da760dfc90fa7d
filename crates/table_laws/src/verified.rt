//! Laws of `verify`: it accepts the table of the mesh and no other.

ghost use Rattle.std.specs.Prelude.{◌≡◌, ℕ, List, None};
ghost use Rattle.subdiv_model.specs.Base.{base_level};
ghost use Rattle.subdiv_model.specs.Mask.{CatmullClark};
ghost use Rattle.subdiv_model.specs.TableText.{table_text};
ghost use Rattle.far_model.specs.Answer.{answer_of_verify, composition_refusal, mesh_before_table, own_table};
ghost use Rattle.far_model.specs.Stored.{mesh_part, table_part};
ghost use Rattle.table_laws.specs.StoredTable.{IsStored};
ghost use Rattle.table_laws.specs.Verified.{InputWithTable, agreement};

/// If `verify` accepts an input, the bytes of its table are the text of the table of the mesh before it. That table is a stored
/// table, and is composed without refusal.
pub fn verified_tables_are_those_of_the_mesh()
    ensures text { (depth : ℕ) (bytes : List ℕ) → (answer_of_verify depth bytes).refusal ≡ None
        → table_part bytes ≡ table_text (base_level (mesh_before_table bytes)) CatmullClark depth }
    ensures stored { (depth : ℕ) (bytes : List ℕ) → (answer_of_verify depth bytes).refusal ≡ None → IsStored (own_table depth (mesh_before_table bytes)) }
    ensures composed { (depth : ℕ) (bytes : List ℕ) → (answer_of_verify depth bytes).refusal ≡ None → composition_refusal depth 0 (mesh_part bytes) ≡ None }
{}

/// `verify` accepts a mesh followed by its own table, if this is composed without refusal. The answer contains the number of rows.
pub fn tables_of_meshes_are_verified()
    ensures { (given : InputWithTable) → answer_of_verify given.depth given.bytes
        ≡ record { text = agreement (own_table given.depth (mesh_before_table given.bytes)); refusal = None } }
{}
