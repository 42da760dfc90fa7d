//! The law of `apply`: a mesh after its own table gives the refined points of the mesh.

ghost use Rattle.std.specs.Prelude.{◌≡◌, None};
ghost use Rattle.std.specs.List.{flat_map};
ghost use Rattle.subdiv_model.specs.Text.{point_line};
ghost use Rattle.far_model.specs.Answer.{answer_of_stored_text, points_after};
ghost use Rattle.far_model.specs.Command.{Apply};
ghost use Rattle.table_laws.specs.Applied.{TextOfMesh, table_then_mesh, mesh_of};

/// If a mesh follows its own table of some depth, `apply` accepts the input. It writes the `v` lines that `refine` writes at that
/// depth. The law asks that the table is composed without refusal.
pub fn applied_tables_give_refined_points()
    ensures { (given : TextOfMesh) → answer_of_stored_text Apply (table_then_mesh given)
        ≡ record { text = flat_map (point_line None) (points_after (mesh_of given) given.depth); refusal = None } }
{}
