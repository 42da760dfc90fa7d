//! Laws of the sheets of the command `gen`.

ghost use Rattle.std.specs.Prelude.{◌≡◌, ℕ, ◌<◌, None, length};
ghost use Rattle.subdiv_model.specs.Manifold.{IsManifold};
ghost use Rattle.subdiv_model.specs.MeshFault.{first_mesh_fault};
ghost use Rattle.subdiv_model.specs.Generator.{generated_mesh};

/// Each sheet is a manifold, for any seed, so the mesh checks find no fault in it.
pub fn sheets_are_manifolds()
    ensures manifold { (seed size : ℕ) → 0 < size → IsManifold (length (generated_mesh seed size).points) (generated_mesh seed size).faces }
    ensures fine { (seed size : ℕ) → 0 < size → first_mesh_fault (length (generated_mesh seed size).points) (generated_mesh seed size).faces ≡ None }
{}
