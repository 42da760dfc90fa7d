//! Laws of all lists of faults.
//!
//! Each public function here takes nothing, does nothing and returns nothing: its clauses are the laws.

ghost use Rattle.std.specs.Prelude.{◌≡◌, ◌↔◌, ℕ, List, [], None};
ghost use Rattle.subdiv_model.specs.Polygons.{Polygon};
ghost use Rattle.subdiv_model.specs.Lists.{first_of};
ghost use Rattle.subdiv_model.specs.MeshFault.{first_mesh_fault};
ghost use Rattle.mesh_check.specs.Listed.{listed_faults};

/// The first fault of the list is the fault that a check names, and the list is empty exactly where a check names none.
pub fn lists_begin_with_the_fault_that_is_named()
    ensures first { (points : ℕ) (polygons : List Polygon) → first_of (listed_faults points polygons) ≡ first_mesh_fault points polygons }
    ensures none { (points : ℕ) (polygons : List Polygon) → (listed_faults points polygons ≡ []) ↔ (first_mesh_fault points polygons ≡ None) }
{}
