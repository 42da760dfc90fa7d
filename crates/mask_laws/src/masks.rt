//! Laws of masks: their weights and sources, the blends of two rules, and the boundary.

ghost use Rattle.std.specs.Prelude.{◌≡◌, ◌*◌, ◌<◌, ◌≤◌, IsTrue, ℕ, length, List, [], get_or, false};
ghost use Rattle.std.specs.List.{sum_by};
ghost use Rattle.subdiv_model.specs.Edges.{faces_of_edge, is_boundary, is_closed};
ghost use Rattle.subdiv_model.specs.ObjMesh.{ObjMesh};
ghost use Rattle.subdiv_model.specs.Base.{base_level, is_at_boundary};
ghost use Rattle.subdiv_model.specs.Manifold.{IsManifold};
ghost use Rattle.subdiv_model.specs.Sharpness.{Semi, Infinite};
ghost use Rattle.subdiv_model.specs.Level.{Level, edge_sharpness_of, edges_at};
ghost use Rattle.subdiv_model.specs.Child.{child_level, refined_level};
ghost use Rattle.subdiv_model.specs.Rule.{is_smooth_or_dart};
ghost use Rattle.subdiv_model.specs.Mask.{Mask, Scheme, SourcePoint, Term, CatmullClark, Linear, mask_of, total_weight, face_mask, edge_mask, vertex_mask, mask_of_edge, blend, is_mean, is_interior, is_proper_at, rule_at, child_rule_at, has_means, has_distinct_sources, has_distinct_masks};
ghost use Rattle.subdiv_model.specs.Value.{IsSameValue};
ghost use Rattle.subdiv_model.specs.Refined.{mask_value};
ghost use Rattle.mesh_laws.specs.Manifolds.{IsManifoldOver};
ghost use Rattle.mask_laws.specs.SharpBoundary.{has_sharp_boundary};
ghost use Rattle.level_laws.specs.Tags.{HasProperTags};
ghost use Rattle.mask_laws.specs.Laws.{Transition, SourceValues, BoundaryPoint, IsManifoldMesh, IsManifoldWithSharpBoundary, IsInteriorWhereSmooth, GiveSameWeights, GiveSameValue, mesh_level, weight_of, value_of_terms};

/// The mask of a face that has a corner is a mean: its weights are above 0 and sum to the denominator.
pub fn face_masks_are_means()
    ensures { (level : Level) (f : ℕ) → 0 < length (get_or level.polygons f []) → IsTrue (is_mean (face_mask level f)) }
{}

/// The mask of an edge is a mean where the edge has two faces or a sharpness of at least 1.
pub fn edge_masks_are_means()
    ensures two_faces { (level : Level) (scheme : Scheme) (edge : ℕ × ℕ) → length (faces_of_edge level.polygons edge) ≡ 2
        → IsTrue (is_mean (edge_mask level scheme edge)) }
    ensures semi_sharp { (num den : ℕ) (edge : ℕ × ℕ) (faces : List ℕ) → den ≤ num
        → IsTrue (is_mean (mask_of_edge (Semi num den) edge faces)) }
    ensures infinite { (edge : ℕ × ℕ) (faces : List ℕ) → IsTrue (is_mean (mask_of_edge Infinite edge faces)) }
{}

/// The mask of a vertex is a mean: smooth, dart, crease, corner, and the blend of two of them. A vertex whose rule is smooth or
/// dart, in this level or in the next, must have as many faces as edges.
pub fn vertex_masks_are_means()
    ensures catmull_clark { (level : Level) (v : ℕ) → IsTrue (is_proper_at level v) → IsInteriorWhereSmooth level v
        → IsTrue (is_mean (vertex_mask level CatmullClark v)) }
    ensures linear { (level : Level) (v : ℕ) → IsTrue (is_mean (vertex_mask level Linear v)) }
{}

/// The blend of two means by a weight above 0 and at most 1 is a mean.
pub fn blends_are_means()
    ensures { (w : ℕ × ℕ) (parent child : Mask) → 0 < w.0 → w.0 ≤ w.1 → IsTrue (is_mean parent) → IsTrue (is_mean child)
        → IsTrue (is_mean (blend w parent child)) }
{}

/// Where the masks of two levels differ at a vertex, the weight of their blend is above 0 and at most 1.
pub fn transition_weights_are_above_zero()
    ensures above_zero { (transition : Transition) → 0 < (weight_of transition).0 }
    ensures at_most_one { (transition : Transition) → (weight_of transition).0 ≤ (weight_of transition).1 }
{}

/// Boundary edges, which have one face, are infinitely sharp at every level of every manifold mesh, whatever its boundary mode.
/// If they are at one level, they are at the next; a closed level has no boundary edge.
pub fn boundary_edges_stay_infinite()
    ensures mesh { (mesh : ObjMesh) → IsManifold (length mesh.points) mesh.faces → IsTrue (has_sharp_boundary (base_level mesh)) }
    ensures closed { (level : Level) → IsTrue (is_closed level.polygons) → IsTrue (has_sharp_boundary level) }
    ensures child { (level : Level) → IsManifoldOver level.point_count level.polygons
        → IsTrue (has_sharp_boundary level) → IsTrue (has_sharp_boundary (child_level level)) }
    ensures edges { (mesh : ObjMesh) (k : ℕ) (edge : ℕ × ℕ) → IsManifoldMesh mesh
        → IsTrue (is_boundary (mesh_level mesh k).polygons edge) → edge_sharpness_of (mesh_level mesh k) edge ≡ Infinite }
{}

/// In a manifold a point that has an edge and is off the boundary has as many faces as edges, and at least two. A point on a
/// sharp boundary is a crease or a corner, in its level and in the next.
pub fn points_are_interior_or_at_the_boundary()
    ensures interior { (level : Level) (v : ℕ) → IsManifold level.point_count level.polygons
        → is_at_boundary level.polygons v ≡ false → 1 ≤ length (edges_at level v) → IsTrue (is_interior level v) }
    ensures boundary { (point : BoundaryPoint) → is_smooth_or_dart (rule_at point.level point.v) ≡ false }
    ensures boundary_next { (point : BoundaryPoint) → is_smooth_or_dart (child_rule_at point.level point.v) ≡ false }
{}

/// Each mask of a manifold is a mean, at every level and under both schemes: its weights are above 0 and sum to its denominator.
///
/// The law holds from level 0 of every mesh whose tags are well formed, open or closed. It also holds from every well-formed
/// manifold level whose boundary is infinitely sharp, as the empty boundary of a closed level is.
pub fn masks_of_manifolds_are_means()
    ensures level { (level : Level) (scheme : Scheme) (k : ℕ) → IsManifoldWithSharpBoundary level
        → IsTrue (has_means (refined_level level k) scheme) }
    ensures mesh { (mesh : ObjMesh) (scheme : Scheme) (k : ℕ) → IsManifoldMesh mesh → HasProperTags mesh
        → IsTrue (has_means (mesh_level mesh k) scheme) }
{}

/// A mask lists each of its sources once. All masks of a level do, blends included.
pub fn masks_list_their_sources_once()
    ensures level { (level : Level) (scheme : Scheme) → IsTrue (has_distinct_masks level scheme) }
    ensures terms { (terms : List Term) (q : ℕ) → IsTrue (has_distinct_sources (mask_of terms q).terms) }
{}

/// A mask has the value of the terms it was made from, even if they name a source more than once. Terms that give each source the
/// same total weight have the same value, in any order.
pub fn sums_do_not_see_how_terms_are_joined()
    ensures weights { (terms : List Term) (q : ℕ) → total_weight (mask_of terms q).terms ≡ total_weight terms }
    ensures numbers { (number : SourcePoint → ℕ) (terms : List Term) (q : ℕ)
        → sum_by (λ t. t.weight * number t.source) (mask_of terms q).terms ≡ sum_by (λ t. t.weight * number t.source) terms }
    ensures value { (values : SourceValues) (terms : List Term) (q : ℕ) → 0 < q
        → IsSameValue (mask_value values.value (mask_of terms q)) (value_of_terms values.value terms q) }
    ensures order { (values : SourceValues) (first second : List Term) (q : ℕ) → 0 < q → GiveSameWeights first second
        → GiveSameValue values.value q first second }
{}
