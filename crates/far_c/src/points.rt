//! The points of a mesh at a depth.

ghost use Rattle.std.specs.Prelude.{◌≡◌, ◌*◌, ◌≤◌, length, nat_le, map, take, drop, true, false};
ghost use Rattle.std.specs.List.{All};
ghost use Rattle.nearest_float.specs.Binary.{binary32, binary64};
ghost use Rattle.nearest_float.specs.NearestArrays.{AreNearest};
ghost use Rattle.mesh_arrays.specs.Points.{CanBePut, coordinates};
ghost use Rattle.far_c.specs.Answers.{AnswersExactPoints, AnswersPoints, AreExactPoints, are_exact_long_enough};
ghost use Rattle.far_c.specs.Status.{IsKeptUnlessDone, IsKeptUnlessRefused, IsKeptIfRefused};

use crate::status::written;
use array_answers::{FaultRecord, RefinedPoints, refine_points};
use flat_arrays::Wide;
use mesh_arrays::{MeshArrays, put_exact_points, put_points32, put_points64};
use std::alloc::Global;

// The number of points.
fn count_of(refined: &RefinedPoints) -> u64
    ensures { result ≡ length refined.now.points.items }
{
    refined.points.len() as u64
}

// Writes the exact points if both arrays are long enough, and returns whether they are.
fn put_exact(refined: &RefinedPoints, numerators: &mut [Wide], denominators: &mut [Wide]) -> bool
    requires { All (CanBePut refined.now.common) refined.now.points.items }
    ensures long_enough { result ≡ are_exact_long_enough (length refined.now.points.items) numerators.old denominators.old }
    ensures written { result ≡ true → AreExactPoints (length refined.now.points.items) numerators.new denominators.new refined.now }
    ensures rest { drop (3 * length refined.now.points.items) numerators.new ≡ drop (3 * length refined.now.points.items) numerators.old }
    ensures dens_rest { drop (length refined.now.points.items) denominators.new ≡ drop (length refined.now.points.items) denominators.old }
    ensures kept { result ≡ false → (numerators.new ≡ numerators.old) × (denominators.new ≡ denominators.old) }
    ensures len { length numerators.new ≡ length numerators.old }
    ensures dens_len { length denominators.new ≡ length denominators.old }
{
    let points = refined.points.as_slice();
    if numerators.len() / 3 < points.len() || denominators.len() < points.len() {
        return false;
    }
    put_exact_points(points, refined.common, numerators, denominators);
    true
}

// Writes the nearest doubles of the points if the array is long enough, and returns whether it is.
fn put_doubles(refined: &RefinedPoints, out: &mut [u64]) -> bool
    requires { All (CanBePut refined.now.common) refined.now.points.items }
    ensures long_enough { result ≡ nat_le (3 * length refined.now.points.items) (length out.old) }
    ensures written { result ≡ true → AreNearest binary64 (coordinates refined.now.common refined.now.points.items) (take (3 * length refined.now.points.items) out.new) }
    ensures rest { drop (3 * length refined.now.points.items) out.new ≡ drop (3 * length refined.now.points.items) out.old }
    ensures kept { result ≡ false → out.new ≡ out.old }
    ensures len { length out.new ≡ length out.old }
{
    let points = refined.points.as_slice();
    if out.len() / 3 < points.len() {
        return false;
    }
    put_points64(points, refined.common, out);
    true
}

// Writes the nearest floats of the points if the array is long enough, and returns whether it is.
fn put_floats(refined: &RefinedPoints, out: &mut [u32]) -> bool
    requires { All (CanBePut refined.now.common) refined.now.points.items }
    ensures long_enough { result ≡ nat_le (3 * length refined.now.points.items) (length out.old) }
    ensures written { result ≡ true → AreNearest binary32 (coordinates refined.now.common refined.now.points.items) (take (3 * length refined.now.points.items) out.new) }
    ensures rest { drop (3 * length refined.now.points.items) out.new ≡ drop (3 * length refined.now.points.items) out.old }
    ensures kept { result ≡ false → out.new ≡ out.old }
    ensures len { length out.new ≡ length out.old }
{
    let points = refined.points.as_slice();
    if out.len() / 3 < points.len() {
        return false;
    }
    put_points32(points, refined.common, out);
    true
}

/// Writes the exact points of a mesh at `depth`, at most 10, and their number. A point has three numerators over one denominator: that of
/// its row in the table of the level, times the common one of the mesh. If an array is too short, it writes only the number. Places behind
/// the points keep their contents.
#[unsafe(no_mangle)]
pub extern "C" fn far_points_exact(
    alloc: Global,
    mesh: &MeshArrays,
    depth: u32,
    count: &mut u64,
    numerators: &mut [Wide],
    denominators: &mut [Wide],
    fault: &mut FaultRecord,
) -> u32
    ensures answer { AnswersExactPoints mesh.now depth result count.new numerators.old numerators.new denominators.old denominators.new fault.new }
    ensures rest { drop (3 * count.new) numerators.new ≡ drop (3 * count.new) numerators.old }
    ensures dens_rest { drop count.new denominators.new ≡ drop count.new denominators.old }
    ensures kept { IsKeptUnlessDone result numerators.old numerators.new × IsKeptUnlessDone result denominators.old denominators.new }
    ensures len { length numerators.new ≡ length numerators.old }
    ensures dens_len { length denominators.new ≡ length denominators.old }
    ensures stays { IsKeptIfRefused result count.old count.new × IsKeptUnlessRefused result fault.old fault.new }
{
    match refine_points(alloc, mesh, depth) {
        Ok(refined) => {
            *count = count_of(&refined);
            let done = put_exact(&refined, numerators, denominators);
            // The prover proves a named drop once for each type.
            drop(refined);
            written(done)
        }
        Err(found) => {
            *fault = found;
            found.status
        }
    }
}

/// Writes the doubles nearest to the points of a mesh at `depth`, at most 10, as bits, three for each point; and the number of points. If
/// `out` is too short, it writes only the number. Places behind the points keep their contents.
#[unsafe(no_mangle)]
pub extern "C" fn far_points_doubles(
    alloc: Global,
    mesh: &MeshArrays,
    depth: u32,
    count: &mut u64,
    out: &mut [u64],
    fault: &mut FaultRecord,
) -> u32
    ensures answer { AnswersPoints binary64 mesh.now depth result count.new out.old out.new fault.new }
    ensures rest { drop (3 * count.new) out.new ≡ drop (3 * count.new) out.old }
    ensures kept { IsKeptUnlessDone result out.old out.new }
    ensures len { length out.new ≡ length out.old }
    ensures stays { IsKeptIfRefused result count.old count.new × IsKeptUnlessRefused result fault.old fault.new }
{
    match refine_points(alloc, mesh, depth) {
        Ok(refined) => {
            *count = count_of(&refined);
            let done = put_doubles(&refined, out);
            // The prover proves a named drop once for each type.
            drop(refined);
            written(done)
        }
        Err(found) => {
            *fault = found;
            found.status
        }
    }
}

/// Writes the floats nearest to the points of a mesh at `depth`, at most 10, as bits, three for each point; and the number of points. If
/// `out` is too short, it writes only the number. Places behind the points keep their contents.
#[unsafe(no_mangle)]
pub extern "C" fn far_points_floats(
    alloc: Global,
    mesh: &MeshArrays,
    depth: u32,
    count: &mut u64,
    out: &mut [u32],
    fault: &mut FaultRecord,
) -> u32
    ensures answer { AnswersPoints binary32 mesh.now depth result count.new out.old out.new fault.new }
    ensures rest { drop (3 * count.new) out.new ≡ drop (3 * count.new) out.old }
    ensures kept { IsKeptUnlessDone result out.old out.new }
    ensures len { length out.new ≡ length out.old }
    ensures stays { IsKeptIfRefused result count.old count.new × IsKeptUnlessRefused result fault.old fault.new }
{
    match refine_points(alloc, mesh, depth) {
        Ok(refined) => {
            *count = count_of(&refined);
            let done = put_floats(&refined, out);
            // The prover proves a named drop once for each type.
            drop(refined);
            written(done)
        }
        Err(found) => {
            *fault = found;
            found.status
        }
    }
}
