//! The corners of a face in their cycle.

ghost use Rattle.std.specs.Prelude.{◌≡◌, ◌<◌};
ghost use Rattle.level_topology.specs.Topology.{corner_after, corner_before};

/// Returns the corner after corner `c` in a face of `size` corners. The first follows the last.
pub fn corner_after(size: usize, c: usize) -> usize
    requires { c < size }
    ensures after { result ≡ corner_after size c }
    ensures within { result < size }
{
    if c + 1 == size { 0 } else { c + 1 }
}

/// Returns the corner before corner `c` in a face of `size` corners. The last precedes the first.
pub fn corner_before(size: usize, c: usize) -> usize
    requires { c < size }
    ensures before { result ≡ corner_before size c }
    ensures within { result < size }
{
    if c == 0 { size - 1 } else { c - 1 }
}
