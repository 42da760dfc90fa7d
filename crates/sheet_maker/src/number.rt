//! The numbers of the points.

ghost use Rattle.std.specs.Prelude.{◌≡◌, ◌≤◌, ◌<◌};
ghost use Rattle.subdiv_model.specs.Generator.{sheet_point};
ghost use Rattle.sheet_maker.specs.Rows.{point_count};

// The number of the point in row `i` and column `j`.
pub(crate) fn point_number(size: u32, i: u32, j: u32) -> u32
    requires few { size ≤ 256 }
    requires row { i ≤ size }
    requires column { j ≤ size }
    ensures is { result ≡ sheet_point size i j }
    ensures inside { result < point_count size }
{
    i * (size + 1) + j
}
