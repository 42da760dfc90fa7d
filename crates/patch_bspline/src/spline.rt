//! The weights of the uniform cubic B-spline.

ghost use Rattle.std.specs.Prelude.{◌≡◌, ◌*◌, ◌^◌, ◌≤◌, get_or};
ghost use Rattle.subdiv_model.specs.Patch.{spline_weights};

// Returns the product of three numbers.
fn product(a: u32, b: u32, c: u32) -> u32
    requires a { a ≤ 64 }
    requires b { b ≤ 64 }
    requires c { c ≤ 64 }
    ensures product { result ≡ a * b * c }
    ensures short { result ≤ 2 ^ 18 }
{
    a * b * c
}

// Returns the first of the four weights at i/m, as a numerator over 6m³.
fn first_weight(m: u32, i: u32) -> u32
    requires inside { i ≤ m }
    requires few { m ≤ 64 }
    ensures { result ≡ get_or (spline_weights m i) 0 0 }
{
    product(m - i, m - i, m - i)
}

// Returns the second of the four weights at i/m, as a numerator over 6m³.
fn second_weight(m: u32, i: u32) -> u32
    requires inside { i ≤ m }
    requires few { m ≤ 64 }
    ensures { result ≡ get_or (spline_weights m i) 1 0 }
{
    let cube = product(i, i, i);
    let whole = product(m, m, m);
    let square = product(i, i, m);
    3 * cube + 4 * whole - 6 * square
}

// Returns the third of the four weights at i/m, as a numerator over 6m³.
fn third_weight(m: u32, i: u32) -> u32
    requires inside { i ≤ m }
    requires few { m ≤ 64 }
    ensures { result ≡ get_or (spline_weights m i) 2 0 }
{
    let cube = product(i, i, i);
    let whole = product(m, m, m);
    let square = product(i, i, m);
    let single = product(i, m, m);
    3 * square + 3 * single + whole - 3 * cube
}

// Returns the fourth of the four weights at i/m, as a numerator over 6m³.
fn fourth_weight(m: u32, i: u32) -> u32
    requires inside { i ≤ m }
    requires few { m ≤ 64 }
    ensures { result ≡ get_or (spline_weights m i) 3 0 }
{
    product(i, i, i)
}

/// Returns the four weights of the cubic B-spline at i/m, as numerators over 6m³.
pub(crate) fn spline_weights(m: u32, i: u32) -> [u32; 4]
    requires inside { i ≤ m }
    requires few { m ≤ 64 }
    ensures { result ≡ spline_weights m i }
{
    let first = first_weight(m, i);
    let second = second_weight(m, i);
    let third = third_weight(m, i);
    let fourth = fourth_weight(m, i);
    [first, second, third, fourth]
}

/// Returns the denominator of the product of two weights: 36m⁶.
pub(crate) fn denominator(m: u32) -> u128
    requires { m ≤ 64 }
    ensures { result ≡ 36 * m ^ 6 }
{
    let cube = u128::from(product(m, m, m));
    36 * cube * cube
}
