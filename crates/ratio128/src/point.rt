/// Three coordinates: a control point in space, or three numerators over a denominator that the owner keeps.
#[derive(Clone, Copy, Debug, PartialEq, Eq)]
pub struct Point3 {
    pub x: i128,
    pub y: i128,
    pub z: i128,
}

/// Two coordinates: a texture value, or two numerators over a denominator that the owner keeps.
#[derive(Clone, Copy, Debug, PartialEq, Eq)]
pub struct Point2 {
    pub u: i128,
    pub v: i128,
}
