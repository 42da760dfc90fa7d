//! The points that stay sharp where seams cut the texture.

/// The points that a texture channel keeps infinitely sharp, besides the sharp vertices of the mesh. Source: this library;
/// the names are close to those of OpenSubdiv's linear interpolation of face-varying channels.
#[derive(Clone, Copy, Debug, PartialEq, Eq)]
pub enum SeamMode {
    /// No further points.
    Smooth,
    /// The points with one face: the corners of charts.
    Corners,
    /// The points on the boundary of the cut mesh: the rims of charts.
    Boundaries,
}
