/// The faces of an edge: one, or two with the lower number first.
#[derive(Clone, Copy, Debug, PartialEq, Eq)]
pub struct EdgeFaces {
    pub first: u32,
    pub second: Option<u32>,
}
