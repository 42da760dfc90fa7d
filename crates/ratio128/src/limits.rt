//! The bounds of meshes, levels, values and tables.

/// The most points of a mesh, and the most faces of its level 0: 2^20.
pub const MESH_LIMIT: usize = 1 << 20;

/// The most corners of a face, and the most edges at a vertex: 2^16.
pub const SIZE_LIMIT: usize = 1 << 16;

/// The most faces of a level after level 0: 2^22.
pub const FACE_LIMIT: u64 = 1 << 22;

/// The most entries of a table: 2^27.
pub const ENTRY_BOUND: u64 = 1 << 27;

/// The greatest denominator of a value, and the greatest amount of a numerator over it: 2^126 - 1.
pub const NUMBER_BOUND: u128 = (1 << 126) - 1;

/// The bound of numbers that are read: 10^37. Each numerator and denominator is less; the common denominator of a mesh is at most
/// this.
pub const NUMERAL_BOUND: u128 = 10_000_000_000_000_000_000_000_000_000_000_000_000;

/// The greatest denominator of a sharpness, and of the weight that blends two rules at a vertex: 2^60.
pub const SHARPNESS_BOUND: u128 = 1 << 60;
