//! Requests for rows.

ghost use Rattle.std.specs.Prelude.{◌≡◌, IfSome, option_map};
ghost use Rattle.far_model.specs.Command.{Uv};
ghost use Rattle.far_words.specs.View.{uv_of_code};
ghost use Rattle.array_answers.specs.Asked.{AreInRange, TextureRows, limits_asked, patch_asked, points_asked, rows_asked, texture_asked, uv_of_number};
ghost use Rattle.array_answers.specs.View.{rows_of_code};

use far_words::{PatchOptions, Uv};

const DEPTH_LIMIT: u32 = 10;

const LAST_FACE: u32 = 4194303;

const GRID_LIMIT: u32 = 64;

/// A request for rows of a mesh. A call ignores the fields that the kind does not name.
#[repr(C)]
#[derive(Clone, Copy, Debug, PartialEq, Eq)]
pub struct RowRequest {
    /// 0: the points of the level at `depth`; 1: the limit points of these, with a `depth` of at least 1; 2: the places of the patch of
    /// `face`; 3: the texture points of the level.
    pub kind: u32,
    /// The depth, at most 10.
    pub depth: u32,
    /// The parts of a texture that stay sharp: 0 none, 1 the corners of charts, 2 their whole boundaries, 3 every point, by linear
    /// refinement.
    pub seams: u32,
    /// The number of the face, counted from 0, below 2^22.
    pub face: u32,
    /// The number of steps along each side of the patch, from 1 to 64.
    pub grid: u32,
}

/// A request whose numbers are in their ranges.
#[derive(Clone, Copy)]
pub(crate) enum AskedRows {
    Points { depth: u32 },
    Limits { depth: u32 },
    Patch(PatchOptions),
    Texture { uv: Uv, depth: u32 },
}

// The rule of a texture, by its number.
fn uv_of(seams: u32) -> Option<Uv>
    ensures { option_map uv_of_code result ≡ uv_of_number seams }
{
    match seams {
        0 => Some(Uv::Smooth),
        1 => Some(Uv::Corners),
        2 => Some(Uv::Boundaries),
        3 => Some(Uv::Linear),
        _ => None,
    }
}

// The points of the level at a depth.
fn points_of(depth: u32) -> Option<AskedRows>
    ensures rows { option_map rows_of_code result ≡ points_asked depth }
    ensures range { IfSome result (λ rows. AreInRange (rows_of_code rows)) }
{
    if depth <= DEPTH_LIMIT {
        Some(AskedRows::Points { depth })
    } else {
        None
    }
}

// The limit points of the level at a depth.
fn limits_of(depth: u32) -> Option<AskedRows>
    ensures rows { option_map rows_of_code result ≡ limits_asked depth }
    ensures range { IfSome result (λ rows. AreInRange (rows_of_code rows)) }
{
    if 1 <= depth && depth <= DEPTH_LIMIT {
        Some(AskedRows::Limits { depth })
    } else {
        None
    }
}

// The places of the patch of a face.
fn patch_of(depth: u32, face: u32, grid: u32) -> Option<AskedRows>
    ensures rows { option_map rows_of_code result ≡ patch_asked depth face grid }
    ensures range { IfSome result (λ rows. AreInRange (rows_of_code rows)) }
{
    if depth <= DEPTH_LIMIT && face <= LAST_FACE && 1 <= grid && grid <= GRID_LIMIT {
        Some(AskedRows::Patch(PatchOptions { depth, face, grid }))
    } else {
        None
    }
}

/// The rule and the depth of a texture, if both numbers are in their ranges.
pub(crate) fn uv_asked(seams: u32, depth: u32) -> Option<Uv>
    ensures rows { option_map (λ uv. TextureRows (uv_of_code uv) depth) result ≡ texture_asked seams depth }
    ensures range { IfSome result (λ uv. AreInRange (TextureRows (uv_of_code uv) depth)) }
{
    if depth <= DEPTH_LIMIT {
        uv_of(seams)
    } else {
        None
    }
}

// The texture points of the level at a depth.
fn texture_of(seams: u32, depth: u32) -> Option<AskedRows>
    ensures rows { option_map rows_of_code result ≡ texture_asked seams depth }
    ensures range { IfSome result (λ rows. AreInRange (rows_of_code rows)) }
{
    uv_asked(seams, depth).map(|uv| AskedRows::Texture { uv, depth })
}

/// The requested rows, if the numbers of the request are in their ranges.
pub(crate) fn asked_rows(request: &RowRequest) -> Option<AskedRows>
    ensures rows { option_map rows_of_code result ≡ rows_asked request.now }
    ensures range { IfSome result (λ rows. AreInRange (rows_of_code rows)) }
{
    match request.kind {
        0 => points_of(request.depth),
        1 => limits_of(request.depth),
        2 => patch_of(request.depth, request.face, request.grid),
        3 => texture_of(request.seams, request.depth),
        _ => None,
    }
}
