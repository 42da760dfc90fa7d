//! Laws of the numbers of a mesh that is read: their common denominators are at most 10^37, and over them they are short.

ghost use Rattle.std.specs.Prelude.{◌≡◌, ℕ, ◌≤◌, ◌^◌, List, None};
ghost use Rattle.std.specs.List.{All};
ghost use Rattle.subdiv_model.specs.ReadObj.{read_obj_fault, read_obj_mesh};
ghost use Rattle.subdiv_model.specs.Short.{IsShortPoint, IsShortTexture};

/// The common denominator of the coordinates of a text without fault is at most 10^37. Over it each coordinate is less than 10^37
/// in amount. The denominator is a multiple of `10^least`, so `least` is at most 37.
pub fn coordinates_are_short()
    ensures common { (text : List ℕ) (least : ℕ) → least ≤ 37 → read_obj_fault text least ≡ None → (read_obj_mesh text least).common ≤ 10 ^ 37 }
    ensures points { (text : List ℕ) (least : ℕ) → least ≤ 37 → read_obj_fault text least ≡ None → All IsShortPoint (read_obj_mesh text least).points }
{}

/// The common denominator of the texture values of a text without fault is at most 10^37. Over it each coordinate of a texture
/// value is less than 10^37 in amount.
pub fn texture_values_are_short()
    ensures common { (text : List ℕ) (least : ℕ) → read_obj_fault text least ≡ None → (read_obj_mesh text least).texture_common ≤ 10 ^ 37 }
    ensures values { (text : List ℕ) (least : ℕ) → read_obj_fault text least ≡ None → All IsShortTexture (read_obj_mesh text least).texture }
{}
