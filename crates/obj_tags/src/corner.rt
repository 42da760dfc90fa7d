ghost use Rattle.std.specs.Prelude.{◌≡◌, ℕ, List, ◌∷◌};
ghost use Rattle.std.specs.List.{slice_split};
ghost use Rattle.subdiv_model.specs.Numeral.{is_slash};
ghost use Rattle.subdiv_model.specs.ObjWord.{corner_parts, same_form};
ghost use Rattle.obj_tags.specs.Corner.{IsIndexOf, IsCornerOf, IsReadAs};

use crate::words::split_slash;
use obj_text::read_index;

/// A corner of an `f` line, with its indices as written. The reader drops the index of a normal.
#[derive(Clone, Copy)]
pub(crate) struct Corner {
    pub(crate) vertex: i64,
    pub(crate) texture: Option<i64>,
    pub(crate) has_normal: bool,
}

impl Corner {
    /// Whether both corners have the same parts.
    pub(crate) fn has_form_of(&self, other: &Corner) -> bool
        ensures { (word first : List ℕ) → IsCornerOf self.now word → IsCornerOf other.now first
            → result ≡ same_form first word }
    {
        self.texture.is_some() == other.texture.is_some() && self.has_normal == other.has_normal
    }
}

// The corner with these parts, if each part is an index.
fn corner_with_normal(vertex: i64, texture: &[u8], normal: &[u8]) -> Option<Corner>
    ensures { (a : List ℕ) → IsIndexOf vertex a
        → IsReadAs result (a ∷ texture.now ∷ slice_split is_slash normal.now) }
{
    read_index(normal)?;
    let texture = if texture.is_empty() {
        None
    } else {
        Some(read_index(texture)?)
    };
    Some(Corner {
        vertex,
        texture,
        has_normal: true,
    })
}

// The corner with this vertex index and the bytes after its slash.
fn corner_with_texture(vertex: i64, rest: &[u8]) -> Option<Corner>
    ensures { (a : List ℕ) → IsIndexOf vertex a → IsReadAs result (a ∷ slice_split is_slash rest.now) }
{
    let (texture, rest) = split_slash(rest);
    match rest {
        Some(normal) => corner_with_normal(vertex, texture, normal),
        None => Some(Corner {
            vertex,
            texture: Some(read_index(texture)?),
            has_normal: false,
        }),
    }
}

/// The corner `a`, `a/b`, `a//c` or `a/b/c`, or `None` for any other word.
pub(crate) fn read_corner(word: &[u8]) -> Option<Corner>
    ensures { IsReadAs result (corner_parts word.now) }
{
    let (vertex, rest) = split_slash(word);
    let vertex = read_index(vertex)?;
    match rest {
        Some(rest) => corner_with_texture(vertex, rest),
        None => Some(Corner {
            vertex,
            texture: None,
            has_normal: false,
        }),
    }
}
