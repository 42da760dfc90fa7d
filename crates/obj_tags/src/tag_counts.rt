ghost use Rattle.std.specs.Prelude.{◌≡◌, ◌+◌, ◌^◌, ◌<◌, ◌∷◌, option_map, IfSome};
ghost use Rattle.std.specs.List.{slice_split};
ghost use Rattle.subdiv_model.specs.Numeral.{is_slash};
ghost use Rattle.subdiv_model.specs.ObjTag.{kind_of_name, may_have};
ghost use Rattle.obj_tags.specs.Counts.{IsCount, AreShort, IsReadAs};
ghost use Rattle.obj_tags.specs.View.{kind_of};

use crate::words::{is_word, split_slash};

/// The kind of a tag.
#[derive(Clone, Copy)]
pub(crate) enum TagKind {
    Crease,
    Corner,
    Hole,
    Boundary,
    Method,
    /// A tag for texture, which the reader checks and drops.
    Dropped,
}

/// How many integers, numerals and strings a tag has.
#[derive(Clone, Copy)]
pub(crate) struct TagCounts {
    pub(crate) integers: u32,
    pub(crate) numerals: u32,
    pub(crate) strings: u32,
}

/// The kind of tag with this name, or `None`.
pub(crate) fn kind_named(word: &[u8]) -> Option<TagKind>
    ensures { option_map kind_of result ≡ kind_of_name word.now }
{
    if is_word(word, b"crease") {
        Some(TagKind::Crease)
    } else if is_word(word, b"corner") {
        Some(TagKind::Corner)
    } else if is_word(word, b"hole") {
        Some(TagKind::Hole)
    } else if is_word(word, b"interpolateboundary") {
        Some(TagKind::Boundary)
    } else if is_word(word, b"creasemethod") {
        Some(TagKind::Method)
    } else if is_word(word, b"facevaryinginterpolateboundary")
        || is_word(word, b"facevaryingpropagatecorners")
    {
        Some(TagKind::Dropped)
    } else {
        None
    }
}

// The number that one to nine digits spell, or `None` for any other word.
fn count(word: &[u8]) -> Option<u32>
    ensures value { IsCount result word.now }
    ensures bound { IfSome result (λ n. n < 10 ^ 9) }
{
    if word.is_empty() || word.len() > 9 {
        return None;
    }
    let mut number = 0;
    for digit in word {
        if !digit.is_ascii_digit() {
            return None;
        }
        number = number * 10 + u32::from(*digit - b'0');
    }
    Some(number)
}

// The counts of three parts, if each part is a count.
#[tactic(auto, using(crate::proofs::CornerLemmas::count_part, crate::proofs::CornerLemmas::no_count))]
fn counts_of_parts(integers: &[u8], numerals: &[u8], strings: &[u8]) -> Option<TagCounts>
    ensures { IsReadAs result (integers.now ∷ numerals.now ∷ slice_split is_slash strings.now) }
{
    Some(TagCounts {
        integers: count(integers)?,
        numerals: count(numerals)?,
        strings: count(strings)?,
    })
}

/// The counts `i/f/s`, or `None` for any other word.
pub(crate) fn read_counts(word: &[u8]) -> Option<TagCounts>
    ensures { IsReadAs result (slice_split is_slash word.now) }
{
    let (integers, rest) = split_slash(word);
    let (numerals, rest) = split_slash(rest?);
    counts_of_parts(integers, numerals, rest?)
}

impl TagCounts {
    /// How many words follow the counts.
    pub(crate) fn words(&self) -> usize
        requires { AreShort self.now }
        ensures { result ≡ self.now.integers + self.now.numerals + self.now.strings }
    {
        (self.integers + self.numerals + self.strings) as usize
    }

    /// Whether a tag of this kind may have these counts.
    pub(crate) fn fit(&self, kind: TagKind) -> bool
        ensures { result
            ≡ may_have (kind_of kind) self.now.integers self.now.numerals self.now.strings }
    {
        let (i, f, s) = (self.integers, self.numerals, self.strings);
        match kind {
            TagKind::Crease => 2 <= i && (f == 1 || f == i - 1) && s == 0,
            TagKind::Corner => 1 <= i && (f == 1 || f == i) && s == 0,
            TagKind::Hole => 1 <= i && f == 0 && s == 0,
            TagKind::Boundary => i == 1 && f == 0 && s == 0,
            TagKind::Method => i == 0 && f == 0 && s == 1,
            TagKind::Dropped => true,
        }
    }
}
