//! Lists of denominators.

ghost use Rattle.std.specs.Prelude.{◌<◌, ◌^◌, length, MatchOption};
ghost use Rattle.child_masks.specs.Survey.{HasNoZero, IsFirstZero};

/// Returns the first place with 0.
pub(crate) fn first_zero(dens: &Vec<u128>) -> Option<u32>
    requires { length dens.now.items < 2 ^ 32 }
    ensures { MatchOption result (HasNoZero dens.now.items) (IsFirstZero dens.now.items) }
{
    for p in 0..dens.len() as u32 {
        if dens[p as usize] == 0 {
            return Some(p);
        }
    }
    None
}
