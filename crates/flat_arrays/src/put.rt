//! Items written into an array behind those already written.

ghost use Rattle.std.specs.Prelude.{◌≡◌, ◌+◌, ◌<◌, ◌≤◌, ◌++◌, ◌∷◌, [], length, take, drop};

/// Writes the items into the array from place `at` on. The array has a place for each, and no other item changes.
pub fn put_items<T: Copy>(out: &mut [T], at: usize, items: &[T])
    requires fits { at + length items.now ≤ length out.old }
    ensures written { take (at + length items.now) out.new ≡ take at out.old ++ items.now }
    ensures rest { drop (at + length items.now) out.new ≡ drop (at + length items.now) out.old }
    ensures len { length out.new ≡ length out.old }
{
    out[at..at + items.len()].copy_from_slice(items);
}

/// Writes one item into the array at place `at`. The array has that place, and no other item changes.
pub fn put_item<T: Copy>(out: &mut [T], at: usize, item: T)
    requires fits { at < length out.old }
    ensures written { take (at + 1) out.new ≡ take at out.old ++ item ∷ [] }
    ensures rest { drop (at + 1) out.new ≡ drop (at + 1) out.old }
    ensures len { length out.new ≡ length out.old }
{
    out[at] = item;
}
