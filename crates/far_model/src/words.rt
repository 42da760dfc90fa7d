//! Examples of command lines, each proved by computing.

ghost use Rattle.std.specs.Prelude.{◌≡◌, false, true, [], ◌∷◌, Some, None, Ok, Err, codes};
ghost use Rattle.far_model.specs.Command.{ByLevel, ByTable, CornersUv, Frames, Gen, Levels, Makes, Reads, Refine, SmoothUv, Streams, read_words};
ghost use Rattle.subdiv_model.specs.ExampleTexts.{all_refine_words};
ghost use Rattle.far_model.specs.Words.{command_table, usage_of};

/// Command lines and the places of their first bad words.
pub fn places_of_bad_words()
    ensures none { usage_of command_table [] ≡ Some 0 }
    ensures unknown { usage_of command_table (codes "x" ∷ codes "depth=1" ∷ []) ≡ Some 0 }
    ensures no_depth { usage_of command_table (codes "refine" ∷ []) ≡ Some 1 }
    ensures no_size { usage_of command_table (codes "gen" ∷ codes "depth=1" ∷ codes "seed=0" ∷ []) ≡ Some 3 }
    ensures deep { usage_of command_table (codes "levels" ∷ codes "depth=11" ∷ []) ≡ Some 1 }
    ensures leading_zero { usage_of command_table (codes "levels" ∷ codes "depth=01" ∷ []) ≡ Some 1 }
    ensures no_value { usage_of command_table (codes "levels" ∷ codes "depth=" ∷ []) ≡ Some 1 }
    ensures twice { usage_of command_table (codes "refine" ∷ codes "depth=1" ∷ codes "uv=linear" ∷ codes "depth=1" ∷ []) ≡ Some 3 }
    ensures other_name { usage_of command_table (codes "stencils" ∷ codes "depth=1" ∷ codes "uv=linear" ∷ []) ≡ Some 2 }
    ensures small { usage_of command_table (codes "gen" ∷ codes "size=0" ∷ []) ≡ Some 1 }
    ensures fine { usage_of command_table (codes "frames" ∷ codes "depth=1" ∷ codes "scale=19" ∷ []) ≡ Some 2 }
{}

/// The commands that words give: options in any order, and defaults for missing ones.
pub fn commands_of_words()
    ensures refine { read_words (codes "refine" ∷ codes "depth=0" ∷ []) ≡ Ok (Reads (Refine (record { depth = 0; decimals = None; uv = SmoothUv; by = ByTable; tags = false }))) }
    ensures all { read_words all_refine_words ≡ Ok (Reads (Refine (record { depth = 10; decimals = Some 18; uv = CornersUv; by = ByLevel; tags = true }))) }
    ensures sheet { read_words (codes "gen" ∷ codes "size=256" ∷ codes "seed=4294967295" ∷ codes "depth=3" ∷ []) ≡ Ok (Makes (Gen (record { seed = 4294967295; size = 256; depth = 3 }))) }
    ensures levels { read_words (codes "levels" ∷ codes "depth=1" ∷ []) ≡ Ok (Reads (Levels 1)) }
    ensures frames { read_words (codes "frames" ∷ codes "depth=2" ∷ []) ≡ Ok (Streams (Frames (record { depth = 2; scale = 0 }))) }
    ensures scaled { read_words (codes "frames" ∷ codes "scale=18" ∷ codes "depth=0" ∷ []) ≡ Ok (Streams (Frames (record { depth = 0; scale = 18 }))) }
    ensures bad { read_words (codes "levels" ∷ codes "depth=x" ∷ []) ≡ Err 1 }
{}
