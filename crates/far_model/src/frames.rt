//! Examples of moved control points and the points they change, each proved by computing.

ghost use Rattle.std.specs.Prelude.{◌≡◌, ◌++◌, [], ◌∷◌, Some, None, codes};
ghost use Rattle.far_model.specs.ExampleFrames.{framed, square_lines, moves_of_the_square, answers_of_the_square, last_move, refused_frame_line};
ghost use Rattle.subdiv_model.specs.Fault.{Obj};
ghost use Rattle.subdiv_model.specs.ObjFault.{BadNumeral, NumberRange, UnknownKeyword, ShortLine, MoveIndex, TooFine};

/// A square with a moved point: `go` writes the points that depend on it, and the next `go` writes none.
pub fn moves_of_a_square()
    ensures whole { framed 0 (square_lines ++ moves_of_the_square) ≡ record { text = answers_of_the_square; refusal = None } }
    ensures finer { framed 0 (square_lines ++ (moves_of_the_square ++ last_move)) ≡ record { text = answers_of_the_square; refusal = Some (Obj (record { line = 13; cause = TooFine })) } }
    ensures scaled { framed 1 (square_lines ++ (moves_of_the_square ++ last_move)) ≡ record { text = answers_of_the_square; refusal = None } }
{}

/// Without a line `frames` the answer is empty, and without a move no point changes.
pub fn inputs_without_moves()
    ensures mesh { framed 0 square_lines ≡ record { text = []; refusal = None } }
    ensures empty { framed 0 (codes "frames\ngo") ≡ record { text = codes "frame 0\n"; refusal = None } }
    ensures marked { framed 0 (239 ∷ 187 ∷ 191 ∷ codes "frames\ngo\n") ≡ record { text = codes "frame 0\n"; refusal = None } }
    ensures blank { framed 0 (codes "frames now\n\n# go\ngo on\n") ≡ record { text = codes "frame 0\n"; refusal = None } }
{}

/// The faults of a move, in the order in which they are judged.
pub fn refused_moves()
    ensures words { refused_frame_line (codes "move 0 1 1") ≡ Some (Obj (record { line = 7; cause = ShortLine })) }
    ensures index { refused_frame_line (codes "move -1 a 0 0") ≡ Some (Obj (record { line = 7; cause = BadNumeral })) }
    ensures point { refused_frame_line (codes "move 4 a 0 0") ≡ Some (Obj (record { line = 7; cause = MoveIndex })) }
    ensures numeral { refused_frame_line (codes "move 3 a 0.5 0") ≡ Some (Obj (record { line = 7; cause = BadNumeral })) }
    ensures first { refused_frame_line (codes "move 3 0.5 a 0") ≡ Some (Obj (record { line = 7; cause = TooFine })) }
    ensures digits { refused_frame_line (codes "move 03 0 0 1e37 more") ≡ Some (Obj (record { line = 7; cause = NumberRange })) }
    ensures keyword { refused_frame_line (codes "v 0 0 0") ≡ Some (Obj (record { line = 7; cause = UnknownKeyword })) }
    ensures again { refused_frame_line (codes "frames") ≡ Some (Obj (record { line = 7; cause = UnknownKeyword })) }
{}
