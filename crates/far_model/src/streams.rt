//! Examples of answers line by line, each proved by computing.

ghost use Rattle.std.specs.Prelude.{◌≡◌, [], Some, None, codes};
ghost use Rattle.far_model.specs.Examples.{echo_rule};
ghost use Rattle.subdiv_model.specs.Fault.{Long, Obj};
ghost use Rattle.subdiv_model.specs.ObjFault.{LongLine, UnknownKeyword};
ghost use Rattle.far_model.specs.Stream.{answer_of_lines, answer_so_far};

/// What all bytes of an input add, and what its first bytes add while more may come.
pub fn lines_are_answered_one_by_one()
    ensures all { answer_of_lines echo_rule 9 (codes "a\nb\n") ≡ record { text = codes "a\nb\n2"; refusal = None } }
    ensures last { answer_of_lines echo_rule 9 (codes "a\nb") ≡ record { text = codes "a\nb\n2"; refusal = None } }
    ensures empty { answer_of_lines echo_rule 9 [] ≡ record { text = codes "0"; refusal = None } }
    ensures so_far { answer_so_far echo_rule (codes "a\nb") ≡ record { text = codes "a\n"; refusal = None } }
{}

/// A refusal keeps the answers of the lines before it. A line that is not closed yet is refused as soon as its bytes are.
pub fn refusals_leave_what_was_written()
    ensures line { answer_of_lines echo_rule 9 (codes "a\nx\nb") ≡ record { text = codes "a\n"; refusal = Some (Obj (record { line = 2; cause = UnknownKeyword })) } }
    ensures unclosed { answer_so_far echo_rule (codes "a\nbcd") ≡ record { text = codes "a\n"; refusal = Some (Obj (record { line = 2; cause = LongLine })) } }
    ensures long { answer_of_lines echo_rule 5 (codes "a\nb\nc\n") ≡ record { text = codes "a\nb\n"; refusal = Some Long } }
    ensures before { answer_of_lines echo_rule 5 (codes "a\nx\nc\n") ≡ record { text = codes "a\n"; refusal = Some (Obj (record { line = 2; cause = UnknownKeyword })) } }
{}
