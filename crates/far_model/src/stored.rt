//! Examples of `verify` and `apply`, each proved by computing.

ghost use Rattle.std.specs.Prelude.{◌≡◌, [], ◌∷◌, ◌++◌, Some, None, Ok, codes};
ghost use Rattle.far_model.specs.Answer.{answer};
ghost use Rattle.far_model.specs.Command.{Apply, Stored, Verify, read_words};
ghost use Rattle.far_model.specs.ExampleStored.{point_input, small_input, small_points, square_input};
ghost use Rattle.far_model.specs.Words.{command_table, usage_of};
ghost use Rattle.subdiv_model.specs.ExampleTexts.{square_text};
ghost use Rattle.subdiv_model.specs.Fault.{Controls, Differs, Obj, Table};
ghost use Rattle.subdiv_model.specs.ObjFault.{UnknownKeyword};
ghost use Rattle.subdiv_model.specs.TableFault.{Form, Range, Sum};

/// The words of `verify` and `apply`.
pub fn words_of_stored_tables()
    ensures verify { read_words (codes "verify" ∷ codes "depth=10" ∷ []) ≡ Ok (Stored (Verify 10)) }
    ensures apply { read_words (codes "apply" ∷ []) ≡ Ok (Stored Apply) }
    ensures no_depth { usage_of command_table (codes "verify" ∷ []) ≡ Some 1 }
    ensures an_option { usage_of command_table (codes "apply" ∷ codes "depth=1" ∷ []) ≡ Some 1 }
{}

/// `apply` evaluates a table over the points after it, or refuses it.
pub fn tables_over_points()
    ensures small { answer (codes "apply" ∷ []) small_input ≡ record { text = codes "v 1 2 1/4\n"; refusal = None } }
    ensures sum { (answer (codes "apply" ∷ []) (codes "table controls 2 rows 1 entries 2\ns 5 0 3 1 1\n" ++ small_points)).refusal ≡ Some (Table (record { line = 2; cause = Sum })) }
    ensures range { (answer (codes "apply" ∷ []) (codes "table controls 2 rows 1 entries 2\ns 4 1 1 0 3\n" ++ small_points)).refusal ≡ Some (Table (record { line = 2; cause = Range })) }
    ensures few { (answer (codes "apply" ∷ []) (codes "table controls 2 rows 1 entries 2\ns 4 0 3 1 1\nv 0 0 0\n")).refusal ≡ Some (Controls 1) }
    ensures later { (answer (codes "apply" ∷ []) (small_input ++ codes "x\n")).refusal ≡ Some (Obj (record { line = 5; cause = UnknownKeyword })) }
    ensures marked { (answer (codes "apply" ∷ []) (239 ∷ 187 ∷ 191 ∷ small_input)).refusal ≡ Some (Table (record { line = 1; cause = Form })) }
{}

/// `verify` accepts the table of the mesh before it, reports the row that differs, or refuses the text of a table.
pub fn tables_of_meshes()
    ensures same { answer (codes "verify" ∷ codes "depth=1" ∷ []) square_input ≡ record { text = codes "table agrees 9\n"; refusal = None } }
    ensures marked { (answer (codes "verify" ∷ codes "depth=1" ∷ []) (239 ∷ 187 ∷ 191 ∷ square_input)).text ≡ codes "table agrees 9\n" }
    ensures other_depth { (answer (codes "verify" ∷ codes "depth=0" ∷ []) square_input).refusal ≡ Some (Differs 0) }
    ensures other_denominator { (answer (codes "verify" ∷ codes "depth=1" ∷ []) point_input).refusal ≡ Some (Differs 0) }
    ensures none { (answer (codes "verify" ∷ codes "depth=1" ∷ []) square_text).refusal ≡ Some (Table (record { line = 6; cause = Form })) }
    ensures more { (answer (codes "verify" ∷ codes "depth=1" ∷ []) (square_input ++ codes "\n")).refusal ≡ Some (Table (record { line = 16; cause = Form })) }
    ensures mesh_first { (answer (codes "verify" ∷ codes "depth=1" ∷ []) (codes "x\ntable\n")).refusal ≡ Some (Obj (record { line = 1; cause = UnknownKeyword })) }
{}
