//! The rules by which instructions implement lines of continuation form. These functions do nothing: their contracts are the laws.

ghost use Rattle.std.specs.Prelude.{ℕ, List, Option};
ghost use Rattle.rml_value.specs.declared.value.Value.{Value};
ghost use Rattle.rml_fol.specs.Expressions.{Vals};
ghost use Rattle.rml_cps.specs.Statements.{RelationActs};
ghost use Rattle.rml_code.specs.declared.instructions.Instr.{Instr};
ghost use Rattle.rml_implements.specs.Rules.{PackRule, MoveRule, LoadRule, DropRule, GotoRule, FewerRule, SuccessRule, FailureRule, EnterRule, BodyRule, FieldRule, SameRule, CallRule, AnswerRule, FailRule, HandRule, SaveRule, GuardRule, WordRule, ConstRule, CallValueRule};

/// What holds whatever the lines are.
pub fn instructions_alone()
    ensures moves { (vals : Vals) (calls : RelationActs) (rels registers : ℕ) (constants : ℕ → Option Value) (blocks : List (List Instr)) → MoveRule vals calls rels registers constants blocks }
    ensures loads { (vals : Vals) (calls : RelationActs) (rels registers : ℕ) (constants : ℕ → Option Value) (blocks : List (List Instr)) → LoadRule vals calls rels registers constants blocks }
    ensures packs { (vals : Vals) (calls : RelationActs) (rels registers : ℕ) (constants : ℕ → Option Value) (blocks : List (List Instr)) → PackRule vals calls rels registers constants blocks }
    ensures drops { (vals : Vals) (calls : RelationActs) (rels registers : ℕ) (constants : ℕ → Option Value) (blocks : List (List Instr)) → DropRule vals calls rels registers constants blocks }
    ensures goes { (vals : Vals) (calls : RelationActs) (rels registers : ℕ) (constants : ℕ → Option Value) (blocks : List (List Instr)) → GotoRule vals calls rels registers constants blocks }
    ensures fewer { (vals : Vals) (calls : RelationActs) (rels registers : ℕ) (constants : ℕ → Option Value) (blocks : List (List Instr)) → FewerRule vals calls rels registers constants blocks }
{}

/// What lines come to that need no instruction.
pub fn lines_alone()
    ensures successes { (vals : Vals) (calls : RelationActs) (rels registers : ℕ) (constants : ℕ → Option Value) (blocks : List (List Instr)) → SuccessRule vals calls rels registers constants blocks }
    ensures failures { (vals : Vals) (calls : RelationActs) (rels registers : ℕ) (constants : ℕ → Option Value) (blocks : List (List Instr)) → FailureRule vals calls rels registers constants blocks }
    ensures enters { (vals : Vals) (calls : RelationActs) (rels registers : ℕ) (constants : ℕ → Option Value) (blocks : List (List Instr)) → EnterRule vals calls rels registers constants blocks }
    ensures bodies { (vals : Vals) (calls : RelationActs) (rels registers : ℕ) (constants : ℕ → Option Value) (blocks : List (List Instr)) → BodyRule vals calls rels registers constants blocks }
    ensures fields { (vals : Vals) (calls : RelationActs) (rels registers : ℕ) (constants : ℕ → Option Value) (blocks : List (List Instr)) → FieldRule vals calls rels registers constants blocks }
    ensures same { (vals : Vals) (calls : RelationActs) (rels registers : ℕ) (constants : ℕ → Option Value) (blocks : List (List Instr)) → SameRule vals calls rels registers constants blocks }
{}

/// How a block ends.
pub fn ends_of_blocks()
    ensures calls { (vals : Vals) (calls : RelationActs) (rels registers : ℕ) (constants : ℕ → Option Value) (blocks : List (List Instr)) → CallRule vals calls rels registers constants blocks }
    ensures answers { (vals : Vals) (calls : RelationActs) (rels registers : ℕ) (constants : ℕ → Option Value) (blocks : List (List Instr)) → AnswerRule vals calls rels registers constants blocks }
    ensures fails { (vals : Vals) (calls : RelationActs) (rels registers : ℕ) (constants : ℕ → Option Value) (blocks : List (List Instr)) → FailRule vals calls rels registers constants blocks }
    ensures hands { (vals : Vals) (calls : RelationActs) (rels registers : ℕ) (constants : ℕ → Option Value) (blocks : List (List Instr)) → HandRule vals calls rels registers constants blocks }
{}

/// Frames are pushed, and taken up at their labels.
pub fn frames()
    ensures saves { (vals : Vals) (calls : RelationActs) (rels registers : ℕ) (constants : ℕ → Option Value) (blocks : List (List Instr)) → SaveRule vals calls rels registers constants blocks }
    ensures guards { (vals : Vals) (calls : RelationActs) (rels registers : ℕ) (constants : ℕ → Option Value) (blocks : List (List Instr)) → GuardRule vals calls rels registers constants blocks }
{}

/// A variable stands for a value of one cell or for a constant; and a call of a relation that a variable stands for.
pub fn cells_alone()
    ensures words { (vals : Vals) (calls : RelationActs) (rels registers : ℕ) (constants : ℕ → Option Value) (blocks : List (List Instr)) → WordRule vals calls rels registers constants blocks }
    ensures constants { (vals : Vals) (calls : RelationActs) (rels registers : ℕ) (constants : ℕ → Option Value) (blocks : List (List Instr)) → ConstRule vals calls rels registers constants blocks }
    ensures calls_of_values { (vals : Vals) (calls : RelationActs) (rels registers : ℕ) (constants : ℕ → Option Value) (blocks : List (List Instr)) → CallValueRule vals calls rels registers constants blocks }
{}
