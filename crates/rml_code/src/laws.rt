//! What holds of the meaning of code. These functions do nothing: their contracts are the laws.

ghost use Rattle.std.specs.Prelude.{◌≡◌, ◌&&◌, ◌<◌, ◌≤◌, ◌++◌, IsTrue, ℕ, suc, ◌+◌, ◌-◌, ◌^◌, ℤ, List, [], ◌∷◌, length, Some, None, Ok, option_and_then, slice_get, if◌then◌else◌};
ghost use Rattle.rml_base.specs.Run as run;
ghost use Rattle.rml_base.specs.Run.{bare};
ghost use Rattle.rml_base.specs.Monotone.{IsMonotone};
ghost use Rattle.rml_value.specs.declared.value.Value.{Value};
ghost use Rattle.rml_value.specs.Same.{same};
ghost use Rattle.rml_builtin.specs.declared.row.TheConstants.{ROWS};
ghost use Rattle.rml_builtin.specs.declared.row.Row.{Row};
ghost use Rattle.rml_builtin.specs.Applied.{Store};
ghost use Rattle.rml_builtin.specs.BuiltIns.{apply};
ghost use Rattle.rml_heap.specs.declared.cell.Cell.{Cell};
ghost use Rattle.rml_heap.specs.declared.heap.TheConstants.{MOST_CELLS};
ghost use Rattle.rml_heap.specs.Form.{form_of};
ghost use Rattle.rml_heap.specs.HeapState.{HeapState};
ghost use Rattle.rml_heap.specs.Reading.{word_of};
ghost use Rattle.rml_prims.specs.Shapes.{cons_head};
ghost use Rattle.rml_code.specs.declared.instructions.Word.{Word};
ghost use Rattle.rml_code.specs.declared.instructions.Else.{Else};
ghost use Rattle.rml_code.specs.declared.instructions.Case.{Case};
ghost use Rattle.rml_code.specs.declared.instructions.Halt.TheVariants as halt;
ghost use Rattle.rml_code.specs.declared.instructions.Instr.{Instr};
ghost use Rattle.rml_code.specs.declared.instructions.Instr.TheVariants as instr;
ghost use Rattle.rml_code.specs.declared.listing.Listing.{Listing};
ghost use Rattle.rml_code.specs.declared.state.State.{State};
ghost use Rattle.rml_code.specs.Frames.{register, constant, put, registers_of, success_frame, failure_frame, Failure, success_at, failure_at, label_at};
ghost use Rattle.rml_prims.specs.Standing.{value_in, values_in, store_in};
ghost use Rattle.rml_code.specs.Seen.{Seen, seen_in};
ghost use Rattle.rml_code.specs.Stretch.{then_turn};
ghost use Rattle.rml_code.specs.Effects.{behind, otherwise, word_cell, con_head, tuple_head, with_block, part_of, saves, guards, resumed, retried, ends_with, switches, entry_in, effect};
ghost use Rattle.rml_code.specs.Turns.{hops, turn, turns};
ghost use Rattle.rml_code.specs.Fits.{constants_fit, blocks_fit, ends_fit, is_small, is_light};
ghost use Rattle.rml_code.specs.Opening.{opening};
ghost use Rattle.rml_code.specs.Runs.{machine, run_of, runs_of};
ghost use Rattle.rml_code.specs.Sample.{sample, whole, cut_short, too_narrow, not_opened};
ghost use Rattle.rml_code.specs.Remaining.{shown, remains, at_block, at_turn, comes_of, weigh_if_room};

/// An end is stable: with more turns it stays, and what is cut only goes on.
pub fn ends_are_stable()
    ensures { (l : Listing) (args : List (List ℕ)) (cells : ℕ) → IsMonotone (runs_of l args cells) }
{}

/// Turns and then more turns are as many turns together.
pub fn turns_add_up()
    ensures { (blocks : List (List Instr)) (m n b : ℕ) (s : State) → then_turn (turns blocks m b s) (turns blocks n) ≡ turns blocks (m + n) b s }
{}

/// A turn ends: with more direct jumps than there are blocks it is the same, since each goes to a greater block.
pub fn turns_end()
    ensures { (l : Listing) → IsTrue (blocks_fit l) → (more b : ℕ) (s : State) → hops l.blocks (length l.blocks + more) b s ≡ turn l.blocks b s }
{}

/// What remains of a run is what the first instruction does, and then what remains behind it, at the block that it jumps to, or after a
/// turn. A block that is there goes on with its instructions, and turns begin with a turn.
pub fn what_remains()
    ensures first { (blocks : List (List Instr)) (k : ℕ) (i : Instr) (rest : List Instr) (s : State) (n : ℕ) → remains blocks k (i ∷ rest) s n ≡ comes_of blocks k rest (effect i s) n }
    ensures block { (blocks : List (List Instr)) (k b : ℕ) (instrs : List Instr) (s : State) (n : ℕ) → slice_get blocks b ≡ Some instrs → at_block blocks (suc k) b s n ≡ remains blocks k instrs s n }
    ensures turn { (blocks : List (List Instr)) (b : ℕ) (s : State) (n : ℕ) → shown (turns blocks n b s) ≡ at_turn blocks b s n }
{}

/// What remains of a run, by the instruction that comes first, where what it leads to is there.
pub fn instructions_act()
    ensures moves { (blocks : List (List Instr)) (k : ℕ) (rest : List Instr) (s : State) (n a b : ℕ)
        → remains blocks k (instr.Move a b ∷ rest) s n ≡ remains blocks k rest (put a (register s b) s) n }
    ensures words { (blocks : List (List Instr)) (k : ℕ) (rest : List Instr) (s : State) (n a : ℕ) (w : Word)
        → remains blocks k (instr.Word a w ∷ rest) s n ≡ remains blocks k rest (put a (word_cell w) s) n }
    ensures constants { (blocks : List (List Instr)) (k : ℕ) (rest : List Instr) (s : State) (n a i : ℕ)
        → remains blocks k (instr.Const a i ∷ rest) s n ≡ remains blocks k rest (put a (constant s i) s) n }
    ensures fields { (blocks : List (List Instr)) (k : ℕ) (rest : List Instr) (s : State) (n a b i : ℕ) (c : Cell) → part_of s.heap.values i (register s b) ≡ Some c
        → remains blocks k (instr.Field a b i ∷ rest) s n ≡ remains blocks k rest (put a c s) n }
    ensures constructors { (blocks : List (List Instr)) (k : ℕ) (rest : List Instr) (s : State) (n a c : ℕ) (rs : List ℕ) → let cells = con_head c (length rs) ∷ registers_of rs s in
        remains blocks k (instr.Con a c rs ∷ rest) s n ≡ weigh_if_room (length cells) s (remains blocks k rest (with_block a cells s) n) }
    ensures tuples { (blocks : List (List Instr)) (k : ℕ) (rest : List Instr) (s : State) (n a : ℕ) (rs : List ℕ) → let cells = tuple_head (length rs) ∷ registers_of rs s in
        remains blocks k (instr.Tuple a rs ∷ rest) s n ≡ weigh_if_room (length cells) s (remains blocks k rest (with_block a cells s) n) }
    ensures lists { (blocks : List (List Instr)) (k : ℕ) (rest : List Instr) (s : State) (n a b c : ℕ) → let cells = cons_head ∷ register s b ∷ register s c ∷ [] in
        remains blocks k (instr.Cons a b c ∷ rest) s n ≡ weigh_if_room (length cells) s (remains blocks k rest (with_block a cells s) n) }
    ensures saves { (blocks : List (List Instr)) (k : ℕ) (rest : List Instr) (s : State) (n b : ℕ) (rs : List ℕ)
        → remains blocks k (instr.Save b rs ∷ rest) s n ≡ weigh_if_room (3 + length rs) s (remains blocks k rest (saves (success_frame b (registers_of rs s) s) s) n) }
    ensures guards { (blocks : List (List Instr)) (k : ℕ) (rest : List Instr) (s : State) (n b : ℕ) (rs : List ℕ)
        → remains blocks k (instr.Guard b rs ∷ rest) s n ≡ weigh_if_room (5 + length rs) s (remains blocks k rest (guards (failure_frame b (registers_of rs s) s) s) n) }
    ensures resumes { (blocks : List (List Instr)) (k : ℕ) (rest : List Instr) (s : State) (n : ℕ) (rs : List ℕ) (t : State) → option_and_then (resumed rs s) (success_at s.success s.heap) ≡ Some t
        → remains blocks k (instr.Resume rs ∷ rest) s n ≡ remains blocks k rest t n }
    ensures retries { (blocks : List (List Instr)) (k : ℕ) (rest : List Instr) (s : State) (n : ℕ) (rs : List ℕ) (t : State) → option_and_then (retried rs s) (failure_at s.failure s.heap) ≡ Some t
        → remains blocks k (instr.Retry rs ∷ rest) s n ≡ remains blocks k rest t n }
    ensures drops { (blocks : List (List Instr)) (k : ℕ) (rest : List Instr) (s : State) (n : ℕ) (kept : Failure) → failure_at s.failure s.heap ≡ Some kept
        → remains blocks k (instr.Drop ∷ rest) s n ≡ remains blocks k rest (record s { failure = kept.failure }) n }
    ensures built_ins { (blocks : List (List Instr)) (k : ℕ) (rest : List Instr) (s : State) (n b : ℕ) (rs ys : List ℕ) (e : Else) (row : Row) (vs : List Value) (store : Store)
        → slice_get ROWS b ≡ Some row → values_in s.heap.values (registers_of rs s) ≡ Some vs → store_in s.heap.values ≡ Some store
        → remains blocks k (instr.Builtin b rs ys e ∷ rest) s n ≡ comes_of blocks k rest (ends_with ys row (registers_of rs s) e (apply row vs store) s) n }
    ensures equals { (blocks : List (List Instr)) (k : ℕ) (rest : List Instr) (s : State) (n a b : ℕ) (e : Else) (v w : Value)
        → value_in s.heap.values (register s a) ≡ Some v → value_in s.heap.values (register s b) ≡ Some w
        → remains blocks k (instr.Equal a b e ∷ rest) s n ≡ comes_of blocks k rest (if same v w then behind s else otherwise e s) n }
    ensures choices { (blocks : List (List Instr)) (k : ℕ) (rest : List Instr) (s : State) (n a : ℕ) (cases : List Case) (e : Else) (seen : Seen) → seen_in s.heap.values (register s a) ≡ Some seen
        → remains blocks k (instr.Switch a cases e ∷ rest) s n ≡ comes_of blocks k rest (switches cases e s seen) n }
    ensures gotos { (blocks : List (List Instr)) (k : ℕ) (rest : List Instr) (s : State) (n b : ℕ) → remains blocks k (instr.Goto b ∷ rest) s n ≡ at_block blocks k b s n }
    ensures calls { (blocks : List (List Instr)) (k : ℕ) (rest : List Instr) (s : State) (n b : ℕ) → remains blocks k (instr.Call b ∷ rest) s n ≡ at_turn blocks b s n }
    ensures calls_of_values { (blocks : List (List Instr)) (k : ℕ) (rest : List Instr) (s : State) (n a b : ℕ) → entry_in (form_of (register s a)) ≡ Some b
        → remains blocks k (instr.CallRegister a ∷ rest) s n ≡ at_turn blocks b s n }
    ensures answers { (blocks : List (List Instr)) (k : ℕ) (rest : List Instr) (s : State) (n b : ℕ) → label_at s.success s.heap ≡ Some b → remains blocks k (instr.Answer ∷ rest) s n ≡ at_turn blocks b s n }
    ensures fails { (blocks : List (List Instr)) (k : ℕ) (rest : List Instr) (s : State) (n b : ℕ) → label_at s.failure s.heap ≡ Some b → remains blocks k (instr.Fail ∷ rest) s n ≡ at_turn blocks b s n }
    ensures yes { (blocks : List (List Instr)) (k : ℕ) (rest : List Instr) (s : State) (n : ℕ) → remains blocks k (instr.Halt halt.Yes ∷ rest) s n ≡ bare (run.Answer None) }
    ensures integers { (blocks : List (List Instr)) (k : ℕ) (rest : List Instr) (s : State) (n : ℕ) (i : ℤ) → word_of (register s 0) ≡ Some i
        → remains blocks k (instr.Halt halt.Integer ∷ rest) s n ≡ bare (run.Answer (Some i)) }
    ensures no { (blocks : List (List Instr)) (k : ℕ) (rest : List Instr) (s : State) (n : ℕ) → remains blocks k (instr.Halt halt.No ∷ rest) s n ≡ bare run.Failure }
{}

/// A frame is read as it was pushed, whatever was pushed after it: what it keeps, what was saved with the frames that stand before it, and its
/// label.
pub fn frames_are_read()
    ensures successes { (heap : HeapState) (above saved before : List Cell) (label : ℕ) (s : State) → s.success < 2 ^ 32 → s.failure < 2 ^ 32
        → heap.frames ≡ above ++ (success_frame label saved s ++ before) → length heap.frames ≤ heap.limit
        → success_at (heap.limit - length (success_frame label saved s ++ before)) heap ≡ Some (record { success = s.success; failure = s.failure; rest = saved ++ before }) }
    ensures failures { (heap : HeapState) (above saved before : List Cell) (label : ℕ) (s : State)
        → length s.trail.entries < 2 ^ 32 → length s.heap.values < 2 ^ 32 → s.success < 2 ^ 32 → s.failure < 2 ^ 32
        → heap.frames ≡ above ++ (failure_frame label saved s ++ before) → length heap.frames ≤ heap.limit
        → failure_at (heap.limit - length (failure_frame label saved s ++ before)) heap
        ≡ Some (record { mark = length s.trail.entries; top = length s.heap.values; success = s.success; failure = s.failure; rest = saved ++ before }) }
    ensures success_labels { (heap : HeapState) (above saved before : List Cell) (label : ℕ) (s : State)
        → heap.frames ≡ above ++ (success_frame label saved s ++ before) → length heap.frames ≤ heap.limit → label_at (heap.limit - length (success_frame label saved s ++ before)) heap ≡ Some label }
    ensures failure_labels { (heap : HeapState) (above saved before : List Cell) (label : ℕ) (s : State)
        → heap.frames ≡ above ++ (failure_frame label saved s ++ before) → length heap.frames ≤ heap.limit → label_at (heap.limit - length (failure_frame label saved s ++ before)) heap ≡ Some label }
{}

/// A run has no greater limit than `MOST_CELLS`: a greater one is read as this. The opening has the limit that it is given, and turns keep it,
/// so no state of a run has a greater one, and each address that a frame keeps is read as it was written.
pub fn limits_are_kept()
    ensures within { (l : Listing) (args : List (List ℕ)) (limit n : ℕ) → limit ≤ MOST_CELLS → runs_of l args limit n ≡ run_of (machine l args limit n) }
    ensures beyond { (l : Listing) (args : List (List ℕ)) (limit n : ℕ) → MOST_CELLS ≤ limit → runs_of l args limit n ≡ runs_of l args MOST_CELLS n }
    ensures begun { (l : Listing) (args : List (List ℕ)) (limit : ℕ) (s : State) → opening l args limit ≡ Ok s → s.heap.limit ≡ limit }
    ensures kept { (blocks : List (List Instr)) (n b : ℕ) (s : State) → (turns blocks n b s).state.heap.limit ≡ s.heap.limit }
{}

/// What a few runs give, of code that is written by hand.
pub fn examples()
    ensures whole { machine sample [] 19 5 ≡ whole }
    ensures cut_short { machine sample [] 19 3 ≡ cut_short }
    ensures too_narrow { machine sample [] 18 5 ≡ too_narrow }
    ensures not_opened { machine sample [] 7 5 ≡ not_opened }
    ensures fits { IsTrue (constants_fit sample && blocks_fit sample && ends_fit sample && is_small sample && is_light sample) }
{}
