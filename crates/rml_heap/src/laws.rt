//! What holds of the definitions. These functions do nothing: their contracts are the laws.

ghost use Rattle.std.specs.Prelude.{◌≡◌, ◌≢◌, ℕ, ℤ, suc, ◌+◌, ◌<◌, ◌≤◌, ◌++◌, List, [], ◌∷◌, Some, None, pos, length, take, slice_index, slice_set};
ghost use Rattle.rml_value.specs.declared.value.Value.{Value};
ghost use Rattle.rml_value.specs.declared.value.Value.TheVariants as value;
ghost use Rattle.rml_value.specs.Lists.{list_of};
ghost use Rattle.rml_heap.specs.Sample.{cell, block, sample};
ghost use Rattle.rml_heap.specs.declared.cell.Cell.{Cell};
ghost use Rattle.rml_heap.specs.declared.cell.TheConstants.{INT, CHAR, REL, BLOCK, CON, TEXT, CON_BLOCK, TUPLE, CONS_BLOCK, LVAR, UNSET, VECTOR};
ghost use Rattle.rml_heap.specs.Form as form;
ghost use Rattle.rml_heap.specs.Form.{form_of, natural, bare, char_form, rel_form, con_form};
ghost use Rattle.rml_heap.specs.Reading.{cell_at, value_below};
ghost use Rattle.rml_heap.specs.Text.{words_for, packed, text_of};
ghost use Rattle.rml_heap.specs.Agrees.{Agrees};

/// Each kind has the meaning that its constant says.
pub fn kinds()
    ensures int { form.form INT ≡ form.Int }
    ensures char { form.form CHAR ≡ natural char_form }
    ensures rel { form.form REL ≡ natural rel_form }
    ensures block { form.form BLOCK ≡ natural form.Block }
    ensures con { form.form CON ≡ natural form.Con }
    ensures text { form.form TEXT ≡ natural form.Text }
    ensures con_block { form.form CON_BLOCK ≡ natural con_form }
    ensures tuple { form.form TUPLE ≡ natural form.Tuple }
    ensures cons_block { form.form CONS_BLOCK ≡ bare form.ConsBlock }
    ensures lvar { form.form LVAR ≡ bare form.Lvar }
    ensures unset { form.form UNSET ≡ bare form.Unset }
    ensures vector { form.form VECTOR ≡ natural form.Vector }
    ensures other { (kind : ℕ) (number : ℤ) → form.form (12 + kind) number ≡ form.Other }
{}

/// A cell stands for one value, whatever the depth at which it is read, and it keeps it while the cells below the top agree, and below
/// each higher top.
pub fn values_stay()
    ensures one { (depth other : ℕ) (cells : List Cell) (names : List ℕ) (top : ℕ) (c : Cell) (v w : Value) → value_below depth cells names top c ≡ Some v → value_below other cells names top c ≡ Some w → v ≡ w }
    ensures deeper { (more depth : ℕ) (cells : List Cell) (names : List ℕ) (top : ℕ) (c : Cell) (v : Value) → value_below depth cells names top c ≡ Some v → value_below (more + depth) cells names top c ≡ Some v }
    ensures higher { (depth : ℕ) (cells : List Cell) (names : List ℕ) (low top : ℕ) (c : Cell) (v : Value) → low ≤ top → value_below depth cells names low c ≡ Some v → value_below depth cells names top c ≡ Some v }
    ensures agrees { (depth : ℕ) (before : List Cell) (names : List ℕ) (after : List Cell) (names_after : List ℕ) (top : ℕ) → Agrees top before names after names_after → (c : Cell) (v : Value) → value_below depth before names top c ≡ Some v → value_below depth after names_after top c ≡ Some v }
{}

/// What is read of a few cells: each kind of block, and what is no value. The names are those of one variable, at the address 5.
pub fn examples()
    ensures text { value_below 1 sample (5 ∷ []) 22 (block 0) ≡ Some (value.Text (97 ∷ 98 ∷ [])) }
    ensures list { value_below 2 sample (5 ∷ []) 22 (block 2) ≡ Some (list_of (value.Text (97 ∷ 98 ∷ []) ∷ [])) }
    ensures variable { value_below 1 sample (5 ∷ []) 22 (block 5) ≡ Some (value.Cell 0) }
    ensures vector { value_below 2 sample (5 ∷ []) 22 (block 7) ≡ Some (value.Vector (value.Int (pos 7) ∷ value.Cell 0 ∷ [])) }
    ensures some { value_below 3 sample (5 ∷ []) 22 (block 10) ≡ Some (value.Con 5 (list_of (value.Text (97 ∷ 98 ∷ []) ∷ []) ∷ [])) }
    ensures tuple { value_below 2 sample (5 ∷ []) 22 (block 12) ≡ Some (value.Tuple (value.Char 65 ∷ value.Rel 0 ∷ [])) }
    ensures no_depth { value_below 1 sample (5 ∷ []) 22 (block 2) ≡ None }
    ensures above_top { value_below 3 sample (5 ∷ []) 11 (block 10) ≡ None }
    ensures no_name { value_below 1 sample [] 22 (block 5) ≡ None }
    ensures cons_as_constructor { value_below 3 sample (5 ∷ []) 22 (block 15) ≡ None }
    ensures byte_too_many { value_below 3 sample (5 ∷ []) 22 (block 18) ≡ None }
    ensures part_of_itself { value_below 9 sample (5 ∷ []) 22 (block 20) ≡ None }
    ensures content { value_below 1 sample (5 ∷ []) 22 (cell UNSET 0) ≡ None }
{}

/// A text's words are read back as its bytes.
pub fn texts_are_read()
    ensures { (bytes : List ℕ) → ((i : ℕ) → slice_index bytes i < 256) → text_of (length bytes) (packed (words_for (length bytes)) bytes) ≡ Some bytes }
{}

/// What the cells below a top agree with: cells added, a write at the top or above it, cells taken back down to the top or above it, a
/// logical variable's content set or unset, and names added. What is done to frames does not touch the values.
pub fn cells_agree()
    ensures added { (top : ℕ) (cells more : List Cell) (names : List ℕ) → top ≤ length cells → Agrees top cells names (cells ++ more) names }
    ensures written { (top : ℕ) (cells : List Cell) (names : List ℕ) (at : ℕ) (c : Cell) → top ≤ at → Agrees top cells names (slice_set cells at c) names }
    ensures taken_back { (top : ℕ) (cells : List Cell) (names : List ℕ) (n : ℕ) → top ≤ n → Agrees top cells names (take n cells) names }
    ensures content { (top : ℕ) (cells : List Cell) (names : List ℕ) (at : ℕ) (c : Cell) → form_of (cell_at cells at) ≡ form.Lvar → suc at < length cells → form_of (cell_at cells (suc at)) ≢ form.Lvar → form_of c ≢ form.Lvar → Agrees top cells names (slice_set cells (suc at) c) names }
    ensures named { (top : ℕ) (cells : List Cell) (names more : List ℕ) → Agrees top cells names cells (names ++ more) }
{}
