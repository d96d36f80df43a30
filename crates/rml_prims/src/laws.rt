//! What holds of the definitions. These functions do nothing: their contracts are the laws.

ghost use Rattle.std.specs.Prelude.{◌≡◌, ◌≢◌, ◌↔◌, ℕ, ℤ, suc, ◌+◌, ◌<◌, ◌++◌, false, List, [], ◌∷◌, Some, None, length, slice_get, slice_index, slice_set};
ghost use Rattle.rml_value.specs.declared.value.Value.{Value};
ghost use Rattle.rml_value.specs.declared.value.Value.TheVariants as value;
ghost use Rattle.rml_value.specs.declared.value.TheConstants.{CONS};
ghost use Rattle.rml_builtin.specs.declared.row.Row.TheVariants as rows;
ghost use Rattle.rml_builtin.specs.Applied.{Store};
ghost use Rattle.rml_heap.specs.declared.cell.Cell.{Cell};
ghost use Rattle.rml_heap.specs.HeapState.{lvar_head, unset_cell};
ghost use Rattle.rml_heap.specs.Form as form;
ghost use Rattle.rml_heap.specs.Form.{form_of};
ghost use Rattle.rml_heap.specs.Text.{text_cells};
ghost use Rattle.rml_heap.specs.Reading.{AllStand, Stands, cell_at, form_before};
ghost use Rattle.rml_prims.specs.Shapes.{block_cell, cons_head, int_cell};
ghost use Rattle.rml_prims.specs.Binds.{Binds};
ghost use Rattle.rml_prims.specs.Standing.{NoHeads, is_lvar, lvars_from, lvars_in, store_in, value_in, values_in};
ghost use Rattle.rml_prims.specs.Exact.{CanRun};

/// The logical variables of no cells, of cells to which more were added, of cells in which one was made, and of cells in which one was
/// set.
pub fn bindings_follow()
    ensures nothing { Binds [] [] [] }
    ensures added { (cells more : List Cell) (names : List ℕ) (store : Store) → form_before (cells ++ more) (length (cells ++ more)) ≢ form.Lvar → Binds cells names store → Binds (cells ++ more) names store }
    ensures made { (cells : List Cell) (names : List ℕ) (store : Store) → Binds cells names store → Binds (cells ++ lvar_head ∷ unset_cell ∷ []) (names ++ length cells ∷ []) (store ++ None ∷ []) }
    ensures set { (cells : List Cell) (names : List ℕ) (store : Store) (k at : ℕ) (c : Cell) (v : Value) → Binds cells names store → slice_get names k ≡ Some at → slice_get store k ≡ Some None → Stands cells names (length cells) c v → Binds (slice_set cells (suc at) c) names (slice_set store k (Some v)) }
{}

/// A text that is placed stands for its bytes, and a `::` for its head and its tail; neither is taken for the content of a logical
/// variable, nor makes what is placed next be taken for one.
pub fn placed_cells_stand()
    ensures text { (cells : List Cell) (names bytes : List ℕ) → form_before cells (length cells) ≢ form.Lvar → ((i : ℕ) → slice_index bytes i < 256) → Stands (cells ++ text_cells bytes) names (length (cells ++ text_cells bytes)) (block_cell (length cells)) (value.Text bytes) }
    ensures text_last { (cells : List Cell) (bytes : List ℕ) → form_before (cells ++ text_cells bytes) (length (cells ++ text_cells bytes)) ≢ form.Lvar }
    ensures cons { (cells : List Cell) (names : List ℕ) (head tail : Cell) (v w : Value) → form_before cells (length cells) ≢ form.Lvar → Stands cells names (length cells) head v → Stands cells names (length cells) tail w → Stands (cells ++ cons_head ∷ head ∷ tail ∷ []) names (length (cells ++ cons_head ∷ head ∷ tail ∷ [])) (block_cell (length cells)) (value.Con CONS (v ∷ w ∷ [])) }
    ensures cons_last { (cells : List Cell) (names : List ℕ) (head tail : Cell) (v w : Value) → Stands cells names (length cells) head v → Stands cells names (length cells) tail w → form_before (cells ++ cons_head ∷ head ∷ tail ∷ []) (length (cells ++ cons_head ∷ head ∷ tail ∷ [])) ≢ form.Lvar }
{}

/// Which logical variables cells have, by the addresses of their heads: the same where cells of other blocks are added and where a content
/// is written, and one more where one is made. Those of the first cells come first.
pub fn variables_are_found()
    ensures first { (cells more : List Cell) → lvars_in (cells ++ more) ≡ lvars_in cells ++ lvars_from (0 + length cells) more }
    ensures added { (cells more : List Cell) → NoHeads more → lvars_in (cells ++ more) ≡ lvars_in cells }
    ensures made { (cells : List Cell) → lvars_in (cells ++ lvar_head ∷ unset_cell ∷ []) ≡ lvars_in cells ++ length cells ∷ [] }
    ensures written { (at : ℕ) (c : Cell) (cells : List Cell) → is_lvar (form_of (cell_at cells at)) ≡ false → is_lvar (form_of c) ≡ false → lvars_in (slice_set cells at c) ≡ lvars_in cells }
{}

/// What cells are read as, all of them together, is what stands in them: the value of a cell, those of some cells, and the store, where the
/// logical variables are named by the addresses of their heads, from the lowest.
pub fn what_is_read_stands()
    ensures value { (cells : List Cell) (c : Cell) (v : Value) → (value_in cells c ≡ Some v) ↔ Stands cells (lvars_in cells) (length cells) c v }
    ensures values { (cells cs : List Cell) (vs : List Value) → (values_in cells cs ≡ Some vs) ↔ AllStand cells (lvars_in cells) (length cells) cs vs }
    ensures store { (cells : List Cell) (store : Store) → (store_in cells ≡ Some store) ↔ Binds cells (lvars_in cells) store }
{}

/// There are cells on which a row can be run: a sum of no cells, a logical variable that is made among none, and one that is set.
pub fn premises_are_met()
    ensures sum { (m n : ℤ) (c : Cell) → CanRun rows.IntAdd [] (int_cell m ∷ int_cell n ∷ []) (c ∷ []) }
    ensures made { (c : Cell) → CanRun rows.LvarNew [] [] (c ∷ []) }
    ensures set { (n : ℤ) → CanRun rows.LvarSet (lvar_head ∷ unset_cell ∷ []) (block_cell 0 ∷ int_cell n ∷ []) [] }
{}
