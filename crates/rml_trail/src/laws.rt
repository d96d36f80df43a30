//! What holds of the definitions. These functions do nothing: their contracts are the laws.

ghost use Rattle.std.specs.Prelude.{◌≡◌, ℕ, ◌<◌, ◌≤◌, ◌++◌, ◌∷◌, [], List, length, take, drop, slice_set};
ghost use Rattle.std.specs.List.{AllByRecursion};
ghost use Rattle.rml_heap.specs.declared.cell.Cell.{Cell};
ghost use Rattle.rml_heap.specs.HeapState.{HeapState, unset_cell};
ghost use Rattle.rml_heap.specs.Form.{IsWord, form_of};
ghost use Rattle.rml_heap.specs.Reading.{cell_at};
ghost use Rattle.rml_trail.specs.TrailState.{TrailState, IsContent, IsSet, Fits, unset_all};
ghost use Rattle.rml_trail.specs.Future.{Store, Future};

/// Undoing a set gives what undoing gave before it, undoing twice is undoing both, and undoing below a place is by the cells below it.
pub fn undone()
    ensures set { (es : List ℕ) (at : ℕ) (c : Cell) (cells : List Cell) → cell_at cells at ≡ unset_cell → unset_all (es ++ at ∷ []) (slice_set cells at c) ≡ unset_all es cells }
    ensures twice { (xs ys : List ℕ) (cells : List Cell) → unset_all (xs ++ ys) cells ≡ unset_all xs (unset_all ys cells) }
    ensures below { (n : ℕ) (es : List ℕ) (cells : List Cell) → take n (unset_all es cells) ≡ unset_all es (take n cells) }
{}

/// A trail without entries fits each heap of no greater limit. A trail still fits its heap after cells of values were added, after frames were pushed, written or cut, and after cells of values were
/// taken back that are no entries.
pub fn trails_fit()
    ensures nothing { (heap : HeapState) (limit : ℕ) → heap.limit ≤ limit → Fits (record { entries = []; limit = limit }) heap }
    ensures added { (trail : TrailState) (heap : HeapState) (more : List Cell) → Fits trail heap → Fits trail (record heap { values = heap.values ++ more }) }
    ensures frames { (trail : TrailState) (heap : HeapState) (frames : List Cell) → Fits trail heap → Fits trail (record heap { frames = frames }) }
    ensures taken_back { (trail : TrailState) (heap : HeapState) (top : ℕ) → AllByRecursion (λ e. e < top) trail.entries → Fits trail heap → Fits trail (record heap { values = take top heap.values }) }
{}

/// What comes after a moment: that moment, and what comes after what comes after it. Each step keeps it: a variable is set, the trail is
/// undone to no less than it had then, cells are added, taken back down to no less than there were then, or written above those. And
/// undoing to what the trail had then leads back: the trail and the cells of then are as they were.
pub fn undo_restores()
    ensures same { (s : Store) → Future s s }
    ensures follows { (s t u : Store) → Future s t → Future t u → Future s u }
    ensures set { (s t : Store) (at : ℕ) (c : Cell) → Future s t → IsContent t.cells at → cell_at t.cells at ≡ unset_cell → at < length t.cells → IsWord (form_of c) → Future s (record { cells = slice_set t.cells at c; entries = t.entries ++ at ∷ [] }) }
    ensures undone { (s t : Store) (mark : ℕ) → Future s t → length s.entries ≤ mark → AllByRecursion (IsSet t.cells) t.entries → Future s (record { cells = unset_all (drop mark t.entries) t.cells; entries = take mark t.entries }) }
    ensures added { (s t : Store) (more : List Cell) → Future s t → Future s (record { cells = t.cells ++ more; entries = t.entries }) }
    ensures taken_back { (s t : Store) (top : ℕ) → Future s t → length s.cells ≤ top → Future s (record { cells = take top t.cells; entries = t.entries }) }
    ensures written { (s t : Store) (at : ℕ) (c : Cell) → Future s t → length s.cells ≤ at → Future s (record { cells = slice_set t.cells at c; entries = t.entries }) }
    ensures restored { (s t : Store) → Future s t → (take (length s.entries) t.entries ≡ s.entries) × (take (length s.cells) (unset_all (drop (length s.entries) t.entries) t.cells) ≡ s.cells) }
{}
