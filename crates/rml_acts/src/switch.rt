//! A `switch`.

ghost use Rattle.std.specs.Prelude.{◌≡◌, ◌≢◌, ◌↔◌, ◌+◌, ◌<◌, ◌≤◌, ℕ, IsTrue, List, Some, length};
ghost use Rattle.rml_heap.specs.HeapState.{unset_cell};
ghost use Rattle.rml_heap.specs.Reading.{cell_at};
ghost use Rattle.rml_code.specs.declared.instructions.Instr.TheVariants as instr;
ghost use Rattle.rml_code.specs.Seen as seen;
ghost use Rattle.rml_code.specs.Seen.{Seen, seen_in, only_text, asked, is_same};
ghost use Rattle.rml_code.specs.Effects.{effect, chosen};
ghost use Rattle.rml_acts.specs.Fine.{IsFineTag, AreFineCases};
ghost use Rattle.rml_acts.specs.Sees.{IsTextAt, Sees};
ghost use Rattle.rml_acts.specs.Did.{next_of, IsRight};

use crate::leaving::leave;
use crate::sight::{Sight, see};
use crate::step::Step;
use rml_code::{Case, Else, State, Tag};
use rml_heap::{BLOCK, Cell, Heap, address_of, count_of};

/// Whether so many cells of values are the same as those from another address on, of which there may be fewer.
fn are_same(heap: &Heap, left: u32, right: u32, count: u32) -> bool
    requires inside { left + count ≤ length heap.now.values }
    requires set { (k : ℕ) → k < count → cell_at heap.now.values (left + k) ≢ unset_cell }
    ensures { IsTrue result ↔ ((k : ℕ) → k < count → cell_at heap.now.values (right + k) ≡ cell_at heap.now.values (left + k)) }
{
    let _used = heap.used();
    let top = heap.top();
    for k in 0..count {
        if right >= top - k {
            return false;
        }
        if heap.get(right + k) != heap.get(left + k) {
            return false;
        }
    }
    true
}

/// Whether a cell stands for the text at an address.
fn is_text(heap: &Heap, at: u32, cell: Cell) -> bool
    requires text { (bytes : List ℕ) × IsTextAt heap.now.values at bytes }
    ensures { (bytes : List ℕ) → IsTextAt heap.now.values at bytes → result ≡ is_same (seen.Text bytes) (only_text (seen_in heap.now.values cell)) }
{
    let _used = heap.used();
    let words = (count_of(heap.get(at)) + 7) / 8;
    if cell.kind != BLOCK {
        return false;
    }
    are_same(heap, at, address_of(cell), 1 + words as u32)
}

/// Whether a tag is what is seen.
fn has_tag(state: &State, sight: Sight, tag: Tag) -> bool
    requires sees { (s : Seen) × Sees state.now.heap.values sight s }
    requires there { IsFineTag (length state.now.constants) tag }
    ensures { (s : Seen) → Sees state.now.heap.values sight s → result ≡ is_same s (asked state.now tag) }
{
    match tag {
        Tag::Int(j) => match sight {
            Sight::Int(i) => i == j,
            _ => false,
        },
        Tag::Char(d) => match sight {
            Sight::Char(c) => c == d,
            _ => false,
        },
        Tag::Con(d) => match sight {
            Sight::Con(c) => c == u64::from(d),
            _ => false,
        },
        Tag::Text(i) => match sight {
            Sight::Text(at) => is_text(&state.heap, at, state.constants.get(i)),
            _ => false,
        },
    }
}

/// The first case with the tag that is seen.
pub fn choose(state: &State, a: u64, cases: &[Case], otherwise: Else) -> Step
    requires register { a < length state.now.registers }
    requires there { AreFineCases (length state.now.constants) cases.now }
    requires right { IsRight (effect (instr.Switch a cases.now otherwise) state.now) }
    ensures next { next_of result ≡ (effect (instr.Switch a cases.now otherwise) state.now).next }
    ensures state { state.now ≡ (effect (instr.Switch a cases.now otherwise) state.now).state }
{
    let sight = see(&state.heap, state.registers.get(a));
    for case in cases {
        if has_tag(state, sight, case.tag) {
            return Step::Jump(case.block);
        }
    }
    leave(state, otherwise)
}
