//! Texts in cells.

ghost use Rattle.std.specs.Prelude.{◌≡◌, ◌+◌, ◌≤◌, ◌++◌, length, slice_index};
ghost use Rattle.rml_heap.specs.HeapState.{HasRoom};
ghost use Rattle.rml_heap.specs.Text.{words_for, word_of_bytes, text_cells};

use crate::cell::{Cell, INT, TEXT};
use crate::heap::Heap;

/// A byte, or 0 where there is none.
fn byte_at(bytes: &[u8], i: usize) -> u8
    ensures { result ≡ slice_index bytes.now i }
{
    if i < bytes.len() { bytes[i] } else { 0 }
}

/// The first eight bytes as a word, the first the lowest. Bytes that are not there are 0.
fn word_of(bytes: &[u8]) -> i64
    ensures { result ≡ word_of_bytes bytes.now }
{
    let mut word = [0u8; 8];
    for i in 0..8 {
        word[i] = byte_at(bytes, i);
    }
    i64::from_le_bytes(word)
}

/// Hands out the cells of a text, from the next address of values on: its head, and its bytes, eight in a cell.
pub fn add_text(heap: &mut Heap, bytes: &[u8])
    requires { HasRoom heap.old (1 + words_for (length bytes.now)) }
    ensures { heap.new ≡ record heap.old { values = heap.old.values ++ text_cells bytes.now } }
{
    let _used = heap.used();
    heap.add(Cell {
        kind: TEXT,
        number: bytes.len() as i64,
    });
    for i in 0..(bytes.len() + 7) / 8 {
        heap.add(Cell {
            kind: INT,
            number: word_of(&bytes[8 * i..]),
        });
    }
}
