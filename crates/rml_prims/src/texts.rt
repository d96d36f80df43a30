//! Texts in cells: a head with the count of bytes, and the bytes, packed eight in a cell.

ghost use Rattle.std.specs.Prelude.{ℕ, ◌≡◌, ◌<◌, ◌*◌, ◌/◌, ◌^◌, List, drop, slice_index};
ghost use Rattle.std.specs.Int.{w64, from_le_bytes};
ghost use Rattle.rml_heap.specs.Text.{word_of_bytes, words_for as words_for_bytes};
ghost use Rattle.rml_heap.specs.declared.cell.Cell.{Cell};
ghost use Rattle.rml_prims.specs.Shapes.{IsText};

use rml_heap::{Cell, Heap, address_of, count_of};

/// How many words so many bytes take.
pub fn words_for(bytes: u32) -> u32
    requires { bytes < 2 ^ 31 }
    ensures { result ≡ words_for_bytes bytes }
{
    (bytes + 7) / 8
}

/// A text in cells: the address of its head, and how many bytes it has.
#[derive(Clone, Copy)]
pub struct TextBlock {
    pub at: u32,
    pub size: u32,
}

/// The text that a cell stands for.
pub fn text_of(heap: &Heap, cell: Cell) -> TextBlock
    requires { (at size : ℕ) × (bytes : List ℕ) × IsText heap.now.values cell at size bytes }
    ensures { (bytes : List ℕ) × IsText heap.now.values cell result.at result.size bytes }
{
    let _used = heap.used();
    let at = address_of(cell);
    let size = count_of(heap.get(at)) as u32;
    TextBlock { at, size }
}

/// The word of a text in which a byte is.
fn word_at(heap: &Heap, text: TextBlock, i: u32) -> i64
    requires text { (c : Cell) × (bytes : List ℕ) × IsText heap.now.values c text.at text.size bytes }
    requires inside { i < text.size }
    ensures { (c : Cell) (bytes : List ℕ) → IsText heap.now.values c text.at text.size bytes → result ≡ word_of_bytes (drop (8 * (i / 8)) bytes) }
{
    let _used = heap.used();
    heap.get(text.at + 1 + i / 8).number
}

/// A byte of a text.
pub fn byte_at(heap: &Heap, text: TextBlock, i: u32) -> u8
    requires text { (c : Cell) × (bytes : List ℕ) × IsText heap.now.values c text.at text.size bytes }
    requires inside { i < text.size }
    ensures { (c : Cell) (bytes : List ℕ) → IsText heap.now.values c text.at text.size bytes → result ≡ slice_index bytes i }
{
    let word = word_at(heap, text, i).to_le_bytes();
    word[(i % 8) as usize]
}

/// A word of a text by its number, as bits, and 0 past the end.
pub fn bits_at(heap: &Heap, text: TextBlock, k: u32) -> u64
    requires text { (c : Cell) × (bytes : List ℕ) × IsText heap.now.values c text.at text.size bytes }
    requires small { k < 2 ^ 28 }
    ensures { (c : Cell) (bytes : List ℕ) → IsText heap.now.values c text.at text.size bytes → result ≡ from_le_bytes w64 (drop (8 * k) bytes) }
{
    if 8 * k < text.size {
        word_at(heap, text, 8 * k).cast_unsigned()
    } else {
        0
    }
}

/// The word that begins so many bytes into a word that another follows.
pub fn across(first: u64, second: u64, bytes: u32) -> u64
    requires { bytes < 8 }
    ensures { (bs : List ℕ) → ((i : ℕ) → slice_index bs i < 256) → first ≡ from_le_bytes w64 bs → second ≡ from_le_bytes w64 (drop 8 bs) → result ≡ from_le_bytes w64 (drop bytes bs) }
{
    if bytes == 0 {
        first
    } else {
        second << (64 - 8 * bytes) | first >> (8 * bytes)
    }
}
