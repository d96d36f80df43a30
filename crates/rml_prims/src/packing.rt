//! Texts that are made of what stands in cells, eight bytes at a time: of two texts, and of a list of characters.

ghost use Rattle.std.specs.Prelude.{ℕ, ◌≡◌, ◌+◌, ◌-◌, ◌*◌, ◌/◌, ◌%◌, ◌^◌, ◌<◌, ◌++◌, List, drop, length, map, slice_index};
ghost use Rattle.rml_heap.specs.HeapState.{HasRoom};
ghost use Rattle.rml_heap.specs.Text.{packed, text_cells, word_cell, word_of_bytes, words_for as words_for_bytes};
ghost use Rattle.rml_prims.specs.Shapes.{AreChars, AreJoined};
ghost use Rattle.rml_prims.specs.Found.{IsPlaced};

use crate::lists::{item_of, list_size, tail_of};
use crate::texts::{TextBlock, across, bits_at, byte_at, words_for};
use crate::words::{block, int, room_for, text_head};
use rml_heap::{BLOCK, Cell, Full, Heap, count_of};

/// A byte of two texts, one after the other, and 0 past the end.
fn joined_byte(heap: &Heap, first: TextBlock, second: TextBlock, i: u32) -> u8
    requires { (bytes : List ℕ) × AreJoined heap.now.values first.at first.size second.at second.size bytes }
    ensures { (bytes : List ℕ) → AreJoined heap.now.values first.at first.size second.at second.size bytes → result ≡ slice_index bytes i }
{
    if i < first.size {
        byte_at(heap, first, i)
    } else if i - first.size < second.size {
        byte_at(heap, second, i - first.size)
    } else {
        0
    }
}

/// The word of two texts, one after the other, in which the first ends and the second begins, byte by byte.
fn middle_word(heap: &Heap, first: TextBlock, second: TextBlock, k: u32) -> i64
    requires texts { (bytes : List ℕ) × AreJoined heap.now.values first.at first.size second.at second.size bytes }
    requires small { k < 2 ^ 28 }
    ensures { (bytes : List ℕ) → AreJoined heap.now.values first.at first.size second.at second.size bytes → result ≡ word_of_bytes (drop (8 * k) bytes) }
{
    let mut word = [0u8; 8];
    for i in 0..8 {
        word[i] = joined_byte(heap, first, second, 8 * k + i as u32);
    }
    i64::from_le_bytes(word)
}

/// Adds the words of two texts, one after the other, from the word on in which the first ends and the second begins. Each word of the
/// second is read once.
fn add_shifted(heap: &mut Heap, first: TextBlock, second: TextBlock)
    requires texts { (bytes : List ℕ) × AreJoined heap.old.values first.at first.size second.at second.size bytes }
    requires midst { 0 < first.size % 8 }
    requires room { HasRoom heap.old (words_for_bytes (first.size + second.size) - first.size / 8) }
    ensures { (bytes : List ℕ) → AreJoined heap.old.values first.at first.size second.at second.size bytes → heap.new ≡ record heap.old { values = heap.old.values ++ map word_cell (packed (words_for_bytes (first.size + second.size) - first.size / 8) (drop (8 * (first.size / 8)) bytes)) } }
{
    let _used = heap.used();
    let whole = first.size / 8;
    let word = middle_word(heap, first, second, whole);
    heap.add(int(word));
    let mut before = bits_at(heap, second, 0);
    for k in 0..words_for(first.size + second.size) - whole - 1 {
        let next = bits_at(heap, second, k + 1);
        heap.add(int(across(before, next, 8 - first.size % 8).cast_signed()));
        before = next;
    }
}

/// Adds the cells of two texts, one after the other, for which there is room.
fn add_joined(heap: &mut Heap, first: TextBlock, second: TextBlock)
    requires texts { (bytes : List ℕ) × AreJoined heap.old.values first.at first.size second.at second.size bytes }
    requires room { HasRoom heap.old (1 + words_for_bytes (first.size + second.size)) }
    ensures { (bytes : List ℕ) → AreJoined heap.old.values first.at first.size second.at second.size bytes → heap.new ≡ record heap.old { values = heap.old.values ++ text_cells bytes } }
{
    let _used = heap.used();
    heap.add(text_head(first.size + second.size));
    heap.add_again(first.at + 1, first.size / 8);
    if first.size % 8 == 0 {
        heap.add_again(second.at + 1, words_for(second.size));
    } else {
        add_shifted(heap, first, second);
    }
}

/// Places one text and then another, as one.
pub fn joined(heap: &mut Heap, first: TextBlock, second: TextBlock) -> Result<Cell, Full>
    requires { (bytes : List ℕ) × AreJoined heap.old.values first.at first.size second.at second.size bytes }
    ensures { (bytes : List ℕ) → AreJoined heap.old.values first.at first.size second.at second.size bytes → IsPlaced bytes heap.old heap.new result }
{
    let _used = heap.used();
    match room_for(heap, 1 + words_for(first.size + second.size)) {
        Ok(at) => {
            add_joined(heap, first, second);
            Ok(block(at))
        }
        Err(full) => Err(full),
    }
}

/// The next character of a list, and what is left; 0 where none is left.
fn next_char(heap: &Heap, list: Cell) -> (u8, Cell)
    requires { (bytes : List ℕ) × AreChars heap.now.values list bytes }
    ensures char { (bytes : List ℕ) → AreChars heap.now.values list bytes → result.0 ≡ slice_index bytes 0 }
    ensures left { (bytes : List ℕ) → AreChars heap.now.values list bytes → AreChars heap.now.values result.1 (drop 1 bytes) }
{
    let _used = heap.used();
    if list.kind == BLOCK {
        (count_of(item_of(heap, list)) as u8, tail_of(heap, list))
    } else {
        (0, list)
    }
}

/// The word of the next eight characters of a list, and what is left. Characters that are not there are 0.
fn next_word(heap: &Heap, list: Cell) -> (i64, Cell)
    requires { (bytes : List ℕ) × AreChars heap.now.values list bytes }
    ensures word { (bytes : List ℕ) → AreChars heap.now.values list bytes → result.0 ≡ word_of_bytes bytes }
    ensures left { (bytes : List ℕ) → AreChars heap.now.values list bytes → AreChars heap.now.values result.1 (drop 8 bytes) }
{
    let mut word = [0u8; 8];
    let mut rest = list;
    for i in 0..8 {
        let (c, left) = next_char(heap, rest);
        word[i] = c;
        rest = left;
    }
    (i64::from_le_bytes(word), rest)
}

/// Adds the cells of the text of a list of so many characters, for which there is room.
fn add_chars(heap: &mut Heap, list: Cell, size: u32)
    requires list { (bytes : List ℕ) × AreChars heap.old.values list bytes × (length bytes ≡ size) }
    requires room { HasRoom heap.old (1 + words_for_bytes size) }
    ensures { (bytes : List ℕ) → AreChars heap.old.values list bytes → length bytes ≡ size → heap.new ≡ record heap.old { values = heap.old.values ++ text_cells bytes } }
{
    let _used = heap.used();
    heap.add(text_head(size));
    let mut rest = list;
    for _k in 0..words_for(size) {
        let (word, left) = next_word(heap, rest);
        rest = left;
        heap.add(int(word));
    }
}

/// Places the text of a list of characters.
pub fn text_of_list(heap: &mut Heap, list: Cell) -> Result<Cell, Full>
    requires { (bytes : List ℕ) × AreChars heap.old.values list bytes }
    ensures { (bytes : List ℕ) → AreChars heap.old.values list bytes → IsPlaced bytes heap.old heap.new result }
{
    let _used = heap.used();
    let size = list_size(heap, list);
    match room_for(heap, 1 + words_for(size)) {
        Ok(at) => {
            add_chars(heap, list, size);
            Ok(block(at))
        }
        Err(full) => Err(full),
    }
}
