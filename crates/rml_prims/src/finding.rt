//! The rows that take no cells: each gives one word, or has no answer.

ghost use Rattle.std.specs.Prelude.{◌≡◌, if◌then◌else◌, List, pos};
ghost use Rattle.std.specs.Option.{option_map};
ghost use Rattle.rml_builtin.specs.Decimal.{integer_of};
ghost use Rattle.rml_heap.specs.declared.cell.Cell.{Cell};
ghost use Rattle.rml_prims.specs.Calculated.{IsCalculation, IsTurn, IsComparison, IsOverInts, TakesInts, char_numbered};
ghost use Rattle.rml_prims.specs.Shapes.{OneChar, OneInt, TwoInts, OneText, TextAndInt, OneVector, VectorAndInt, con_cell, int_cell, index_in};
ghost use Rattle.rml_prims.specs.Found.{CanApply, Finds, IsFinding};

use crate::comparisons::compared;
use crate::integers::{calculated, integer, turned};
use crate::numerals::read_int;
use crate::texts::{byte_at, text_of};
use crate::vectors::{item_at, vector_of};
use crate::words::{char, con, int};
use rml_builtin::Row;
use rml_heap::{Cell, Heap};
use rml_value::{FALSE, TRUE};

/// What a row that calculates with two integers gives.
fn over_two_ints(row: Row, inputs: &[Cell]) -> Option<Cell>
    requires row { IsCalculation row }
    requires inputs { TwoInts inputs.now }
    ensures { (cells : List Cell) → Finds row cells inputs.now result }
{
    match calculated(row, inputs[0].number, inputs[1].number) {
        Some(n) => Some(int(n)),
        None => None,
    }
}

/// What a row that turns the sign of an integer gives.
fn over_one_int(row: Row, inputs: &[Cell]) -> Option<Cell>
    requires row { IsTurn row }
    requires inputs { OneInt inputs.now }
    ensures { (cells : List Cell) → Finds row cells inputs.now result }
{
    match turned(row, inputs[0].number) {
        Some(n) => Some(int(n)),
        None => None,
    }
}

/// A truth value.
fn truth_of(holds: bool) -> Cell
    ensures { result ≡ con_cell (if holds then TRUE else FALSE) }
{
    if holds { con(TRUE) } else { con(FALSE) }
}

/// The truth value of a comparison.
fn truth(row: Row, inputs: &[Cell]) -> Option<Cell>
    requires row { IsComparison row }
    requires inputs { TwoInts inputs.now }
    ensures { (cells : List Cell) → Finds row cells inputs.now result }
{
    let holds = compared(row, inputs[0].number, inputs[1].number);
    Some(truth_of(holds))
}

/// The character of a number, if it is one of a byte.
fn char_of(n: i64) -> Option<u8>
    ensures { result ≡ char_numbered n }
{
    if 0 <= n && n <= 255 {
        Some(n as u8)
    } else {
        None
    }
}

/// The character of an integer.
fn character(inputs: &[Cell]) -> Option<Cell>
    requires { OneInt inputs.now }
    ensures { (cells : List Cell) → Finds Row.IntChar cells inputs.now result }
{
    match char_of(inputs[0].number) {
        Some(c) => Some(char(c)),
        None => None,
    }
}

/// The number of a character.
fn code(inputs: &[Cell]) -> Cell
    requires { OneChar inputs.now }
    ensures { (cells : List Cell) → Finds Row.CharInt cells inputs.now (Some result) }
{
    int(inputs[0].number)
}

/// A length, where it is an integer of the language.
fn length(size: u32) -> Option<Cell>
    ensures { result ≡ option_map int_cell (integer_of (pos size)) }
{
    match integer(i64::from(size)) {
        Some(n) => Some(int(n)),
        None => None,
    }
}

/// How many items a vector has, where that is an integer of the language.
fn vector_length(heap: &Heap, inputs: &[Cell]) -> Option<Cell>
    requires { OneVector heap.now.values inputs.now }
    ensures { Finds Row.VectorLength heap.now.values inputs.now result }
{
    length(vector_of(heap, inputs[0]).size)
}

/// An index from 0, if it is below a size.
fn index(n: i64, size: u32) -> Option<u32>
    ensures { result ≡ index_in n size }
{
    if 0 <= n && n < i64::from(size) {
        Some(n as u32)
    } else {
        None
    }
}

/// The item of a vector at an index, or None outside.
fn nth_item(heap: &Heap, inputs: &[Cell]) -> Option<Cell>
    requires { VectorAndInt heap.now.values inputs.now }
    ensures { Finds Row.VectorNth heap.now.values inputs.now result }
{
    let vector = vector_of(heap, inputs[0]);
    match index(inputs[1].number, vector.size) {
        Some(i) => Some(item_at(heap, vector, i)),
        None => None,
    }
}

/// How many bytes a text has, where that is an integer of the language.
fn text_length(heap: &Heap, inputs: &[Cell]) -> Option<Cell>
    requires { OneText heap.now.values inputs.now }
    ensures { Finds Row.StringLength heap.now.values inputs.now result }
{
    length(text_of(heap, inputs[0]).size)
}

/// The integer that a text writes, or None where it writes none.
fn written_int(heap: &Heap, inputs: &[Cell]) -> Option<Cell>
    requires { OneText heap.now.values inputs.now }
    ensures { Finds Row.StringInt heap.now.values inputs.now result }
{
    match read_int(heap, text_of(heap, inputs[0])) {
        Some(n) => Some(int(n)),
        None => None,
    }
}

/// The character of a text at an index, or None outside.
fn nth_char(heap: &Heap, inputs: &[Cell]) -> Option<Cell>
    requires { TextAndInt heap.now.values inputs.now }
    ensures { Finds Row.StringNth heap.now.values inputs.now result }
{
    let text = text_of(heap, inputs[0]);
    match index(inputs[1].number, text.size) {
        Some(i) => Some(char(byte_at(heap, text, i))),
        None => None,
    }
}

/// What a row over integers gives: the cell of its result, or None for no answer.
fn over_ints(row: Row, inputs: &[Cell]) -> Option<Cell>
    requires row { IsOverInts row }
    requires inputs { TakesInts row inputs.now }
    ensures { (cells : List Cell) → Finds row cells inputs.now result }
{
    match row {
        Row::IntAdd => over_two_ints(row, inputs),
        Row::IntSub => over_two_ints(row, inputs),
        Row::IntMul => over_two_ints(row, inputs),
        Row::IntDiv => over_two_ints(row, inputs),
        Row::IntMod => over_two_ints(row, inputs),
        Row::IntMax => over_two_ints(row, inputs),
        Row::IntMin => over_two_ints(row, inputs),
        Row::IntNeg => over_one_int(row, inputs),
        Row::IntAbs => over_one_int(row, inputs),
        _ => truth(row, inputs),
    }
}

/// What a row that takes no cells gives: the cell of its result, or None for no answer.
pub fn find(row: Row, heap: &Heap, inputs: &[Cell]) -> Option<Cell>
    requires row { IsFinding row }
    requires applies { CanApply row heap.now.values inputs.now }
    ensures { Finds row heap.now.values inputs.now result }
{
    match row {
        Row::IntChar => character(inputs),
        Row::CharInt => Some(code(inputs)),
        Row::StringInt => written_int(heap, inputs),
        Row::StringLength => text_length(heap, inputs),
        Row::StringNth => nth_char(heap, inputs),
        Row::VectorLength => vector_length(heap, inputs),
        Row::VectorNth => nth_item(heap, inputs),
        _ => over_ints(row, inputs),
    }
}
