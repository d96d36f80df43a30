//! The rows that make a block, if the cells for it fit.

ghost use Rattle.rml_prims.specs.Shapes.{OneInt, OneList, OneSpelling, OneText, OneVector, TwoTexts};
ghost use Rattle.rml_prims.specs.Found.{CanApply, Grows, IsMaking, Makes};

use crate::lists::{list_of_text, list_of_vector};
use crate::lvars;
use crate::packing::{joined, text_of_list};
use crate::placing::place_text;
use crate::texts::text_of;
use crate::vectors::{vector_of, vector_of_list};
use itoa::Buffer;
use rml_builtin::Row;
use rml_heap::{Cell, Full, Heap};

/// What a logical variable holds, as an option.
fn held(heap: &mut Heap, inputs: &[Cell]) -> Result<Cell, Full>
    requires { CanApply Row.LvarGet heap.old.values inputs.now }
    ensures makes { Makes Row.LvarGet heap.old inputs.now heap.new result }
    ensures grows { Grows heap.old heap.new }
{
    let _used = heap.used();
    lvars::get(heap, inputs[0])
}

/// The decimal of an integer.
fn decimal(heap: &mut Heap, inputs: &[Cell]) -> Result<Cell, Full>
    requires { OneInt inputs.now }
    ensures makes { Makes Row.IntString heap.old inputs.now heap.new result }
    ensures grows { Grows heap.old heap.new }
{
    let mut buffer = Buffer::new();
    place_text(heap, buffer.format(inputs[0].number).as_bytes())
}

/// One text and then another.
fn appended(heap: &mut Heap, inputs: &[Cell]) -> Result<Cell, Full>
    requires { TwoTexts heap.old.values inputs.now }
    ensures makes { Makes Row.StringAppend heap.old inputs.now heap.new result }
    ensures grows { Grows heap.old heap.new }
{
    let first = text_of(heap, inputs[0]);
    let second = text_of(heap, inputs[1]);
    joined(heap, first, second)
}

/// The text of a list of characters.
fn list_string(heap: &mut Heap, inputs: &[Cell]) -> Result<Cell, Full>
    requires { OneSpelling heap.old.values inputs.now }
    ensures makes { Makes Row.ListString heap.old inputs.now heap.new result }
    ensures grows { Grows heap.old heap.new }
{
    text_of_list(heap, inputs[0])
}

/// The list of the characters of a text.
fn string_list(heap: &mut Heap, inputs: &[Cell]) -> Result<Cell, Full>
    requires { OneText heap.old.values inputs.now }
    ensures makes { Makes Row.StringList heap.old inputs.now heap.new result }
    ensures grows { Grows heap.old heap.new }
{
    let text = text_of(heap, inputs[0]);
    list_of_text(heap, text)
}

/// The list of the items of a vector.
fn vector_list(heap: &mut Heap, inputs: &[Cell]) -> Result<Cell, Full>
    requires { OneVector heap.old.values inputs.now }
    ensures makes { Makes Row.VectorList heap.old inputs.now heap.new result }
    ensures grows { Grows heap.old heap.new }
{
    let vector = vector_of(heap, inputs[0]);
    list_of_vector(heap, vector)
}

/// The vector of the items of a list.
fn list_vector(heap: &mut Heap, inputs: &[Cell]) -> Result<Cell, Full>
    requires { OneList heap.old.values inputs.now }
    ensures makes { Makes Row.ListVector heap.old inputs.now heap.new result }
    ensures grows { Grows heap.old heap.new }
{
    vector_of_list(heap, inputs[0])
}

/// What a row that makes a block gives: the cell of its result, or the cells that do not fit.
pub fn make(row: Row, heap: &mut Heap, inputs: &[Cell]) -> Result<Cell, Full>
    requires row { IsMaking row }
    requires applies { CanApply row heap.old.values inputs.now }
    ensures makes { Makes row heap.old inputs.now heap.new result }
    ensures grows { Grows heap.old heap.new }
{
    match row {
        Row::IntString => decimal(heap, inputs),
        Row::StringAppend => appended(heap, inputs),
        Row::StringList => string_list(heap, inputs),
        Row::ListString => list_string(heap, inputs),
        Row::LvarGet => held(heap, inputs),
        Row::ListVector => list_vector(heap, inputs),
        _ => vector_list(heap, inputs),
    }
}
