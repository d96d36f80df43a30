//! Integers that texts write.

ghost use Rattle.std.specs.Prelude.{ℕ, ◌≡◌, ◌≤◌, ◌^◌, IfSome, List, drop};
ghost use Rattle.rml_builtin.specs.Capped.{capped};
ghost use Rattle.rml_builtin.specs.Decimal.{is_minus as is_minus_sign, natural_of, read};
ghost use Rattle.rml_heap.specs.declared.cell.Cell.{Cell};
ghost use Rattle.rml_prims.specs.Shapes.{IsText};

use crate::texts::{TextBlock, byte_at};
use rml_builtin::{digit_after, signed_integer};
use rml_heap::Heap;

/// The number that the digits of a text write from a place on, where there are some and it is at most 2 ^ 30.
fn number_from(heap: &Heap, text: TextBlock, first: u32) -> Option<u64>
    requires { (c : Cell) × (bytes : List ℕ) × IsText heap.now.values c text.at text.size bytes }
    ensures small { IfSome result (λ n. n ≤ 2 ^ 30) }
    ensures number { (c : Cell) (bytes : List ℕ) → IsText heap.now.values c text.at text.size bytes → result ≡ capped (natural_of (drop first bytes)) }
{
    if first >= text.size {
        return None;
    }
    let mut n = 0;
    for i in first..text.size {
        n = digit_after(n, byte_at(heap, text, i))?;
    }
    Some(n)
}

/// Whether a byte is a `-` or a `~`.
fn is_minus(c: u8) -> bool
    ensures { result ≡ is_minus_sign c }
{
    c == b'-' || c == b'~'
}

/// The integer that an optional `-` or `~` and one or more digits write.
pub fn read_int(heap: &Heap, text: TextBlock) -> Option<i64>
    requires { (c : Cell) × (bytes : List ℕ) × IsText heap.now.values c text.at text.size bytes }
    ensures { (c : Cell) (bytes : List ℕ) → IsText heap.now.values c text.at text.size bytes → result ≡ read bytes }
{
    if text.size == 0 {
        return None;
    }
    let minus = is_minus(byte_at(heap, text, 0));
    let first = if minus { 1 } else { 0 };
    signed_integer(minus, number_from(heap, text, first))
}
