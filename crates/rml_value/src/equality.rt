//! Equality of values.

ghost use Rattle.std.specs.Prelude.{◌≡◌, map, ◌↔◌, IsTrue};
ghost use Rattle.rml_value.specs.Same.{same, all_same};

use crate::value::Value;

/// Whether two values are equal: by structure, vectors by length and items, logical variables by identity, relations by
/// number. Values of two kinds are never equal. Takes no memory, and goes as deep as the values do.
#[cycle(equality)]
pub fn equal(a: &Value, b: &Value) -> bool
    ensures equal { IsTrue result ↔ (a.now ≡ b.now) }
    ensures same { result ≡ same a.now b.now }
{
    match (a, b) {
        (Value::Int(a), Value::Int(b)) => a == b,
        (Value::Char(a), Value::Char(b)) => a == b,
        (Value::Text(a), Value::Text(b)) => a.as_slice() == b.as_slice(),
        (Value::Con(a, xs), Value::Con(b, ys)) => a == b && all_equal(xs.as_slice(), ys.as_slice()),
        (Value::Tuple(xs), Value::Tuple(ys)) => all_equal(xs.as_slice(), ys.as_slice()),
        (Value::Rel(a), Value::Rel(b)) => a == b,
        (Value::Cell(a), Value::Cell(b)) => a == b,
        (Value::Vector(xs), Value::Vector(ys)) => all_equal(xs.as_slice(), ys.as_slice()),
        _ => false,
    }
}

#[cycle(equality)]
fn all_equal(xs: &[Value], ys: &[Value]) -> bool
    ensures equal { IsTrue result ↔ (xs.now ≡ ys.now) }
    ensures same { result ≡ all_same (map same xs.now) ys.now }
{
    if xs.len() != ys.len() {
        return false;
    }
    for (i, x) in xs.iter().enumerate() {
        if !equal(x, &ys[i]) {
            return false;
        }
    }
    true
}
