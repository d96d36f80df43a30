//! What the variables of a running program hold, their equality, and the range of integers.
//! It knows nothing of programs, and of no built-in: a text is a byte string, a logical variable is a number.
#![tactic(auto)]

mod copying;
mod equality;
pub mod laws;
mod list;
mod range;
mod value;

/// What a value's fields are made of, for those who build or take one apart.
pub use copying::{copy, copy_all};
pub use equality::equal;
pub use list::{items_of, length_of, list_of, list_onto};
pub use range::{GREATEST, LEAST, in_range};
pub use rml_base::Bytes;
pub use sqlite_items::Items;
pub use value::{CONS, FALSE, NIL, NONE, SOME, TRUE, Value, Values};

#[cfg(test)]
mod tests {
    use super::*;
    use rml_base::{Bytes, Memory};
    use sqlite_items::Items;
    use std::alloc::Global;
    use std::test::Fail;

    fn ints(alloc: Global, numbers: &[i64]) -> Result<Values, Memory> {
        let mut values = Items::new(alloc);
        for n in numbers {
            values.push(Value::Int(*n))?;
        }
        Ok(values)
    }

    fn text(alloc: Global, bytes: &[u8]) -> Result<Value, Memory> {
        Ok(Value::Text(Bytes::of(Vec::from_slice(alloc, bytes)?)))
    }

    #[test]
    fn integers_have_31_bits(rt: HostRuntime) {
        let rows = [
            (-1_073_741_825, false),
            (-1_073_741_824, true),
            (0, true),
            (1_073_741_823, true),
            (1_073_741_824, false),
            (i64::MIN, false),
            (i64::MAX, false),
        ];
        for (i, expected) in rows {
            assert_eq!(rt; in_range(i), expected, "{i}");
        }
    }

    fn samples(alloc: Global) -> Result<Vec<Value>, Memory> {
        let mut samples = Vec::new(alloc);
        for n in [1u8, 2] {
            samples.push(Value::Int(i64::from(n)))?;
            samples.push(Value::Rel(u32::from(n)))?;
            samples.push(Value::Cell(usize::from(n)))?;
            samples.push(Value::Con(u32::from(n), ints(alloc, &[7])?))?;
            samples.push(Value::Con(1, ints(alloc, &[7, i64::from(n)])?))?;
        }
        samples.push(Value::Char(1))?;
        samples.push(text(alloc, b"")?)?;
        samples.push(text(alloc, b"a")?)?;
        for list in [[1, 2], [2, 1]] {
            samples.push(Value::Tuple(ints(alloc, &list)?))?;
            samples.push(Value::Vector(ints(alloc, &list)?))?;
        }
        samples.push(Value::Vector(ints(alloc, &[1])?))?;
        Ok(samples)
    }

    #[test]
    fn values_of_two_kinds_or_shapes_differ(rt: HostRuntime) -> Result<(), Fail> {
        let alloc = rt.alloc();
        let values = samples(alloc)?;
        for (i, a) in values.iter().enumerate() {
            for (j, b) in values.iter().enumerate() {
                assert_eq!(rt; equal(a, b), i == j, "{i} and {j}");
                assert_eq!(rt; equal(&copy(alloc, a)?, b), i == j, "a copy of {i} and {j}");
            }
        }
        Ok(())
    }

    #[test]
    fn lists_are_read_back(rt: HostRuntime) -> Result<(), Fail> {
        let alloc = rt.alloc();
        let list = list_of(alloc, ints(alloc, &[4, 5])?)?;
        // `[]` is 0 and `::` is 1
        let mut tail = ints(alloc, &[5])?;
        tail.push(Value::Con(0, ints(alloc, &[])?))?;
        let mut whole = ints(alloc, &[4])?;
        whole.push(Value::Con(1, tail))?;
        assert!(rt; equal(&list, &Value::Con(1, whole)));
        assert_eq!(rt; length_of(&list)?, Some(2));
        match items_of(alloc, &list)? {
            Some(items) => {
                assert!(rt; equal(&Value::Tuple(items), &Value::Tuple(ints(alloc, &[4, 5])?)))
            }
            None => assert!(rt; false, "a list has items"),
        }
        let none = Value::Con(4, ints(alloc, &[])?);
        assert!(rt; items_of(alloc, &none)?.is_none());
        assert_eq!(rt; length_of(&none)?, None);
        Ok(())
    }
}
