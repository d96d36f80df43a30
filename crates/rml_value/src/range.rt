//! The integers of the language.

ghost use Rattle.std.specs.Prelude.{◌≡◌, ◌↔◌, ◌≤ℤ◌, pos, negsuc, IsTrue};
ghost use Rattle.rml_value.specs.Range.{is_integer};

/// The least integer of the language.
pub const LEAST: i64 = -1_073_741_824;

/// The greatest integer of the language.
pub const GREATEST: i64 = 1_073_741_823;

/// Whether a number is an integer of the language.
pub fn in_range(i: i64) -> bool
    ensures range { IsTrue result ↔ ((negsuc 1073741823 ≤ℤ i) × (i ≤ℤ pos 1073741823)) }
    ensures test { result ≡ is_integer i }
{
    LEAST <= i && i <= GREATEST
}
