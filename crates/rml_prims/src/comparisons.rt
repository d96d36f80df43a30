//! The rows that compare two integers.

ghost use Rattle.std.specs.Prelude.{◌≡◌};
ghost use Rattle.rml_prims.specs.Calculated.{compared as compared_by};

use rml_builtin::Row;

/// Whether two integers compare as a row says.
pub fn compared(row: Row, m: i64, n: i64) -> bool
    ensures { result ≡ compared_by row m n }
{
    match row {
        Row::IntLt => m < n,
        Row::IntLe => m <= n,
        Row::IntGt => m > n,
        Row::IntGe => m >= n,
        Row::IntEq => m == n,
        _ => m != n,
    }
}
