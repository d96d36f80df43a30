//! The rows of the table of built-ins, and their numbers.

ghost use Rattle.std.specs.Prelude.{◌≡◌, ◌<◌, Some, IfSome, length, slice_get};
ghost use Rattle.rml_builtin.specs.Table.{name_of, inputs_of, outputs_of, is_silent};

use sqlite_items::at;

/// A built-in.
#[derive(Clone, Copy, Debug, PartialEq, Eq)]
pub enum Row {
    IntAdd,
    IntSub,
    IntMul,
    IntDiv,
    IntMod,
    IntNeg,
    IntAbs,
    IntMax,
    IntMin,
    IntLt,
    IntLe,
    IntGt,
    IntGe,
    IntEq,
    IntNe,
    IntString,
    StringInt,
    IntChar,
    CharInt,
    StringLength,
    StringNth,
    StringAppend,
    StringList,
    ListString,
    LvarNew,
    LvarGet,
    LvarSet,
    Print,
    ListVector,
    VectorList,
    VectorLength,
    VectorNth,
}

/// The rows in the order of their numbers, from 0.
pub const ROWS: [Row; 32] = [
    Row::IntAdd,
    Row::IntSub,
    Row::IntMul,
    Row::IntDiv,
    Row::IntMod,
    Row::IntNeg,
    Row::IntAbs,
    Row::IntMax,
    Row::IntMin,
    Row::IntLt,
    Row::IntLe,
    Row::IntGt,
    Row::IntGe,
    Row::IntEq,
    Row::IntNe,
    Row::IntString,
    Row::StringInt,
    Row::IntChar,
    Row::CharInt,
    Row::StringLength,
    Row::StringNth,
    Row::StringAppend,
    Row::StringList,
    Row::ListString,
    Row::LvarNew,
    Row::LvarGet,
    Row::LvarSet,
    Row::Print,
    Row::ListVector,
    Row::VectorList,
    Row::VectorLength,
    Row::VectorNth,
];

/// What the table says of a built-in besides its type: its name, the counts of its arguments and results, and whether it
/// prints nothing.
#[derive(Clone, Copy, Debug)]
pub struct BuiltinRow {
    pub name: &'static str,
    pub inputs: u8,
    pub outputs: u8,
    pub silent: bool,
}

/// The row of a number, if the table has it.
pub fn row_at(number: u16) -> Option<Row>
    ensures { result ≡ slice_get ROWS number }
{
    match at(&ROWS, number as usize) {
        Some(row) => Some(*row),
        None => None,
    }
}

/// The row of a number that is in the table.
pub fn row_of(number: u16) -> Row
    requires { number < length ROWS }
    ensures { slice_get ROWS number ≡ Some result }
{
    ROWS[number as usize]
}

/// What the table says of a number that is in it.
pub fn builtin(number: u16) -> BuiltinRow
    requires { number < length ROWS }
    ensures name { IfSome (slice_get ROWS number) (λ row. result.name.now ≡ name_of row) }
    ensures inputs { IfSome (slice_get ROWS number) (λ row. result.inputs ≡ length (inputs_of row)) }
    ensures outputs { IfSome (slice_get ROWS number) (λ row. result.outputs ≡ length (outputs_of row)) }
    ensures silent { IfSome (slice_get ROWS number) (λ row. result.silent ≡ is_silent row) }
{
    let row = row_of(number);
    BuiltinRow {
        name: name(row),
        inputs: inputs(row),
        outputs: outputs(row),
        silent: row != Row::Print,
    }
}

/// The name of a row.
pub fn name(row: Row) -> &'static str
    ensures { result.now ≡ name_of row }
{
    match row {
        Row::IntAdd => "int_add",
        Row::IntSub => "int_sub",
        Row::IntMul => "int_mul",
        Row::IntDiv => "int_div",
        Row::IntMod => "int_mod",
        Row::IntNeg => "int_neg",
        Row::IntAbs => "int_abs",
        Row::IntMax => "int_max",
        Row::IntMin => "int_min",
        Row::IntLt => "int_lt",
        Row::IntLe => "int_le",
        Row::IntGt => "int_gt",
        Row::IntGe => "int_ge",
        Row::IntEq => "int_eq",
        Row::IntNe => "int_ne",
        Row::IntString => "int_string",
        Row::StringInt => "string_int",
        Row::IntChar => "int_char",
        Row::CharInt => "char_int",
        Row::StringLength => "string_length",
        Row::StringNth => "string_nth",
        Row::StringAppend => "string_append",
        Row::StringList => "string_list",
        Row::ListString => "list_string",
        Row::LvarNew => "lvar_new",
        Row::LvarGet => "lvar_get",
        Row::LvarSet => "lvar_set",
        Row::Print => "print",
        Row::ListVector => "list_vector",
        Row::VectorList => "vector_list",
        Row::VectorLength => "vector_length",
        Row::VectorNth => "vector_nth",
    }
}

fn inputs(row: Row) -> u8
    ensures { result ≡ length (inputs_of row) }
{
    match row {
        Row::LvarNew => 0,
        Row::IntNeg | Row::IntAbs | Row::IntString | Row::StringInt | Row::IntChar => 1,
        Row::CharInt | Row::StringLength | Row::StringList | Row::ListString | Row::LvarGet => 1,
        Row::Print | Row::ListVector | Row::VectorList | Row::VectorLength => 1,
        _ => 2,
    }
}

fn outputs(row: Row) -> u8
    ensures { result ≡ length (outputs_of row) }
{
    match row {
        Row::LvarSet | Row::Print => 0,
        _ => 1,
    }
}
