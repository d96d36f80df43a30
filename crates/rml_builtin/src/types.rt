//! The numbers of the types that every program's table begins with: the built-in types, and then the two datatypes of the
//! prelude that built-ins name.

/// The integers.
pub const INT: u32 = 0;

/// The characters.
pub const CHAR: u32 = 1;

/// The texts.
pub const STRING: u32 = 2;

/// The lists, with one argument: the type of the items.
pub const LIST: u32 = 3;

/// The logical variables, with one argument: the type of what they hold.
pub const LVAR: u32 = 4;

/// The vectors, with one argument: the type of the items.
pub const VECTOR: u32 = 5;

/// The truth values, a datatype of the prelude.
pub const BOOL: u32 = 6;

/// The options, a datatype of the prelude, with one argument: the type of what is there.
pub const OPTION: u32 = 7;
