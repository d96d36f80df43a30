//! Instructions. The fields of each are the parts of its printed line, in the line's order, and then its cases.

use sqlite_items::Items;

/// Registers, by their numbers.
pub type Registers = Items<u64>;

/// Instructions one after another. Each block ends in an instruction behind which none may stand: a `switch`, `goto`, `call`, `callr`,
/// `answer`, `fail` or `halt`.
pub type Block = Items<Instr>;

/// A value of one cell.
#[derive(Clone, Copy)]
pub enum Word {
    Int(i64),
    Char(u8),
    /// A relation, by its entry block.
    Rel(u64),
    /// A constructor without arguments.
    Con(u32),
}

/// Where an instruction goes on that does not go on behind itself.
#[derive(Clone, Copy)]
pub enum Else {
    /// By a turn, where the last failure frame says.
    Fail,
    /// With this block, directly.
    Block(u64),
}

/// What a case of a `switch` asks for.
#[derive(Clone, Copy)]
pub enum Tag {
    Int(i64),
    Char(u8),
    /// A constructor, with or without arguments.
    Con(u32),
    /// A text, by the number of its constant.
    Text(u64),
}

/// A case of a `switch`, and the block that it goes on with, directly.
#[derive(Clone, Copy)]
pub struct Case {
    pub tag: Tag,
    pub block: u64,
}

/// How a run ends.
#[derive(Clone, Copy)]
pub enum Halt {
    /// `main` answered, and gives no integer.
    Yes,
    /// `main` answered with the integer in the first register.
    Integer,
    /// `main` failed.
    No,
}

/// An instruction. Where a field names a register to write, it stands first. A block of cells that an instruction makes is new.
#[derive(Drop)]
pub enum Instr {
    /// The first register gets what the second one holds.
    Move(u64, u64),
    Word(u64, Word),
    /// A constant, by its number.
    Const(u64, u64),
    /// A part of the block in the second register: the one of this number, from 1.
    Field(u64, u64, u64),
    /// A constructor and its arguments, other than `::`.
    Con(u64, u32, Registers),
    Tuple(u64, Registers),
    /// A `::` of a head and a tail.
    Cons(u64, u64, u64),
    /// Pushes a success frame: where an answer goes on, and what is saved for it.
    Save(u64, Registers),
    /// Pushes a failure frame: where a failure goes on, and what is saved for it, with what the cells and the trail were.
    Guard(u64, Registers),
    /// Takes up what the last success frame saved, and goes back to the frames that stood before it.
    Resume(Registers),
    /// Takes up what the last failure frame saved, and goes back to the frames, the cells and the trail that stood before it.
    Retry(Registers),
    /// Forgets the last failure frame, and leaves it where it is.
    Drop,
    /// A built-in, by its number in the table of built-ins, with what it is given and its results.
    Builtin(u16, Registers, Registers, Else),
    /// Goes on behind it where the two hold equal values.
    Equal(u64, u64, Else),
    /// The first case whose tag the register has. The last of its block.
    Switch(u64, Items<Case>, Else),
    /// With this block, directly. The last of its block.
    Goto(u64),
    /// With this block, by a turn. The last of its block.
    Call(u64),
    /// With the entry block of the relation in the register, by a turn. The last of its block.
    CallRegister(u64),
    /// Where the last success frame says, by a turn. The last of its block.
    Answer,
    /// Where the last failure frame says, by a turn. The last of its block.
    Fail,
    /// The end. The last of its block.
    Halt(Halt),
}
