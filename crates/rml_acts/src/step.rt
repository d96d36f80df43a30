//! Where a run goes on behind an instruction.

/// How a run ends.
#[derive(Clone, Copy, PartialEq, Eq, Debug)]
pub enum End {
    /// `main` answered, with its integer where it gives one.
    Answer(Option<i64>),
    /// `main` failed.
    Failure,
    /// Cells do not fit: so many are in use, and so many more are needed.
    Full { used: u32, need: u32 },
}

/// Where a run goes on.
#[derive(Clone, Copy, PartialEq, Eq, Debug)]
pub enum Step {
    /// With the instruction behind.
    Behind,
    /// With this block, directly.
    Jump(u64),
    /// With this block, by a turn.
    Turn(u64),
    /// Nowhere.
    Stop(End),
}
