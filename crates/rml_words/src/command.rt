//! What a line of words asks for.

/// A stage of an accepted set of texts that `show` prints.
#[derive(Clone, Copy, Debug, PartialEq, Eq)]
pub enum Stage {
    Types,
    Clauses,
    Factored,
    Trees,
    Cps,
    Simple,
    Code,
}

/// What a line asks for. Files and arguments are words of the line.
#[derive(Clone, Copy, Debug)]
pub enum Command<'a> {
    /// Check the texts.
    Check {
        files: &'a [String],
    },
    /// Print the tokens of one text.
    ShowTokens {
        file: &'a str,
    },
    /// Print the tree of one text.
    ShowTree {
        file: &'a str,
    },
    /// Print a stage of the texts.
    Show {
        stage: Stage,
        files: &'a [String],
    },
    /// Print the C text of the texts, for a run within so many cells, from 1 to 67,108,864.
    ShowC {
        cells: u32,
        files: &'a [String],
    },
    /// Run the texts within so many cells, from 1 to 67,108,864, and so many steps, at most 1,000,000,000,000.
    Run {
        cells: u32,
        steps: u64,
        files: &'a [String],
        arguments: &'a [String],
    },
    /// Run a C text within so many steps, at most 1,000,000,000,000.
    Crun {
        steps: u64,
        file: &'a str,
        arguments: &'a [String],
    },
    /// Make a text of so many relations, from 1 to 3,000, and run it.
    Make {
        relations: u32,
    },
}
