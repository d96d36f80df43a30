//! A stack of numbers.

ghost use Rattle.std.specs.Prelude.{◌≡◌, [], ◌∷◌, MatchOption, OnErr, OnOk};

use rml_base::Memory;
use std::alloc::Global;
use std::marker::Model;

/// Numbers, of which the last that came goes first. Contracts see them in that order: the next to go at the front.
#[derive(Drop)]
pub struct Marks {
    marks: Vec<usize>,
}

impl Model for Marks {
    ghost use Rattle.std.specs.Prelude.{List, ℕ, reverse};

    ghost Value = { List ℕ };

    ghost view = { λ m. reverse m.marks.items };
}

impl Marks {
    /// No marks yet. It takes no memory, and all later memory from `alloc`.
    pub fn new(alloc: Global) -> Marks
        ensures { result ≡ [] }
    {
        Marks {
            marks: Vec::new(alloc),
        }
    }

    /// Puts a mark on top. After an error nothing has changed.
    pub fn push(&mut self, mark: usize) -> Result<(), Memory>
        ensures ok { OnOk result (self.new ≡ mark ∷ self.old) }
        ensures err { OnErr result (self.new ≡ self.old) }
    {
        self.marks.push(mark)?;
        Ok(())
    }

    /// Takes the mark on top; `None` where there is none.
    pub fn pop(&mut self) -> Option<usize>
        ensures { MatchOption result ((self.old ≡ []) × (self.new ≡ [])) (λ mark. self.old ≡ mark ∷ self.new) }
    {
        self.marks.pop()
    }

    /// Takes all marks.
    pub fn clear(&mut self)
        ensures { self.new ≡ [] }
    {
        self.marks.clear();
    }
}
