//! The words with their numbers.

ghost use Rattle.std.specs.Prelude.{◌≡◌, length};
ghost use Rattle.rml_prelude.specs.Parts.{long, name, value};
ghost use Rattle.rml_prelude.specs.Words.{number};
ghost use Rattle.rml_prelude.specs.declared.word.TheConstants.{WORDS};

use crate::parts::nowhere;
use crate::word::Word;
use rml_syntax::{Exp, Items, Long, Pattern};
use std::marker::Model;

/// The numbers of all words. Contracts see the list of them, in the order of the words.
#[derive(Drop)]
pub struct Words {
    numbers: Items<u32>,
}

impl Model for Words {
    ghost use Rattle.std.specs.Prelude.{List, ℕ, ◌≡◌, length};
    ghost use Rattle.rml_prelude.specs.declared.word.TheConstants.{WORDS};

    ghost Value = { List ℕ };

    ghost view = { λ w. w.numbers };

    ghost invariant = { λ w. length w.numbers ≡ length WORDS };
}

impl Words {
    /// Words of these numbers, one a word.
    pub fn of(numbers: Items<u32>) -> Words
        requires { length numbers ≡ length WORDS }
        ensures { result ≡ numbers }
    {
        Words { numbers }
    }

    /// The number of a word.
    #[tactic(auto, unfolding(crate::specs::Words::number))]
    pub fn number(&self, word: Word) -> u32
        ensures { result ≡ number self.now word }
    {
        self.numbers.as_slice()[word.place()]
    }

    /// A word as a name without a module.
    pub fn long(&self, word: Word) -> Long
        ensures { result ≡ long self.now word }
    {
        Long {
            module: None,
            name: self.number(word),
            place: nowhere(),
        }
    }

    /// A word as a pattern.
    pub fn name(&self, word: Word) -> Pattern
        ensures { result ≡ name self.now word }
    {
        Pattern::Name(self.long(word))
    }

    /// A word as an expression.
    pub fn value(&self, word: Word) -> Exp
        ensures { result ≡ value self.now word }
    {
        Exp::Name(self.long(word))
    }
}
