//! The words of the prelude among names that grow.

ghost use Rattle.std.specs.Prelude.{◌≡◌, ◌-◌, ◌<◌, ◌^◌, IfOk, OnOk, length, true};
ghost use Rattle.rml_base.specs.Numbering.{GrowsBy};
ghost use Rattle.rml_prelude.specs.Text.{PreludeTree};
ghost use Rattle.rml_prelude.specs.Words.{are_known, words_of};
ghost use Rattle.rml_prelude.specs.declared.word.TheConstants.{WORDS};

use crate::text::tree_of;
use crate::word::WORDS;
use crate::words::Words;
use rml_base::{Memory, Names};
use rml_syntax::{Items, Text};
use std::alloc::Global;

/// The numbers of all words, which are among the names then. After an error the names may have grown.
#[tactic(auto, unfolding(crate::specs::Words::words_of, crate::specs::Words::are_known))]
pub fn known_words(alloc: Global, names: &mut Names) -> Result<Words, Memory>
    requires room { length names.old < 2 ^ 32 - 64 }
    ensures words { IfOk result (λ w. w ≡ words_of names.new) }
    ensures known { OnOk result (are_known names.new ≡ true) }
    ensures names { GrowsBy (length WORDS) names.old names.new }
{
    let mut numbers = Items::new(alloc);
    for word in WORDS {
        numbers.push(names.intern(word.text().as_bytes())?)?;
    }
    Ok(Words::of(numbers))
}

/// The tree of the prelude's text, over the names as they are left. All places are one, which stands before each place of a text. After
/// an error the names may have grown.
#[tactic(auto, unfolding(crate::specs::Text::PreludeTree))]
pub fn prelude(alloc: Global, names: &mut Names) -> Result<Text, Memory>
    requires room { length names.old < 2 ^ 32 - 64 }
    ensures tree { IfOk result (λ tree. tree ≡ PreludeTree names.new) }
    ensures known { OnOk result (are_known names.new ≡ true) }
    ensures names { GrowsBy (length WORDS) names.old names.new }
{
    let words = known_words(alloc, names)?;
    tree_of(alloc, &words)
}
