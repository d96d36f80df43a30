//! What each text is given, over names that grow.

ghost use Rattle.std.specs.Prelude.{◌≡◌, ◌+◌, ◌-◌, ◌<◌, ◌^◌, IfOk, OnOk, codes, length, true};
ghost use Rattle.std.specs.List.{list_all};
ghost use Rattle.rml_base.specs.Numbering.{GrowsBy, is_known, number_in};
ghost use Rattle.rml_builtin.specs.Names.{row_names};
ghost use Rattle.rml_builtin.specs.declared.row.TheConstants.{ROWS};
ghost use Rattle.rml_given.specs.Built.{all_known, built_of, rows_of};
ghost use Rattle.rml_prelude.specs.Text.{PreludeTree};
ghost use Rattle.rml_prelude.specs.Words.{words_of};
ghost use Rattle.rml_prelude.specs.declared.word.TheConstants.{WORDS};

use crate::built::entries_over;
use rml_base::{Memory, Names};
use rml_builtin::{ROWS, builtin};
use rml_outlines::Entries;
use rml_prelude::{Word, Words, known_words, tree_of};
use rml_syntax::{Items, Text};
use std::alloc::Global;

/// What each text is given: the prelude, what is built in, and the number of the name `main`.
#[derive(Drop)]
pub struct Given {
    pub prelude: Text,
    pub built: Entries,
    pub main: u32,
}

/// The numbers of all built-ins, in the order of their rows.
#[tactic(auto, unfolding(crate::specs::Built::rows_of))]
fn rows(alloc: Global, names: &mut Names) -> Result<Items<u32>, Memory>
    requires room { length names.old < 2 ^ 32 - 64 }
    ensures rows { IfOk result (λ rows. rows ≡ rows_of names.new) }
    ensures known { OnOk result (list_all (is_known names.new) row_names ≡ true) }
    ensures names { GrowsBy (length ROWS) names.old names.new }
{
    let mut numbers = Items::new(alloc);
    for number in 0..ROWS.len() {
        let row = builtin(number as u16);
        numbers.push(names.intern(row.name.as_bytes())?)?;
    }
    Ok(numbers)
}

/// The numbers of all words and of all built-ins.
fn numbers(alloc: Global, names: &mut Names) -> Result<(Words, Items<u32>), Memory>
    requires room { length names.old < 2 ^ 32 - 128 }
    ensures words { IfOk result (λ both. both.0 ≡ words_of names.new) }
    ensures rows { IfOk result (λ both. both.1 ≡ rows_of names.new) }
    ensures known { OnOk result (all_known names.new ≡ true) }
    ensures names { GrowsBy (length WORDS + length ROWS) names.old names.new }
{
    let words = known_words(alloc, names)?;
    let rows = rows(alloc, names)?;
    Ok((words, rows))
}

/// What each text is given, over the names as they are left. After an error the names may have grown.
#[tactic(auto, unfolding(rml_prelude::specs::Text::PreludeTree, crate::specs::Built::built_of))]
pub fn give(alloc: Global, names: &mut Names) -> Result<Given, Memory>
    requires room { length names.old < 2 ^ 32 - 128 }
    ensures prelude { IfOk result (λ given. given.prelude ≡ PreludeTree names.new) }
    ensures built { IfOk result (λ given. given.built ≡ built_of names.new) }
    ensures main { IfOk result (λ given. given.main ≡ number_in names.new (codes "main")) }
    ensures known { OnOk result (all_known names.new ≡ true) }
    ensures names { GrowsBy (length WORDS + length ROWS) names.old names.new }
{
    let (words, rows) = numbers(alloc, names)?;
    let prelude = tree_of(alloc, &words)?;
    let built = entries_over(alloc, &words, rows.as_slice())?;
    let main = words.number(Word::Main);
    Ok(Given {
        prelude,
        built,
        main,
    })
}
