//! What is known of a set of texts.

ghost use Rattle.std.specs.Prelude.{◌≡◌, ◌+◌, ◌-◌, ◌<◌, ◌≤◌, ◌^◌, IfOk, length};
ghost use Rattle.rml_base.specs.Numbering.{GrowsBy};
ghost use Rattle.rml_builtin.specs.declared.row.TheConstants.{ROWS};
ghost use Rattle.rml_given.specs.Built.{built_of};
ghost use Rattle.rml_prelude.specs.Text.{PreludeTree};
ghost use Rattle.rml_prelude.specs.declared.word.TheConstants.{WORDS};
ghost use Rattle.rml_faults.specs.Faults.{IsSet, main};

use rml_base::{Bytes, Memory, Names, Place};
use rml_given::{Given, give};
use rml_reading::known_of;
use rml_scopes::World;
use rml_signatures::{Types, types_of};
use rml_syntax::Text;
use rml_type_facts::{mains_of, type_facts};
use std::alloc::Global;

/// What is known of a set of texts before its faults are looked for.
#[derive(Drop)]
pub struct Set {
    pub prelude: Text,
    /// The number of the name `main`.
    pub main: u32,
    pub world: World,
    pub types: Types,
    /// Where interfaces export a `main` that a program may begin with, in order.
    pub mains: Vec<Place>,
}

/// What is known of a set, from what each text is given.
fn set_from(
    alloc: Global,
    texts: &[Text],
    files: &[Bytes],
    names: &Names,
    given: Given,
) -> Result<Set, Memory>
    requires few { length texts.now ≤ 64 }
    requires files { length files.now ≡ length texts.now }
    requires prelude { given.prelude ≡ PreludeTree names.now }
    requires built { given.built ≡ built_of names.now }
    requires main { given.main ≡ main names.now files.now texts.now }
    ensures { IfOk result (IsSet names.now files.now texts.now) }
{
    let Given {
        prelude,
        built,
        main,
    } = given;
    let known = known_of(alloc, names, files, &prelude, built, texts)?;
    let types = types_of(alloc, &known, texts)?;
    let facts = type_facts(alloc, &known, texts, &types)?;
    let mains = mains_of(alloc, &known, texts, &types, main)?;
    let world = World { known, facts };
    Ok(Set {
        prelude,
        main,
        world,
        types,
        mains,
    })
}

/// What is known of a set, over the names as they are left. There is one file name a text. After an error the names may have grown.
pub fn set_of(
    alloc: Global,
    texts: &[Text],
    files: &[Bytes],
    names: &mut Names,
) -> Result<Set, Memory>
    requires few { length texts.now ≤ 64 }
    requires files { length files.now ≡ length texts.now }
    requires room { length names.old < 2 ^ 32 - 128 }
    ensures set { IfOk result (IsSet names.new files.now texts.now) }
    ensures names { GrowsBy (length WORDS + length ROWS) names.old names.new }
{
    let given = give(alloc, names)?;
    set_from(alloc, texts, files, names, given)
}
