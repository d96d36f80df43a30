//! What a name stands for.

ghost use Rattle.std.specs.Prelude.{◌≡◌};
ghost use Rattle.std.specs.Option.{option_copied};
ghost use Rattle.rml_abbreviations.specs.Written.{meaning_in};

use rml_types::{SchemeTree, forget};
use std::marker::Model;

/// A type that goes piece by piece when it is dropped, so that a deep one needs no deep stack. Contracts see the type.
#[derive(Debug)]
pub struct Body {
    tree: SchemeTree,
}

impl Model for Body {
    ghost use Rattle.rml_types.specs.contracts.tree.SchemeTree as scheme_tree;
    ghost use Rattle.rml_types.specs.declared.tree.SchemeTree.{SchemeTree};
    ghost use Rattle.std.specs.Coded.{codes};

    ghost coded = { Prim.hlevel (codes, scheme_tree.the_row.coded) };

    ghost Value = { SchemeTree };

    ghost view = { λ b. b.tree };
}

impl Body {
    pub fn of(tree: SchemeTree) -> Body
        ensures { result ≡ tree }
    {
        Body { tree }
    }

    pub fn tree(&self) -> &SchemeTree
        ensures { result.now ≡ self.now }
    {
        &self.tree
    }
}

impl Drop for Body {
    fn drop(self) {
        let Body { tree } = self;
        forget(tree);
    }
}

/// What the name of a number stands for, where it stands for a type.
pub fn meaning(bodies: &[Option<Body>], number: u32) -> Option<&Body>
    ensures { option_copied result ≡ meaning_in bodies.now number }
{
    match bodies.get(number as usize) {
        None => None,
        Some(body) => body.as_ref(),
    }
}
