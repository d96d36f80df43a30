//! What a block reads and what it gives.

ghost use Rattle.std.specs.Prelude.{◌≡◌};

use rml_builtin::Store;
use rml_fol::{Relation, Val};
use rml_terms::Env;
use std::marker::Model;

/// The tables that a plain run reads.
#[derive(Clone, Copy)]
pub struct Tables<'a> {
    pub vals: &'a [Val],
    pub rels: &'a [Relation],
}

/// The answer of a block, which contracts see as what the definition has: variables with what they stand for, and the store.
#[derive(Drop)]
pub struct State {
    pub env: Env,
    pub store: Store,
}

impl Model for State {
    ghost use Rattle.std.specs.Coded.{codes};
    ghost use Rattle.rml_value.specs.contracts.value.Value as tree_of_values;
    ghost use Rattle.rml_fol.specs.Statements.{Given};
    ghost use Rattle.rml_fol_plain.specs.Given.{given};

    ghost Value = { Given };

    ghost coded = { Prim.hlevel (codes, tree_of_values.the_row.coded) };

    ghost view = { λ s. given s.env s.store };
}

impl State {
    ghost use Rattle.rml_fol_plain.specs.Given.{given};

    pub fn of(env: Env, store: Store) -> State
        ensures { result ≡ given env store }
    {
        State { env, store }
    }

    pub fn parts(self) -> (Env, Store)
        ensures { given result.0 result.1 ≡ self }
    {
        let State { env, store } = self;
        (env, store)
    }
}
