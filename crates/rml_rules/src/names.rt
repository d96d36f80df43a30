//! Names by numbers.

ghost use Rattle.std.specs.Prelude.{◌≡◌, ◌-◌, ◌^◌, min};
ghost use Rattle.rml_rules.specs.Names.{callee_of, con_of, value_of, variable};

use crate::env::Env;
use rml_named::{number_behind, row_number};
use rml_resolved::{Callee, RExp, RPat};
use rml_scopes::{Role, Scope};
use rml_syntax::Long;
use rml_values::Meant;
use sqlite_items::Items;
use std::alloc::Global;

/// A row of the table of built-ins, which is short.
fn row_cut(row: usize) -> u16
    ensures { result ≡ min row (2 ^ 16 - 1) }
{
    match u16::try_from(row) {
        Ok(row) => row,
        Err(_) => u16::MAX,
    }
}

/// The number of a variable: its place among those that are bound so far, or the next where it is not.
pub fn variable(scope: &Scope, name: u32) -> u32
    ensures { result ≡ variable scope.now name }
{
    if scope.bound.has(name) {
        number_behind(0, scope.bound.place(name))
    } else {
        number_behind(number_behind(0, scope.bound.len()), scope.part.place(name))
    }
}

impl Env {
    ghost use Rattle.std.specs.Prelude.{[]};
    ghost use Rattle.rml_rules.specs.Names.{callee, con, named, no_relation, row_relation, value};

    /// The relation of a built-in that is named as a value.
    #[tactic(auto, unfolding(crate::specs::Names::row_relation))]
    fn row_relation(&self, row: usize) -> u32
        ensures { result ≡ row_relation self.now row }
    {
        row_number(self.values.end.relations, &self.named, row)
    }

    /// The number behind all relations.
    #[tactic(auto, unfolding(crate::specs::Names::no_relation))]
    fn no_relation(&self) -> u32
        ensures { result ≡ no_relation self.now }
    {
        number_behind(self.values.end.relations, self.named.len())
    }

    fn con_of(&self, meant: Meant) -> u32
        ensures { result ≡ con_of self.now meant }
    {
        match meant {
            Meant::Con(number, _) => number,
            _ => self.values.end.cons,
        }
    }

    fn value_of(&self, alloc: Global, scope: &Scope, name: u32, meant: Meant) -> RExp
        ensures { result ≡ value_of self.now scope.now name meant }
    {
        match meant {
            Meant::Variable => RExp::Var(variable(scope, name)),
            Meant::Con(number, _) => RExp::Con(number, Items::new(alloc)),
            Meant::Val(number) => RExp::Val(number),
            Meant::Rel(number) => RExp::Rel(number),
            Meant::Built(row) => RExp::Rel(self.row_relation(row)),
            Meant::Nothing => RExp::Rel(self.no_relation()),
        }
    }

    fn callee_of(&self, scope: &Scope, name: u32, meant: Meant) -> Callee
        ensures { result ≡ callee_of self.now scope.now name meant }
    {
        match meant {
            Meant::Variable => Callee::Var(variable(scope, name)),
            Meant::Con(_, _) => Callee::Rel(self.no_relation()),
            Meant::Val(number) => Callee::Val(number),
            Meant::Rel(number) => Callee::Rel(number),
            Meant::Built(row) => Callee::Built(row_cut(row)),
            Meant::Nothing => Callee::Rel(self.no_relation()),
        }
    }

    /// The constructor that stands before arguments.
    #[tactic(auto, unfolding(crate::specs::Names::con))]
    pub fn con(&self, scope: &Scope, long: Long) -> u32
        ensures { result ≡ con self.now scope.now long }
    {
        self.con_of(self.values.meant(&self.world.known, scope, long))
    }

    /// A name alone in an expression.
    #[tactic(auto, unfolding(crate::specs::Names::value))]
    pub fn value(&self, alloc: Global, scope: &Scope, long: Long) -> RExp
        ensures { result ≡ value self.now scope.now long }
    {
        let meant = self.values.meant(&self.world.known, scope, long);
        self.value_of(alloc, scope, long.name, meant)
    }

    /// What a premise calls.
    #[tactic(auto, unfolding(crate::specs::Names::callee))]
    pub fn callee(&self, scope: &Scope, long: Long) -> Callee
        ensures { result ≡ callee self.now scope.now long }
    {
        let meant = self.values.meant(&self.world.known, scope, long);
        self.callee_of(scope, long.name, meant)
    }

    /// A name alone in a pattern: a variable that it binds, or a constructor.
    #[tactic(auto, unfolding(crate::specs::Names::named))]
    pub fn named_pattern(&self, alloc: Global, scope: &Scope, long: Long) -> RPat
        ensures { result ≡ named self.now scope.now long }
    {
        if scope.binds(&self.world.known, Role::Pattern, long) {
            RPat::Var(variable(scope, long.name))
        } else {
            RPat::Con(self.con(scope, long), Items::new(alloc))
        }
    }
}
