//! A block that is being made.

ghost use Rattle.std.specs.Prelude.{◌≡◌, ◌+◌, ◌<◌, ◌^◌, [], ◌∷◌, ◌++◌, IfOk, OnOk};
ghost use Rattle.rml_clause.specs.Plain.{numbers_from};

use rml_base::Memory;
use rml_fol::{Block, Stmt, Vars};
use sqlite_items::Items;
use std::alloc::Global;

/// A block that is being made, and the next variable that is to be set or received.
#[derive(Drop)]
pub struct Making {
    pub stmts: Block,
    pub next: u32,
}

impl Making {
    /// Nothing yet.
    pub fn new(alloc: Global, next: u32) -> Making
        ensures stmts { result.stmts ≡ [] }
        ensures next { result.next ≡ next }
    {
        Making {
            stmts: Items::new(alloc),
            next,
        }
    }

    /// One more statement.
    pub fn add(&mut self, stmt: Stmt) -> Result<(), Memory>
        ensures stmts { OnOk result (self.new.stmts ≡ self.old.stmts ++ stmt ∷ []) }
        ensures next { self.new.next ≡ self.old.next }
    {
        self.stmts.push(stmt)?;
        Ok(())
    }

    /// One more variable.
    pub fn variable(&mut self) -> u32
        requires { self.old.next + 1 < 2 ^ 32 }
        ensures value { result ≡ self.old.next }
        ensures next { self.new.next ≡ self.old.next + 1 }
        ensures stmts { self.new.stmts ≡ self.old.stmts }
    {
        let variable = self.next;
        self.next += 1;
        variable
    }

    /// As many more variables, in order.
    pub fn variables(&mut self, alloc: Global, count: usize) -> Result<Vars, Memory>
        requires { self.old.next + count < 2 ^ 32 }
        ensures values { IfOk result (λ xs. xs ≡ numbers_from self.old.next count) }
        ensures next { OnOk result (self.new.next ≡ self.old.next + count) }
        ensures stmts { self.new.stmts ≡ self.old.stmts }
    {
        let mut variables = Items::new(alloc);
        for _received in 0..count {
            let variable = self.variable();
            variables.push(variable)?;
        }
        Ok(variables)
    }
}
