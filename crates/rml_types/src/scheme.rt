//! Type schemes: a type whose variables stand for all types. What a substitution is, and that a scheme's instances are
//! what its substitutions give, stands in the definitions that are named here.

ghost use Rattle.std.specs.Prelude.{◌≡◌, ◌<◌, ◌&&◌, ◌↔◌, IsTrue, IsSome, IfOk, IfSome, ℕ};
ghost use Rattle.std.specs.List.{list_all};
ghost use Rattle.rml_types.specs.declared.form.TypeCon.{TypeCon};
ghost use Rattle.rml_types.specs.Schemes.{names_below, vars_below};

use crate::form::TypeCon;
use crate::labels::{Label, labels_of};
use crate::tree::{SchemeTree, copy_tree, forget};
use rml_base::Memory;
use std::alloc::Global;

/// A type with its first `vars` variables, from 0 on, free for each use.
#[derive(Debug)]
pub struct Scheme {
    pub vars: u32,
    pub body: SchemeTree,
    pub ghost vars_named: { IsTrue (vars_below vars body) },
}

impl Scheme {
    /// The scheme of a type, for a caller that knows each variable of `body` to be below `vars`.
    pub fn of(vars: u32, body: SchemeTree) -> Scheme
        requires { IsTrue (vars_below vars body) }
        ensures { (result.vars ≡ vars) × (result.body ≡ body) }
    {
        Scheme { vars, body }
    }

    /// The scheme, where each variable of `body` is below `vars`.
    pub fn checked(alloc: Global, vars: u32, body: SchemeTree) -> Result<Option<Scheme>, Memory>
        ensures there { IfOk result (λ o. IsSome o ↔ IsTrue (vars_below vars body)) }
        ensures same { IfOk result (λ o. IfSome o (λ s. (s.vars ≡ vars) × (s.body ≡ body))) }
    {
        match are_below(alloc, vars, &body) {
            Ok(true) => Ok(Some(Scheme::of(vars, body))),
            Ok(false) => {
                forget(body);
                Ok(None)
            }
            Err(memory) => {
                forget(body);
                Err(memory)
            }
        }
    }

    /// The same scheme, once more.
    pub fn copy(&self, alloc: Global) -> Result<Scheme, Memory>
        ensures { IfOk result (λ s. s ≡ self.now) }
    {
        Ok(Scheme {
            vars: self.vars,
            body: copy_tree(alloc, &self.body)?,
        })
    }
}

impl Drop for Scheme {
    fn drop(self) {
        let Scheme { vars: _, body } = self;
        forget(body);
    }
}

/// Whether a label that is a variable is one below `vars`.
fn is_below(vars: u32, con: TypeCon) -> bool
    ensures { result ≡ names_below vars con }
{
    match con {
        TypeCon::Fixed(k) => k < vars,
        _ => true,
    }
}

/// Whether each label that is a variable is one below `vars`.
fn are_labels_below(vars: u32, labels: &[Label]) -> bool
    ensures { result ≡ list_all (λ (l : TypeCon × ℕ). names_below vars l.0) labels.now }
{
    for (con, _) in labels {
        if !is_below(vars, *con) {
            return false;
        }
    }
    true
}

/// Whether each variable of a type is below `vars`. It goes by the type's labels, so that deep types need no deep stack.
pub fn are_below(alloc: Global, vars: u32, tree: &SchemeTree) -> Result<bool, Memory>
    ensures { IfOk result (λ b. b ≡ vars_below vars tree.now) }
{
    let labels = labels_of(alloc, tree)?;
    Ok(are_labels_below(vars, &labels))
}
