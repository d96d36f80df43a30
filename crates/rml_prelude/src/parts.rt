//! What the prelude's tree is made of: its place, short lists, types, and the heads of declarations.

ghost use Rattle.std.specs.Prelude.{◌≡◌, [], ◌∷◌, IfOk};
ghost use Rattle.rml_prelude.specs.Parts.{a, con, head, list_of_a, nowhere, plain, sig};

use crate::word::Word;
use crate::words::Words;
use rml_base::{Memory, Place};
use rml_syntax::{ConBind, Items, Sig, TypeExp, TypeHead};
use std::alloc::Global;

/// The place of all that the prelude has. It stands before each place of a text.
pub fn nowhere() -> Place
    ensures { result ≡ nowhere }
{
    Place {
        text: 0,
        line: 0,
        column: 0,
    }
}

pub fn one<T: Drop>(alloc: Global, first: T) -> Result<Items<T>, Memory>
    ensures { IfOk result (λ items. items ≡ first ∷ []) }
{
    let mut items = Items::new(alloc);
    items.push(first)?;
    Ok(items)
}

pub fn two<T: Drop>(alloc: Global, first: T, second: T) -> Result<Items<T>, Memory>
    ensures { IfOk result (λ items. items ≡ first ∷ second ∷ []) }
{
    let mut items = one(alloc, first)?;
    items.push(second)?;
    Ok(items)
}

/// The type variable.
pub fn a(w: &Words) -> TypeExp
    ensures { result ≡ a w.now }
{
    TypeExp::Var(w.number(Word::TypeA), nowhere())
}

/// A type without arguments.
pub fn plain(alloc: Global, w: &Words, name: Word) -> Result<TypeExp, Memory>
    ensures { IfOk result (λ t. t ≡ plain w.now name) }
{
    let names = one(alloc, w.long(name))?;
    Ok(TypeExp::App(Items::new(alloc), names))
}

/// The lists of the type variable.
pub fn list_of_a(alloc: Global, w: &Words) -> Result<TypeExp, Memory>
    ensures { IfOk result (λ t. t ≡ list_of_a w.now) }
{
    let arguments = one(alloc, a(w))?;
    let names = one(alloc, w.long(Word::List))?;
    Ok(TypeExp::App(arguments, names))
}

/// A type of relations with one result.
pub fn sig(alloc: Global, inputs: Items<TypeExp>, output: TypeExp) -> Result<Sig, Memory>
    ensures { IfOk result (λ s. s ≡ sig inputs output) }
{
    let outputs = one(alloc, output)?;
    Ok(Sig { inputs, outputs })
}

/// The head of a datatype.
pub fn head(w: &Words, vars: Items<u32>, name: Word) -> TypeHead
    ensures { result ≡ head w.now vars name }
{
    TypeHead {
        vars,
        name: w.number(name),
        place: nowhere(),
    }
}

/// A constructor.
pub fn con(w: &Words, name: Word, parts: Items<TypeExp>) -> ConBind
    ensures { result ≡ con w.now name parts }
{
    ConBind {
        name: w.number(name),
        place: nowhere(),
        parts,
    }
}
