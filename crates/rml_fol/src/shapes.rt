//! What a term is, as far as brackets go.

ghost use Rattle.std.specs.Prelude.{◌≡◌};
ghost use Rattle.rml_fol.specs.declared.parts.Parts.{Parts};
ghost use Rattle.rml_fol.specs.TermText.{pattern_written, expression_written};

use crate::terms::{Expression, Pattern};

/// What a term is, as far as brackets go.
#[derive(Clone, Copy)]
pub enum Shape {
    /// A chain of `::`.
    Chain,
    /// A variable with `as`.
    Binding,
    Other,
}

pub fn pattern_shape(pattern: &Pattern) -> Shape
    ensures { (p : Parts) → (pattern_written p pattern.now).shape ≡ result }
{
    match pattern {
        Pattern::Any => Shape::Other,
        Pattern::Lit(_) => Shape::Other,
        Pattern::Var(_) => Shape::Other,
        Pattern::Con(_, _) => Shape::Other,
        Pattern::Tuple(_) => Shape::Other,
        Pattern::List(_) => Shape::Other,
        Pattern::Cons(_) => Shape::Chain,
        Pattern::Bind(_, _) => Shape::Binding,
    }
}

pub fn expression_shape(expression: &Expression) -> Shape
    ensures { (p : Parts) → (expression_written p expression.now).shape ≡ result }
{
    match expression {
        Expression::Lit(_) => Shape::Other,
        Expression::Var(_) => Shape::Other,
        Expression::Val(_) => Shape::Other,
        Expression::Rel(_) => Shape::Other,
        Expression::Con(_, _) => Shape::Other,
        Expression::Tuple(_) => Shape::Other,
        Expression::List(_) => Shape::Other,
        Expression::Cons(_) => Shape::Chain,
    }
}
