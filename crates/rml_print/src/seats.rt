//! Which round brackets stand that leave no trace in a tree: a table of where a tree stands and what it is.

ghost use Rattle.rml_print.specs.Seats.{exp_shape, is_bracketed, pattern_shape, type_shape};
ghost use Rattle.std.specs.Prelude.{◌≡◌};

use rml_syntax::{Exp, Pattern, TypeExp};

/// Where a tree stands.
#[derive(Clone, Copy, Debug, PartialEq, Eq)]
pub enum Seat {
    /// Anywhere else.
    Free,
    /// An item of a `::` chain.
    Item,
    /// Directly behind an `as`.
    BehindAs,
    /// The single result of a rule, or the single pattern for the result of a call.
    OnlyResult,
    /// A factor of a tuple type, or a part of a constructor.
    Factor,
    /// The single argument of a type name.
    OnlyArgument,
}

/// What a tree is, as far as brackets round it depend on it.
#[derive(Clone, Copy, Debug, PartialEq, Eq)]
pub enum Shape {
    /// A `::` chain.
    Chain,
    /// A pattern with an `as`.
    Binding,
    Tuple,
    /// A type with names behind it.
    Named,
    Other,
}

/// Whether one pair of round brackets stands round a tree of this shape in this seat.
pub fn is_bracketed(seat: Seat, shape: Shape) -> bool
    ensures { result ≡ is_bracketed seat shape }
{
    matches!(
        (seat, shape),
        (Seat::Item, Shape::Chain | Shape::Binding)
            | (Seat::BehindAs, Shape::Binding)
            | (Seat::OnlyResult, Shape::Tuple)
            | (Seat::Factor, Shape::Tuple)
            | (Seat::OnlyArgument, Shape::Tuple | Shape::Named)
    )
}

pub fn type_shape(tree: &TypeExp) -> Shape
    ensures { result ≡ type_shape tree.now }
{
    match tree {
        TypeExp::Var(_, _) => Shape::Other,
        TypeExp::App(_, _) => Shape::Named,
        TypeExp::Tuple(_) => Shape::Tuple,
        TypeExp::Rel(_) => Shape::Other,
    }
}

pub fn pattern_shape(tree: &Pattern) -> Shape
    ensures { result ≡ pattern_shape tree.now }
{
    match tree {
        Pattern::Tuple(_) => Shape::Tuple,
        Pattern::Cons(_) => Shape::Chain,
        Pattern::Bind(_, _, _) => Shape::Binding,
        _ => Shape::Other,
    }
}

pub fn exp_shape(tree: &Exp) -> Shape
    ensures { result ≡ exp_shape tree.now }
{
    match tree {
        Exp::Tuple(_) => Shape::Tuple,
        Exp::Cons(_) => Shape::Chain,
        _ => Shape::Other,
    }
}
