//! Trees from their short forms.

ghost use Rattle.std.specs.Prelude.{◌≡◌, [], ◌∷◌, ◌++◌, IfOk, map};
ghost use Rattle.rml_prelude.specs.Made.{declared_by, defined_by, exp_of, goal_of, pattern_of, rule_of, sig_of, type_of};
ghost use Rattle.rml_prelude.specs.Parts.{call, name as name_of};

use crate::parts::{a, list_of_a, nowhere, one, plain, sig, two};
use crate::short::{ShortExp, ShortGoal, ShortPattern, ShortRule, ShortSig, ShortType};
use crate::word::Word;
use crate::words::Words;
use rml_base::Memory;
use rml_syntax::{Boxed, Decl, Exp, Goal, Items, Lit, Pattern, Rule, Sig, TypeExp};
use std::alloc::Global;

fn type_of(alloc: Global, w: &Words, short: ShortType) -> Result<TypeExp, Memory>
    ensures { IfOk result (λ t. t ≡ type_of w.now short) }
{
    match short {
        ShortType::Any => Ok(a(w)),
        ShortType::Named(name) => plain(alloc, w, name),
        ShortType::Lists => list_of_a(alloc, w),
    }
}

fn types_of(alloc: Global, w: &Words, shorts: &[ShortType]) -> Result<Items<TypeExp>, Memory>
    ensures { IfOk result (λ ts. ts ≡ map (type_of w.now) shorts.now) }
{
    let mut types = Items::new(alloc);
    for short in shorts {
        types.push(type_of(alloc, w, *short)?)?;
    }
    Ok(types)
}

/// The type of a relation with such inputs and such a result.
pub fn sig_of(
    alloc: Global,
    w: &Words,
    inputs: &[ShortType],
    output: ShortType,
) -> Result<Sig, Memory>
    ensures { IfOk result (λ s. s ≡ sig_of w.now inputs.now output) }
{
    let inputs = types_of(alloc, w, inputs)?;
    let output = type_of(alloc, w, output)?;
    sig(alloc, inputs, output)
}

/// A relation in the interface.
fn declared_by(alloc: Global, w: &Words, short: &ShortSig) -> Result<Decl, Memory>
    ensures { IfOk result (λ d. d ≡ declared_by w.now short.now) }
{
    let sig = sig_of(alloc, w, short.inputs, short.output)?;
    Ok(Decl::Relation(
        w.number(short.name),
        nowhere(),
        Some(sig),
        Items::new(alloc),
    ))
}

/// Relations in the interface, behind what is declared before them.
pub fn with_declared(
    alloc: Global,
    w: &Words,
    shorts: &[ShortSig],
    before: Items<Decl>,
) -> Result<Items<Decl>, Memory>
    ensures { IfOk result (λ ds. ds ≡ before ++ map (declared_by w.now) shorts.now) }
{
    let mut decls = before;
    for short in shorts {
        decls.push(declared_by(alloc, w, short)?)?;
    }
    Ok(decls)
}

fn pattern_of(alloc: Global, w: &Words, short: ShortPattern) -> Result<Pattern, Memory>
    ensures { IfOk result (λ p. p ≡ pattern_of w.now short) }
{
    match short {
        ShortPattern::Any => Ok(Pattern::Any),
        ShortPattern::Zero => Ok(Pattern::Lit(Lit::Int(0))),
        ShortPattern::Empty => Ok(Pattern::List(Items::new(alloc))),
        ShortPattern::Name(name) => Ok(w.name(name)),
        ShortPattern::Link(first, rest) => Ok(Pattern::Cons(two(
            alloc,
            w.name(first),
            w.name(rest),
        )?)),
        ShortPattern::First(first) => Ok(Pattern::Cons(two(alloc, w.name(first), Pattern::Any)?)),
        ShortPattern::Rest(rest) => Ok(Pattern::Cons(two(alloc, Pattern::Any, w.name(rest))?)),
    }
}

fn patterns_of(alloc: Global, w: &Words, shorts: &[ShortPattern]) -> Result<Items<Pattern>, Memory>
    ensures { IfOk result (λ ps. ps ≡ map (pattern_of w.now) shorts.now) }
{
    let mut patterns = Items::new(alloc);
    for short in shorts {
        patterns.push(pattern_of(alloc, w, *short)?)?;
    }
    Ok(patterns)
}

fn exp_of(alloc: Global, w: &Words, short: ShortExp) -> Result<Exp, Memory>
    ensures { IfOk result (λ e. e ≡ exp_of w.now short) }
{
    match short {
        ShortExp::Number(number) => Ok(Exp::Lit(Lit::Int(number))),
        ShortExp::Empty => Ok(Exp::List(Items::new(alloc))),
        ShortExp::Name(name) => Ok(w.value(name)),
        ShortExp::Link(first, rest) => Ok(Exp::Cons(two(alloc, w.value(first), w.value(rest))?)),
    }
}

/// A call of a relation with one result, whose pattern is a name.
fn call(
    alloc: Global,
    w: &Words,
    name: Word,
    inputs: Items<Exp>,
    output: Word,
) -> Result<Goal, Memory>
    ensures { IfOk result (λ g. g ≡ call w.now name inputs (name_of w.now output)) }
{
    let outputs = one(alloc, w.name(output))?;
    Ok(Goal::Call(w.long(name), inputs, outputs))
}

/// Two expressions.
fn both_of(
    alloc: Global,
    w: &Words,
    first: ShortExp,
    second: ShortExp,
) -> Result<Items<Exp>, Memory>
    ensures { IfOk result (λ es. es ≡ exp_of w.now first ∷ exp_of w.now second ∷ []) }
{
    let first = exp_of(alloc, w, first)?;
    let second = exp_of(alloc, w, second)?;
    two(alloc, first, second)
}

fn goal_of(alloc: Global, w: &Words, short: ShortGoal) -> Result<Goal, Memory>
    ensures { IfOk result (λ g. g ≡ goal_of w.now short) }
{
    match short {
        ShortGoal::Equal(left, right) => Ok(Goal::Equal(w.long(left), w.value(right))),
        ShortGoal::Differ(left, right) => {
            let same = Goal::Equal(w.long(left), w.value(right));
            Ok(Goal::Not(Boxed::new(alloc, same)?))
        }
        ShortGoal::One(relation, input, output) => {
            let inputs = one(alloc, exp_of(alloc, w, input)?)?;
            call(alloc, w, relation, inputs, output)
        }
        ShortGoal::Two(relation, first, second, output) => {
            let inputs = both_of(alloc, w, first, second)?;
            call(alloc, w, relation, inputs, output)
        }
    }
}

fn goals_of(alloc: Global, w: &Words, shorts: &[ShortGoal]) -> Result<Items<Goal>, Memory>
    ensures { IfOk result (λ gs. gs ≡ map (goal_of w.now) shorts.now) }
{
    let mut goals = Items::new(alloc);
    for short in shorts {
        goals.push(goal_of(alloc, w, *short)?)?;
    }
    Ok(goals)
}

/// A rule of a relation.
fn rule_of(alloc: Global, w: &Words, head: Word, short: &ShortRule) -> Result<Rule, Memory>
    ensures { IfOk result (λ r. r ≡ rule_of w.now head short.now) }
{
    let inputs = patterns_of(alloc, w, short.inputs)?;
    let goals = goals_of(alloc, w, short.goals)?;
    let results = one(alloc, exp_of(alloc, w, short.result)?)?;
    Ok(Rule {
        place: nowhere(),
        head: w.number(head),
        head_place: nowhere(),
        inputs,
        goals,
        results,
        tokens: short.tokens,
    })
}

fn rules_of(
    alloc: Global,
    w: &Words,
    head: Word,
    shorts: &[ShortRule],
) -> Result<Items<Rule>, Memory>
    ensures { IfOk result (λ rs. rs ≡ map (rule_of w.now head) shorts.now) }
{
    let mut rules = Items::new(alloc);
    for short in shorts {
        rules.push(rule_of(alloc, w, head, short)?)?;
    }
    Ok(rules)
}

/// A relation in the body, behind what is declared before it.
pub fn with_defined(
    alloc: Global,
    w: &Words,
    name: Word,
    sig: Option<Sig>,
    shorts: &[ShortRule],
    before: Items<Decl>,
) -> Result<Items<Decl>, Memory>
    ensures { IfOk result (λ ds. ds ≡ before ++ defined_by w.now name sig shorts.now ∷ []) }
{
    let mut decls = before;
    let rules = rules_of(alloc, w, name, shorts)?;
    decls.push(Decl::Relation(w.number(name), nowhere(), sig, rules))?;
    Ok(decls)
}
