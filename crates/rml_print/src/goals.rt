//! Goals.

ghost use Rattle.rml_print.specs.Goals.{goal_tokens, goals_tokens};
ghost use Rattle.rml_print.specs.Written.{with_tokens};
ghost use Rattle.std.specs.Prelude.{◌≡◌, OnOk};

use crate::expressions::{print_exp, print_exp_tuple};
use crate::page::Page;
use crate::patterns::{print_pattern, print_result_patterns};
use crate::seats::Seat;
use rml_base::Memory;
use rml_syntax::{Goal, Key, Mark, Token};

/// Goals with `&` between them.
#[cycle(goals)]
pub fn print_goals(page: &mut Page<'_>, goals: &[Goal]) -> Result<(), Memory>
    ensures { OnOk result (page.new ≡ with_tokens page.old (goals_tokens goals.now)) }
{
    for (i, goal) in goals.iter().enumerate() {
        page.separate(i, Token::Sign(Mark::Amp))?;
        print_goal(page, goal)?;
    }
    Ok(())
}

#[cycle(goals)]
fn print_goal(page: &mut Page<'_>, goal: &Goal) -> Result<(), Memory>
    ensures { OnOk result (page.new ≡ with_tokens page.old (goal_tokens goal.now)) }
{
    match goal {
        Goal::Call(callee, arguments, results) => {
            page.long(callee)?;
            print_exp_tuple(page, arguments.as_slice())?;
            print_result_patterns(page, results.as_slice())
        }
        Goal::Equal(left, right) => {
            page.long(left)?;
            page.sign(Mark::Equals)?;
            print_exp(page, right, Seat::Free)
        }
        Goal::Let(pattern, exp) => {
            page.word(Key::KLet)?;
            print_pattern(page, pattern.get(), Seat::Free)?;
            page.sign(Mark::Equals)?;
            print_exp(page, exp, Seat::Free)
        }
        Goal::Not(negated) => {
            page.word(Key::KNot)?;
            print_goal(page, negated.get())
        }
        Goal::All(goals) => {
            page.sign(Mark::OpenRound)?;
            print_goals(page, goals.as_slice())?;
            page.sign(Mark::CloseRound)
        }
    }
}
