//! Rules: an axiom is one line, and a rule with goals three.

ghost use Rattle.rml_print.specs.Texts.{conclusion, rule_lines};
ghost use Rattle.rml_print.specs.Written.{with_lines, with_tokens};
ghost use Rattle.std.specs.List.{flat_map};
ghost use Rattle.std.specs.Prelude.{◌≡◌, OnOk};

use crate::expressions::print_results;
use crate::goals::print_goals;
use crate::page::Page;
use crate::patterns::print_pattern_tuple;
use rml_base::Memory;
use rml_syntax::{Key, Rule, Token};

/// Blanks before the first line of a rule.
const RULE_INDENT: u32 = 2;

/// Blanks before the dashes and the conclusion of a rule.
const CONCLUSION_INDENT: u32 = 7;

fn print_conclusion(page: &mut Page<'_>, rule: &Rule) -> Result<(), Memory>
    ensures { OnOk result (page.new ≡ with_tokens page.old (conclusion rule.now)) }
{
    page.name(rule.head)?;
    print_pattern_tuple(page, rule.inputs.as_slice())?;
    print_results(page, rule.results.as_slice())
}

fn print_rule(page: &mut Page<'_>, rule: &Rule) -> Result<(), Memory>
    ensures { OnOk result (page.new ≡ with_lines page.old (rule_lines rule.now)) }
{
    page.begin_line(RULE_INDENT)?;
    if rule.goals.is_empty() {
        page.word(Key::KAxiom)?;
    } else {
        page.word(Key::KRule)?;
        print_goals(page, rule.goals.as_slice())?;
        page.end_line()?;
        page.begin_line(CONCLUSION_INDENT)?;
        page.token(Token::Dashes(2))?;
        page.end_line()?;
        page.begin_line(CONCLUSION_INDENT)?;
    }
    print_conclusion(page, rule)?;
    page.end_line()
}

pub fn print_rules(page: &mut Page<'_>, rules: &[Rule]) -> Result<(), Memory>
    ensures { OnOk result (page.new ≡ with_lines page.old (flat_map rule_lines rules.now)) }
{
    for rule in rules {
        print_rule(page, rule)?;
    }
    Ok(())
}
