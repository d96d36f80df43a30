//! The length of the longest rule, by which a step of the search is weighed.

ghost use Rattle.std.specs.Prelude.{◌≡◌, max, fold};
ghost use Rattle.rml_resolved.specs.Size.{relation_tokens, tokens_of, longest as longest_of};

use crate::tables::RelDef;

/// The greater of a number and the tokens of a relation's longest rule.
fn longer(least: u32, rel: &RelDef) -> u32
    ensures { result ≡ fold max least (tokens_of rel.now) }
{
    let mut tokens = least;
    for rule in rel.rules.as_slice() {
        tokens = tokens.max(rule.tokens);
    }
    tokens
}

/// The tokens of the longest rule, or 0 where there is none.
pub fn longest(rels: &[RelDef]) -> u32
    ensures { result ≡ longest_of rels.now }
{
    let mut tokens = 0;
    for rel in rels {
        tokens = longer(tokens, rel);
    }
    tokens
}
