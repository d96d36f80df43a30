//! What has been written, and where the next token goes: blanks between tokens, and lines.

ghost use Rattle.rml_print.specs.Lines.{gap_before, holds_last, holds_next, is_tight};
ghost use Rattle.rml_print.specs.Parts.{long_tokens, separator_before};
ghost use Rattle.rml_print.specs.Written.{begun, ended, with_token, with_tokens};
ghost use Rattle.std.specs.Prelude.{◌≡◌, ◌++◌, [], None, OnOk};
ghost use Rattle.rml_syntax.specs.declared.token.Token.TheVariants as token;

use crate::spelling::{write_repeated, write_token};
use rml_base::{Memory, Names};
use rml_syntax::{Key, Long, Mark, Token};
use std::alloc::Global;
use std::marker::Model;

/// The bytes so far, and the last token of the line that is being written.
#[derive(Drop)]
pub struct Page<'a> {
    names: &'a Names,
    out: Vec<u8>,
    last: Option<Token>,
}

impl<'a> Model for Page<'a> {
    ghost use Rattle.rml_print.specs.Written.{Written};

    ghost Value = { Written };

    ghost view = { λ p. record { names = p.names.now; out = p.out.items; last = p.last } };
}

fn holds_next(token: Token) -> bool
    ensures { result ≡ holds_next token }
{
    matches!(
        token,
        Token::Sign(Mark::OpenRound | Mark::OpenSquare | Mark::Dot)
    )
}

fn holds_last(token: Token) -> bool
    ensures { result ≡ holds_last token }
{
    matches!(
        token,
        Token::Sign(Mark::CloseRound | Mark::CloseSquare | Mark::Comma | Mark::Colon | Mark::Dot)
    )
}

/// Whether no blank stands between the two tokens.
fn is_tight(left: Token, right: Token) -> bool
    ensures { result ≡ is_tight left right }
{
    holds_next(left)
        || holds_last(right)
        || matches!(left, Token::Name(_)) && right == Token::Sign(Mark::OpenRound)
}

impl<'a> Page<'a> {
    pub fn new(alloc: Global, names: &'a Names) -> Page<'a>
        ensures { result ≡ record { names = names.now; out = []; last = None } }
    {
        Page {
            names,
            out: Vec::new(alloc),
            last: None,
        }
    }

    #[tactic(auto, unfolding(crate::specs::Written::with_token))]
    pub fn token(&mut self, token: Token) -> Result<(), Memory>
        ensures { OnOk result (self.new ≡ with_token self.old token) }
    {
        if let Some(last) = self.last
            && !is_tight(last, token)
        {
            self.out.push(b' ')?;
        }
        write_token(&mut self.out, self.names, token)?;
        self.last = Some(token);
        Ok(())
    }

    pub fn sign(&mut self, sign: Mark) -> Result<(), Memory>
        ensures { OnOk result (self.new ≡ with_token self.old (token.Sign sign)) }
    {
        self.token(Token::Sign(sign))
    }

    pub fn word(&mut self, key: Key) -> Result<(), Memory>
        ensures { OnOk result (self.new ≡ with_token self.old (token.Word key)) }
    {
        self.token(Token::Word(key))
    }

    pub fn name(&mut self, name: u32) -> Result<(), Memory>
        ensures { OnOk result (self.new ≡ with_token self.old (token.Name name)) }
    {
        self.token(Token::Name(name))
    }

    /// A name with or without its module.
    pub fn long(&mut self, long: &Long) -> Result<(), Memory>
        ensures { OnOk result (self.new ≡ with_tokens self.old (long_tokens long.now)) }
    {
        if let Some(module) = long.module {
            self.name(module)?;
            self.sign(Mark::Dot)?;
        }
        self.name(long.name)
    }

    /// The separator before the item of this number, counted from 0: before each but the first.
    #[tactic(auto, unfolding(crate::specs::Parts::separator_before))]
    pub fn separate(&mut self, number: usize, separator: Token) -> Result<(), Memory>
        ensures { OnOk result (self.new ≡ with_tokens self.old (separator_before separator number)) }
    {
        if number == 0 {
            return Ok(());
        }
        self.token(separator)
    }

    /// Begins a line that is indented by so many blanks.
    #[tactic(auto, unfolding(crate::specs::Written::begun))]
    pub fn begin_line(&mut self, indent: u32) -> Result<(), Memory>
        ensures { OnOk result (self.new ≡ begun indent self.old) }
    {
        write_repeated(&mut self.out, indent, b' ')?;
        self.last = None;
        Ok(())
    }

    #[tactic(auto, unfolding(crate::specs::Written::ended))]
    pub fn end_line(&mut self) -> Result<(), Memory>
        ensures { OnOk result (self.new ≡ ended self.old) }
    {
        self.out.push(b'\n')?;
        self.last = None;
        Ok(())
    }

    pub fn finish(self) -> Vec<u8>
        ensures { result.items ≡ self.entry.out }
    {
        let Page {
            names: _,
            out,
            last: _,
        } = self;
        out
    }
}
