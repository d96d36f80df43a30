//! What is known of the types of a set, and what names stand for, as trees.

ghost use Rattle.std.specs.Prelude.{◌≡◌, ◌+◌, ◌<◌, ◌^◌, length, IfOk};
ghost use Rattle.std.specs.Option.{option_copied};
ghost use Rattle.rml_signatures.specs.Definitions.{declared_types, types_among, types_in};
ghost use Rattle.rml_signatures.specs.Numbers.{capped};
ghost use Rattle.rml_abbreviations.specs.Written.{meaning_in, written};
ghost use Rattle.rml_signatures.specs.Reading.{context_of};
ghost use Rattle.rml_signatures.specs.Types.{AreTypes, WritesOut, bodies, body, body_by, body_in, context, counts_in, told, types_of};

use crate::definitions::{Definition, declaration, definitions_of, params};
use crate::numbers::{Numbers, capped, numbers_of};
use crate::reading::{View, type_tree};
use rml_abbreviations::{Body, MOST_NODES, written, written_out};
use rml_base::Memory;
use rml_outlines::{Known, add_each};
use rml_syntax::{Decl, Text};
use rml_tables::NameSet;
use rml_types::SchemeTree;
use std::alloc::Global;

/// What is known of the types of a set of texts.
#[derive(Drop)]
pub struct Tables {
    pub numbers: Numbers,
    pub definitions: Vec<Option<Definition>>,
    /// Of each type that stands for another, how many parameters it has.
    pub params: Vec<Option<usize>>,
    /// How many types the set declares. So many times over types are written out.
    pub declared: u32,
}

fn types_in(decl: &Decl) -> usize
    ensures { result ≡ types_in decl.now }
{
    match decl {
        Decl::Datatype(binds) => binds.len(),
        Decl::Abbrev(_, _) => 1,
        Decl::Abstype(_) => 1,
        Decl::Val(_, _, _, _) => 0,
        Decl::Relation(_, _, _, _) => 0,
    }
}

/// A count, and the types that some declarations declare.
fn types_among(count: u32, decls: &[Decl]) -> u32
    ensures { result ≡ capped (count + types_among decls.now) }
{
    let mut count = count;
    for decl in decls {
        count = capped(count, types_in(decl));
    }
    count
}

fn declared_types(texts: &[Text]) -> u32
    ensures { result ≡ capped (0 + declared_types texts.now) }
{
    let mut count = 0;
    for text in texts {
        count = types_among(count, text.specs.as_slice());
        count = types_among(count, text.decls.as_slice());
    }
    count
}

/// What is known of the types of some texts.
fn tables_of(alloc: Global, known: &Known, texts: &[Text]) -> Result<Tables, Memory>
    requires { length texts.now < 2 ^ 32 }
    ensures { IfOk result (λ tables. told known.now tables ≡ types_of known.now texts.now) }
{
    let numbers = numbers_of(alloc, known)?;
    let definitions = definitions_of(alloc, known, &numbers, texts)?;
    let params = params(alloc, texts, &definitions)?;
    let declared = declared_types(texts);
    Ok(Tables {
        numbers,
        definitions,
        params,
        declared,
    })
}

fn counts_in(text: Option<u32>, definition: Definition) -> bool
    ensures { result ≡ counts_in text definition }
{
    if !definition.is_own {
        return true;
    }
    match text {
        None => false,
        Some(text) => definition.text == text,
    }
}

impl Tables {
    /// A half of a text as a place where types are read.
    pub fn view<'a>(
        &'a self,
        known: &'a Known,
        text: u32,
        in_body: bool,
        vars: Option<&'a NameSet<u32>>,
    ) -> View<'a>
        ensures { context_of result ≡ context (told known.now self.now) text in_body (option_copied vars.entry) }
    {
        View {
            known,
            numbers: &self.numbers,
            params: &self.params,
            text,
            in_body,
            vars,
        }
    }

    /// The right side of a definition, by its declaration.
    fn body_by(
        &self,
        alloc: Global,
        known: &Known,
        definition: Definition,
        decl: Option<&Decl>,
    ) -> Result<Option<Body>, Memory>
        ensures { IfOk result (λ b. b ≡ body_by (told known.now self.now) definition (option_copied decl.entry)) }
    {
        let Some(Decl::Abbrev(head, right)) = decl else {
            return Ok(None);
        };
        let mut vars = NameSet::new(alloc);
        add_each(&mut vars, head.vars.as_slice())?;
        let view = self.view(known, definition.text, definition.in_body, Some(&vars));
        let tree = type_tree(alloc, &view, right)?;
        Ok(Some(Body::of(tree)))
    }

    /// What the name of a type stands for as it is written.
    pub fn body(
        &self,
        alloc: Global,
        known: &Known,
        texts: &[Text],
        definition: Definition,
    ) -> Result<Option<Body>, Memory>
        ensures { IfOk result (λ b. b ≡ body (told known.now self.now) texts.now definition) }
    {
        self.body_by(alloc, known, definition, declaration(texts, definition))
    }

    /// The same, where the definition counts: in every text, or in one, with the abstypes that it defines by `type`.
    fn body_in(
        &self,
        alloc: Global,
        known: &Known,
        texts: &[Text],
        text: Option<u32>,
        definition: Option<Definition>,
    ) -> Result<Option<Body>, Memory>
        ensures { IfOk result (λ b. b ≡ body_in (told known.now self.now) texts.now text definition) }
    {
        match definition {
            None => Ok(None),
            Some(definition) => {
                if counts_in(text, definition) {
                    self.body(alloc, known, texts, definition)
                } else {
                    Ok(None)
                }
            }
        }
    }

    /// What all names stand for as it is written.
    fn bodies(
        &self,
        alloc: Global,
        known: &Known,
        texts: &[Text],
        text: Option<u32>,
    ) -> Result<Vec<Option<Body>>, Memory>
        ensures { IfOk result (λ b. b.items ≡ bodies (told known.now self.now) texts.now text) }
    {
        let mut bodies = Vec::new(alloc);
        for definition in &self.definitions {
            bodies.push(self.body_in(alloc, known, texts, text, *definition)?)?;
        }
        Ok(bodies)
    }

    /// A table by which types are written out as often as the set declares types: in every text, or in one.
    pub fn writing(
        &self,
        alloc: Global,
        known: &Known,
        texts: &[Text],
        text: Option<u32>,
    ) -> Result<Vec<Option<Body>>, Memory>
        ensures { IfOk result (λ table. WritesOut (told known.now self.now) texts.now text table.items) }
    {
        let bodies = self.bodies(alloc, known, texts, text)?;
        let table = written_out(alloc, &bodies, self.declared)?;
        Ok(table)
    }
}

/// What is known of the types of a set, and a table by which abbreviations are written out that count in every text.
#[derive(Drop)]
pub struct Types {
    pub tables: Tables,
    pub plain: Vec<Option<Body>>,
}

impl Types {
    /// A type with the abbreviations written out that count in every text.
    pub fn plainly(&self, alloc: Global, tree: &SchemeTree) -> Result<Body, Memory>
        ensures { IfOk result (λ t. t ≡ written (meaning_in self.now.plain.items) tree.now) }
    {
        let mut room = MOST_NODES;
        let tree = written(alloc, &self.plain, &mut room, tree)?;
        Ok(Body::of(tree))
    }
}

/// What is known of the types of some texts. Want of memory also stands for 2^32 types, which no set within the limits has.
pub fn types_of(alloc: Global, known: &Known, texts: &[Text]) -> Result<Types, Memory>
    requires { length texts.now < 2 ^ 32 }
    ensures { IfOk result (AreTypes known.now texts.now) }
{
    let tables = tables_of(alloc, known, texts)?;
    if tables.definitions.len() > u32::MAX as usize {
        return Err(Memory);
    }
    let plain = tables.writing(alloc, known, texts, None)?;
    Ok(Types { tables, plain })
}
