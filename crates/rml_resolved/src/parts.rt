//! The tables of which a program is made, and how many they hold.

use crate::tables::{ConDef, RelDef, TypeDef, ValDef};
use rml_base::Bytes;
use sqlite_items::Items;

/// The tables of a program, which may not fit.
#[derive(Drop)]
pub struct Parts {
    pub names: Items<Bytes>,
    pub types: Items<TypeDef>,
    pub cons: Items<ConDef>,
    pub vals: Items<ValDef>,
    pub rels: Items<RelDef>,
    pub main: u32,
    pub gives: bool,
}

/// How long the tables are of which nothing else counts here.
#[derive(Clone, Copy, Debug)]
pub struct Counts {
    pub names: usize,
    pub vals: usize,
    pub rels: usize,
}
