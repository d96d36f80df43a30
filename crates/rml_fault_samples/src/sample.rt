//! Texts of a sample are read, and the least fault of them is found. An `@` marks the place of the fault; it is no part of the text.

use rml_base::{Bytes, Memory, Names, Place};
use rml_outlines::{Entries, TypeEntry, TypeKind, ValueEntry};
use rml_reading::known_of;
use rml_scopes::{Found, ModFault, World};
use rml_signatures::types_of;
use rml_stages::{Refusal, read_text};
use rml_syntax::Text;
use rml_tables::Table;
use rml_type_facts::{mains_of, type_facts};
use rml_walks::least_fault;
use std::alloc::{AllocError, Global};

/// What of the prelude the samples name.
const PRELUDE: &str =
    "module rml: datatype bool = false | true datatype 'a option = NONE | SOME of 'a relation list_reverse: 'a list => 'a list end relation list_turn: ('a list, 'a list) => 'a list = axiom list_turn([], y) => y end relation list_reverse = rule list_turn(x, []) => y -- list_reverse(x) => y end";

/// The built-in types with the numbers of their parameters.
const TYPES: [(&str, usize); 6] = [
    ("int", 0),
    ("char", 0),
    ("string", 0),
    ("list", 1),
    ("lvar", 1),
    ("vector", 1),
];

/// The built-in relations that the samples name.
const RELATIONS: [&str; 2] = ["int_add", "print"];

/// The fault of a sample, or why there is none to compare.
#[derive(Clone, Copy, Debug, PartialEq, Eq)]
pub enum Answer {
    /// There is no fault.
    Fine,
    At(Place, ModFault),
    /// The texts are no texts, or there was no memory.
    Unread,
    /// A sample has a mark and no fault, or a fault and no mark.
    Unmarked,
}

/// The texts of a sample without their mark, the names of their files, and where the mark stands.
#[derive(Drop)]
pub struct Set {
    texts: Vec<Vec<u8>>,
    files: Vec<Bytes>,
    mark: Option<Place>,
}

impl Set {
    /// A text of an interface and a body, round a relation `main`.
    pub fn of_one(alloc: Global, interface: &str, body: &str) -> Result<Set, AllocError> {
        let mut text = String::from_str(alloc, "module m:\nrelation main: string list => ()\n")?;
        text.push_str(interface)?;
        text.push_str("\nend\nrelation main = axiom main(_) end\n")?;
        text.push_str(body)?;
        let mut set = Set::new(alloc);
        set.add(alloc, "m.rml", text.as_str())?;
        Ok(set)
    }

    /// Texts with the names of their files before them.
    pub fn of(alloc: Global, texts: &str) -> Result<Set, AllocError> {
        let mut set = Set::new(alloc);
        for named in texts.split('%') {
            if let Some((file, text)) = named.split_once(':') {
                set.add(alloc, file.trim(), text)?;
            }
        }
        Ok(set)
    }

    fn new(alloc: Global) -> Set {
        Set {
            texts: Vec::new(alloc),
            files: Vec::new(alloc),
            mark: None,
        }
    }

    /// Adds a text, whose first byte behind blanks stands in column 1.
    fn add(&mut self, alloc: Global, file: &str, text: &str) -> Result<(), AllocError> {
        let mut place = Place {
            text: self.texts.len().min(64) as u32,
            line: 1,
            column: 1,
        };
        let mut bytes = Vec::new(alloc);
        for byte in text.trim_start().bytes() {
            if byte == b'@' {
                self.mark = Some(place);
            } else {
                bytes.push(byte)?;
                place = behind(place, byte);
            }
        }
        self.texts.push(bytes)?;
        self.files.push(Bytes::of(file.as_bytes().to_vec(alloc)?))?;
        Ok(())
    }

    /// What is to be found, where the row names a fault or none.
    pub fn due(&self, fault: Option<ModFault>) -> Answer {
        match (self.mark, fault) {
            (Some(place), Some(fault)) => Answer::At(place, fault),
            (None, None) => Answer::Fine,
            _ => Answer::Unmarked,
        }
    }
}

/// The place behind a byte.
fn behind(place: Place, byte: u8) -> Place {
    if byte == b'\n' {
        Place {
            text: place.text,
            line: place.line.saturating_add(1),
            column: 1,
        }
    } else {
        Place {
            text: place.text,
            line: place.line,
            column: place.column.saturating_add(1),
        }
    }
}

/// Reads a text of the given number. Texts and names of samples are few and short.
fn read(alloc: Global, number: usize, bytes: &[u8], names: &mut Names) -> Result<Text, Refusal> {
    if bytes.len() > 1_048_576 || names.len() > 1_000_000 || number > 64 {
        return Err(Refusal::Memory);
    }
    read_text(alloc, number as u32, bytes, names)
}

fn number_of(names: &mut Names, name: &str) -> Result<u32, Memory> {
    if names.len() > 1_000_000 {
        return Err(Memory);
    }
    names.intern(name.as_bytes())
}

/// The built-in types, and some values.
fn built(alloc: Global, names: &mut Names) -> Result<Entries, Memory> {
    let mut types = Table::new(alloc);
    let mut values = Table::new(alloc);
    for (name, params) in TYPES {
        let entry = TypeEntry {
            kind: TypeKind::BuiltIn,
            params,
        };
        types.declare(number_of(names, name)?, entry)?;
    }
    values.declare(number_of(names, "nil")?, ValueEntry::Constructor(0))?;
    for name in RELATIONS {
        values.declare(number_of(names, name)?, ValueEntry::Relation)?;
    }
    Ok(Entries { types, values })
}

/// The least fault of a set.
fn found(alloc: Global, set: &Set) -> Result<Option<Found>, Refusal> {
    let mut names = Names::new(alloc);
    let prelude = read(alloc, 0, PRELUDE.as_bytes(), &mut names)?;
    let built = built(alloc, &mut names)?;
    let main = number_of(&mut names, "main")?;
    let mut texts = Vec::new(alloc);
    for (number, bytes) in set.texts.iter().enumerate() {
        texts.push(read(alloc, number, bytes.as_slice(), &mut names)?)?;
    }
    least(alloc, &names, set, &prelude, built, main, &texts)
}

/// The least fault of texts that are read.
fn least(
    alloc: Global,
    names: &Names,
    set: &Set,
    prelude: &Text,
    built: Entries,
    main: u32,
    texts: &[Text],
) -> Result<Option<Found>, Refusal> {
    if texts.len() > 64 || set.files.len() != texts.len() {
        return Err(Refusal::Memory);
    }
    let known = known_of(alloc, names, &set.files, prelude, built, texts)?;
    let types = types_of(alloc, &known, texts)?;
    let facts = type_facts(alloc, &known, texts, &types)?;
    let mains = mains_of(alloc, &known, texts, &types, main)?;
    let world = World { known, facts };
    Ok(least_fault(alloc, &world, texts, &mains)?)
}

/// What is found of a set.
pub fn found_in(alloc: Global, set: &Set) -> Answer {
    match found(alloc, set) {
        Err(_) => Answer::Unread,
        Ok(None) => Answer::Fine,
        Ok(Some(found)) => Answer::At(found.place, found.fault),
    }
}
