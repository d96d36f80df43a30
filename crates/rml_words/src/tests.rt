//! The forms of the command line, and words that are of none.

use super::*;
use rml_base::limits;
use std::alloc::{AllocError, Global};
use std::process::Abort;
use std::test::Fail;

/// Words, and what they ask for.
const LINES: [(&[&str], &str); 26] = [
    (&["check", "a"], "Check { files: [\"a\"] }"),
    (
        &["check", "a", "-", "-b"],
        "Check { files: [\"a\", \"-\", \"-b\"] }",
    ),
    (&["show", "tokens", "a"], "ShowTokens { file: \"a\" }"),
    (&["show", "tree", "-"], "ShowTree { file: \"-\" }"),
    (
        &["show", "types", "a"],
        "Show { stage: Types, files: [\"a\"] }",
    ),
    (
        &["show", "clauses", "a", "b"],
        "Show { stage: Clauses, files: [\"a\", \"b\"] }",
    ),
    (
        &["show", "factored", "a"],
        "Show { stage: Factored, files: [\"a\"] }",
    ),
    (
        &["show", "trees", "a"],
        "Show { stage: Trees, files: [\"a\"] }",
    ),
    (&["show", "cps", "a"], "Show { stage: Cps, files: [\"a\"] }"),
    (
        &["show", "simple", "a"],
        "Show { stage: Simple, files: [\"a\"] }",
    ),
    (
        &["show", "code", "a"],
        "Show { stage: Code, files: [\"a\"] }",
    ),
    (
        &["show", "c", "a", "b"],
        "ShowC { cells: 16777216, files: [\"a\", \"b\"] }",
    ),
    (
        &["show", "c", "--cells", "1", "a"],
        "ShowC { cells: 1, files: [\"a\"] }",
    ),
    (
        &["run", "a", "b"],
        "Run { cells: 16777216, steps: 100000000, files: [\"a\", \"b\"], arguments: [] }",
    ),
    (
        &["run", "--cells", "67108864", "--steps", "0", "a"],
        "Run { cells: 67108864, steps: 0, files: [\"a\"], arguments: [] }",
    ),
    (
        &[
            "run",
            "--steps",
            "1000000000000",
            "--cells",
            "0000000000001",
            "a",
        ],
        "Run { cells: 1, steps: 1000000000000, files: [\"a\"], arguments: [] }",
    ),
    (
        &["run", "--cells", "9", "a"],
        "Run { cells: 9, steps: 100000000, files: [\"a\"], arguments: [] }",
    ),
    (
        &["run", "--steps", "9", "a"],
        "Run { cells: 16777216, steps: 9, files: [\"a\"], arguments: [] }",
    ),
    (
        &["run", "a", "--"],
        "Run { cells: 16777216, steps: 100000000, files: [\"a\"], arguments: [] }",
    ),
    (
        &["run", "a", "--", "", "--", "--cells"],
        "Run { cells: 16777216, steps: 100000000, files: [\"a\"], arguments: [\"\", \"--\", \"--cells\"] }",
    ),
    (
        &["crun", "a"],
        "Crun { steps: 100000000, file: \"a\", arguments: [] }",
    ),
    (
        &["crun", "--steps", "5", "a", "--", "x", "y"],
        "Crun { steps: 5, file: \"a\", arguments: [\"x\", \"y\"] }",
    ),
    (
        &["crun", "a", "--"],
        "Crun { steps: 100000000, file: \"a\", arguments: [] }",
    ),
    (&["make", "1"], "Make { relations: 1 }"),
    (&["make", "3000"], "Make { relations: 3000 }"),
    (&["make", "0003000"], "Make { relations: 3000 }"),
];

/// Words of no form.
const FAULTY: [&[&str]; 45] = [
    &[],
    &[""],
    &["help"],
    &["--help"],
    &["check"],
    &["check", ""],
    &["check", "a", ""],
    &["check", "--"],
    &["check", "a", "--", "b"],
    &["check", "a", "--"],
    &["check", "--cells", "1", "a"],
    &["show"],
    &["show", "tokens"],
    &["show", "tokens", "a", "b"],
    &["show", "tokens", "--a"],
    &["show", "tree", ""],
    &["show", "types"],
    &["show", "type", "a"],
    &["show", "c"],
    &["show", "c", "a", "--cells", "1"],
    &["show", "c", "--steps", "1", "a"],
    &["show", "c", "--cells", "1", "--cells", "1", "a"],
    &["run"],
    &["run", "--", "x"],
    &["run", "--cells", "0", "a"],
    &["run", "--cells", "67108865", "a"],
    &["run", "--cells", "a"],
    &["run", "--cells"],
    &["run", "--cells", "1", "--cells", "1", "a"],
    &["run", "--cells", "1", "--steps", "1", "--cells", "1", "a"],
    &["run", "--steps", "5", "--steps", "6", "a"],
    &["run", "--steps=5", "a"],
    &["run", "--steps", "1000000000001", "a"],
    &["run", "--steps", "00000000000005", "a"],
    &["run", "--steps", "", "a"],
    &["run", "--steps", "+5", "a"],
    &["run", "--steps", "5:", "a"],
    &["run", "a", "--cells", "1"],
    &["crun", "a", "b"],
    &["crun", "--cells", "1", "a"],
    &["crun", "--", "x"],
    &["make"],
    &["make", "0"],
    &["make", "3001"],
    &["make", "1", "2"],
];

fn words_of(alloc: Global, words: &[&str]) -> Result<Vec<String>, AllocError> {
    let mut owned = Vec::new(alloc);
    for word in words {
        owned.push(String::from_str(alloc, word)?)?;
    }
    Ok(owned)
}

#[test]
fn each_form_is_read(rt: HostRuntime) -> Result<(), Fail> {
    for (line, wanted) in &LINES {
        let words = words_of(rt.alloc(), line)?;
        let command = read_words(words.as_slice()).expect(&rt, "a line");
        let asked = format!(in rt.alloc(); "{command:?}")?;
        assert_eq!(rt; asked.as_str(), *wanted);
    }
    Ok(())
}

#[test]
fn words_of_no_form_are_faulty(rt: HostRuntime) -> Result<(), Fail> {
    for line in &FAULTY {
        let words = words_of(rt.alloc(), line)?;
        assert!(rt; read_words(words.as_slice()).is_none());
    }
    Ok(())
}

#[test]
fn an_argument_has_at_most_a_mebibyte(rt: HostRuntime) -> Result<(), Fail> {
    let mut words = words_of(rt.alloc(), &["run", "a", "--"])?;
    let mut long = String::new(rt.alloc());
    for _ in 0..limits::ARGUMENT {
        long.push_str("x")?;
    }
    words.push(long.clone()?)?;
    assert!(rt; read_words(words.as_slice()).is_some());
    long.push_str("x")?;
    words.push(long)?;
    assert!(rt; read_words(words.as_slice()).is_none());
    Ok(())
}
