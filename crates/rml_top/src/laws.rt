//! What is due, and what is written, of all lines together. The functions are laws, and do nothing.

ghost use Rattle.rml_base.specs.declared.limits.TheConstants.{ARGUMENT, ARGUMENTS, BYTES, CELLS, C_TEXT, DEFAULT_CELLS, DEFAULT_STEPS, LITERAL, NESTING, RULES, STEPS, TEXTS, TOTAL, TYPES};
ghost use Rattle.rml_io.specs.Files.{Held};
ghost use Rattle.rml_top.specs.Answers.{IsDueFor, OnlyAccepted, RunsFirstForm};
ghost use Rattle.rml_top.specs.Due.{IsDue, IsMissing};
ghost use Rattle.rml_top.specs.Ends.{IsPerformed, Work};
ghost use Rattle.rml_top.specs.declared.status.Status.{Status};
ghost use Rattle.rml_top.specs.declared.status.Status.TheVariants.{Done};
ghost use Rattle.rml_words.specs.Forms.{Asks};
ghost use Rattle.std.specs.Prelude.{◌≡◌, ◌⊎◌, ℕ, List, None, Some};
ghost use Rattle.std.specs.declared.option.Option.{Option};

/// Where it is told what the files hold, one status is due for a line, with one output; or a file is due that is not held,
/// and one alone; and not both.
pub fn one_due()
    ensures each { (files : Held) (words : List (List ℕ)) (line : Option Asks) → ((status : Status) × (out : List ℕ) × IsDue (Some files) words line status out) ⊎ ((number : ℕ) × IsMissing files line number) }
    ensures due { (files : Held) (words : List (List ℕ)) (line : Option Asks) (s t : Status) (a b : List ℕ) → IsDue (Some files) words line s a → IsDue (Some files) words line t b → (s ≡ t) × (a ≡ b) }
    ensures missing { (files : Held) (line : Option Asks) (j k : ℕ) → IsMissing files line j → IsMissing files line k → j ≡ k }
    ensures either { (files : Held) (words : List (List ℕ)) (line : Option Asks) (status : Status) (out : List ℕ) (number : ℕ) → IsDue (Some files) words line status out → IsMissing files line number → ⊥ }
{}

/// Whatever is due, nothing is written to the output but a front of what accepted texts give.
pub fn only_accepted_texts_give_output()
    ensures { (w : Work) (due : Status) → IsPerformed w due → OnlyAccepted w }
{}

/// For `run FILE`, where the file holds a text of the first form, it is due that the call is done and what the text prints is
/// written.
pub fn first_form_is_due()
    ensures { (w : Work) (text : List ℕ) → RunsFirstForm w text → IsDueFor w (Done None) text }
{}

/// The limits are these numbers.
pub fn limits_are_numbers()
    ensures texts { (TEXTS ≡ 64) × (ARGUMENTS ≡ 64) × (BYTES ≡ 1048576) × (TOTAL ≡ 4194304) }
    ensures within_texts { (LITERAL ≡ 65535) × (NESTING ≡ 200) × (RULES ≡ 4096) × (TYPES ≡ 65536) }
    ensures runs { (ARGUMENT ≡ 1048576) × (CELLS ≡ 67108864) × (DEFAULT_CELLS ≡ 16777216) × (STEPS ≡ 1000000000000) × (DEFAULT_STEPS ≡ 100000000) × (C_TEXT ≡ 67108864) }
{}
