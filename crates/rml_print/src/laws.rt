//! What printed bytes are read as. Each function is a law, and does nothing. Together they give what `print_tree` says of
//! reading back.

ghost use Rattle.rml_print.specs.Lines.{Line, lines_bytes, spaced};
ghost use Rattle.rml_print.specs.Printable.{AreReadAs, ArePrintable, IsPrintable};
ghost use Rattle.rml_print.specs.Printed.{printed_sig, printed_text};
ghost use Rattle.rml_print.specs.ReadsBack.{ReadsBack, ReadsNothingElse};
ghost use Rattle.rml_print.specs.Source.{AreOfSomeBytes, IsOfSomeText, IsSigOfSomeText};
ghost use Rattle.rml_print.specs.Texts.{text_lines};
ghost use Rattle.rml_print.specs.Types.{sig_tokens};
ghost use Rattle.rml_syntax.specs.declared.texts.Text.{Text};
ghost use Rattle.rml_syntax.specs.declared.token.Spot.{Spot};
ghost use Rattle.rml_syntax.specs.declared.token.Token.{Token};
ghost use Rattle.rml_syntax.specs.declared.types.Sig.{Sig};
ghost use Rattle.std.specs.List.{flat_map};
ghost use Rattle.std.specs.Prelude.{ℕ, All, List};

/// The bytes of lines are read as the tokens of the lines, and those of tokens on one line as these tokens.
pub fn printed_is_read()
    ensures lines { (text : ℕ) (names : List (List ℕ)) (ls : List Line) → All (λ l. ArePrintable names l.tokens) ls → AreReadAs text names (lines_bytes names ls) (flat_map (λ l. l.tokens) ls) }
    ensures spaced { (text : ℕ) (names : List (List ℕ)) (ts : List Token) → ArePrintable names ts → AreReadAs text names (spaced names ts) ts }
{}

/// Tokens that some bytes spell can be printed. So can each line of a tree of such tokens, and a signature among them.
pub fn texts_are_printable()
    ensures tokens { (names : List (List ℕ)) (spots : List Spot) → AreOfSomeBytes names spots → All (λ s. IsPrintable names s.token) spots }
    ensures lines { (names : List (List ℕ)) (t : Text) → IsOfSomeText names t → All (λ l. ArePrintable names l.tokens) (text_lines t) }
    ensures signature { (names : List (List ℕ)) (s : Sig) → IsSigOfSomeText names s → ArePrintable names (sig_tokens s) }
{}

/// So the bytes of the tree of a text are read as the tokens of its lines, and those of a signature as its tokens.
pub fn printed_texts_are_read()
    ensures tree { (text : ℕ) (names : List (List ℕ)) (t : Text) → IsOfSomeText names t → AreReadAs text names (printed_text names t) (flat_map (λ l. l.tokens) (text_lines t)) }
    ensures signature { (text : ℕ) (names : List (List ℕ)) (s : Sig) → IsSigOfSomeText names s → AreReadAs text names (printed_sig names s) (sig_tokens s) }
{}

/// Where some tokens derive a tree, the tokens that the tree is printed as derive it too, at whatever places they stand:
/// the same tree, but for its places and its counts of tokens, and no other. Nothing is said of limits: the brackets that
/// are printed may nest further than those that were read.
pub fn printed_tokens_derive()
    ensures back { ReadsBack }
    ensures nothing_else { ReadsNothingElse }
{}
