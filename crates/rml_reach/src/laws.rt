//! What holds of paths, for callers. The functions are laws: each says by its contract what is true, and does nothing.

ghost use Rattle.std.specs.Prelude.{◌≡◌, ℕ, List, length, true};
ghost use Rattle.rml_reach.specs.Paths.{Path};
ghost use Rattle.rml_reach.specs.Within.{reaches_within};

/// Where there is a path, there is one with at most as many edges as there are nodes; so the test with that bound tells whether there is
/// a path.
pub fn short_paths_are_enough()
    ensures enough { (edges : List (List ℕ)) (a b : ℕ) → Path edges a b → reaches_within (length edges) edges a b ≡ true }
    ensures sound { (n : ℕ) (edges : List (List ℕ)) (a b : ℕ) → reaches_within n edges a b ≡ true → Path edges a b }
{}
