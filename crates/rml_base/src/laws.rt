//! What holds of numbers for names, and of any two things that have runs. The functions are laws: each says by its contract what is
//! true, and does nothing.

ghost use Rattle.std.specs.Prelude.{◌≡◌, ◌<◌, ℕ, false, List, [], length, slice_index_or};
ghost use Rattle.rml_base.specs.Bytes.{AreBytes};
ghost use Rattle.rml_base.specs.Numbering.{GrowsBy, IsDistinct, is_known, number_in, with_name};
ghost use Rattle.rml_base.specs.Run.{goes};
ghost use Rattle.rml_base.specs.Monotone.{IsMonotone};
ghost use Rattle.rml_base.specs.Same.{Same, Together};
ghost use Rattle.rml_base.specs.Light.{Light, NoWrong};
ghost use Rattle.rml_base.specs.Limit.{at_limit, LooksAtNoLimit};

use crate::meaning::Meaning;

/// What `intern` means: the number that it gives is below the count and stands for the bytes, known bytes keep their
/// number, others get the next, and each old number stands for what it stood for.
pub fn numbers_stand()
    ensures given { (names : List (List ℕ)) (bytes : List ℕ) → number_in names bytes < length (with_name names bytes) }
    ensures bytes { (names : List (List ℕ)) (bytes : List ℕ) → slice_index_or (with_name names bytes) (number_in names bytes) [] ≡ bytes }
    ensures known { (names : List (List ℕ)) (k : ℕ) → IsDistinct names → k < length names → number_in names (slice_index_or names k []) ≡ k }
    ensures next { (names : List (List ℕ)) (bytes : List ℕ) → is_known names bytes ≡ false → number_in names bytes ≡ length names }
    ensures one { (names : List (List ℕ)) (bytes : List ℕ) → GrowsBy 1 names (with_name names bytes) }
    ensures old { (most k : ℕ) (names new : List (List ℕ)) → GrowsBy most names new → k < length names → slice_index_or new k [] ≡ slice_index_or names k [] }
{}

/// A program means the same as itself.
pub fn same_reflexive<P: Meaning>(_p: &P)
    ensures { Same (goes (P.runs _p.now)) (goes (P.runs _p.now)) }
{}

/// What means the same as something that means the same as a third, means the same as the third.
pub fn same_transitive<P: Meaning, X: Meaning, Y: Meaning>(_p: &P, _x: &X, _y: &Y)
    requires first { Same (goes (P.runs _p.now)) (goes (X.runs _x.now)) }
    requires second { Same (goes (X.runs _x.now)) (goes (Y.runs _y.now)) }
    ensures { Same (goes (P.runs _p.now)) (goes (Y.runs _y.now)) }
{}

/// Two that mean the same end together: with the same outcome and text, the later one in no more steps, or Full.
pub fn same_ends<P: Meaning, X: Meaning>(_p: &P, _x: &X)
    requires same { Same (goes (P.runs _p.now)) (goes (X.runs _x.now)) }
    ensures { (args : List (List ℕ)) (cells : ℕ) → AreBytes args → Together (goes (P.runs _p.now) args cells) (goes (X.runs _x.now) args cells) }
{}

/// A program costs no more than itself.
pub fn light_reflexive<P: Meaning>(_p: &P)
    ensures { Light (P.runs _p.now) (P.runs _p.now) }
{}

/// What costs no more than something that costs no more than a third, costs no more than the third.
pub fn light_transitive<P: Meaning, X: Meaning, Y: Meaning>(_p: &P, _x: &X, _y: &Y)
    requires first { Light (P.runs _p.now) (X.runs _x.now) }
    requires second { Light (X.runs _x.now) (Y.runs _y.now) }
    ensures { Light (P.runs _p.now) (Y.runs _y.now) }
{}

/// What costs no more also means the same.
pub fn light_is_same<P: Meaning, X: Meaning>(_p: &P, _x: &X)
    requires light { Light (P.runs _p.now) (X.runs _x.now) }
    ensures { Same (goes (P.runs _p.now)) (goes (X.runs _x.now)) }
{}

/// What gives equal runs costs no more.
pub fn equal_is_light<P: Meaning, X: Meaning>(_p: &P, _x: &X)
    requires equal { (args : List (List ℕ)) (cells n : ℕ) → AreBytes args → X.runs _x.now args cells n ≡ P.runs _p.now args cells n }
    ensures { Light (P.runs _p.now) (X.runs _x.now) }
{}

/// Where no run of the earlier stage is Wrong, none of the later one is.
pub fn light_keeps_right<P: Meaning, X: Meaning>(_p: &P, _x: &X)
    requires right { NoWrong (P.runs _p.now) }
    requires light { Light (P.runs _p.now) (X.runs _x.now) }
    ensures { NoWrong (X.runs _x.now) }
{}

/// What looks at no limit of cells, and has a later stage that costs no more at each, has one that costs no more at any one
/// limit. So a stage that is made for one limit, as a C text, is compared with the runs at that limit.
pub fn light_at_limit<P: Meaning, X: Meaning>(_p: &P, _x: &X)
    requires no_limit { LooksAtNoLimit (P.runs _p.now) }
    requires light { Light (P.runs _p.now) (X.runs _x.now) }
    ensures { (limit : ℕ) → Light (P.runs _p.now) (at_limit limit (X.runs _x.now)) }
{}

/// From a stage that looks at no limit, by one that looks at the limit that it is given, to one that is made for a limit: the
/// last costs no more than the first.
pub fn light_by_limit<P: Meaning, X: Meaning, Y: Meaning>(_p: &P, _x: &X, _y: &Y, _limit: u32)
    requires no_limit { LooksAtNoLimit (P.runs _p.now) }
    requires first { Light (P.runs _p.now) (X.runs _x.now) }
    requires second { Light (at_limit _limit (X.runs _x.now)) (Y.runs _y.now) }
    ensures { Light (P.runs _p.now) (Y.runs _y.now) }
{}

/// Runs at a limit are monotone where runs are, and none is Wrong where none is.
pub fn limits_keep<X: Meaning>(_x: &X)
    ensures monotone { (limit cells : ℕ) (args : List (List ℕ)) → AreBytes args → IsMonotone (at_limit limit (X.runs _x.now) args cells) }
    ensures right { (limit : ℕ) → NoWrong (X.runs _x.now) → NoWrong (at_limit limit (X.runs _x.now)) }
{}

#[cfg(test)]
mod tests {
    use super::*;

    /// Prints its first argument, in a step, and answers.
    #[derive(Drop)]
    struct Echo;

    impl Meaning for Echo {
        ghost use Rattle.rml_base.specs.Examples.{echoed, echoed_is_monotone};

        ghost runs = { λ e. echoed };

        ghost monotone = { λ e args cells bytes. echoed_is_monotone args cells };
    }

    #[test]
    fn laws_hold_of_a_small_program(rt: HostRuntime) {
        let echo = Echo;
        light_reflexive(&echo);
        light_transitive(&echo, &echo, &echo);
        light_is_same(&echo, &echo);
        same_reflexive(&echo);
        same_transitive(&echo, &echo, &echo);
        same_ends(&echo, &echo);
    }
}
