//! What holds of the effects. These functions do nothing: their contracts are the laws.

ghost use Rattle.std.specs.Prelude.{ℕ, List, IsTrue, length};
ghost use Rattle.rml_trail.specs.TrailState.{Fits};
ghost use Rattle.rml_code.specs.declared.instructions.Else.{Else};
ghost use Rattle.rml_code.specs.declared.instructions.Instr.{Instr};
ghost use Rattle.rml_code.specs.declared.instructions.Instr.TheVariants as instr;
ghost use Rattle.rml_code.specs.declared.listing.Listing.{Listing};
ghost use Rattle.rml_code.specs.declared.state.State.{State};
ghost use Rattle.rml_code.specs.Effects.{effect};
ghost use Rattle.rml_code.specs.Fits.{instr_fits, is_small, is_light};
ghost use Rattle.rml_acts.specs.Fine.{IsFine};
ghost use Rattle.rml_acts.specs.Kept.{IsQuiet, PrintsNothing, IsPlain};

use rml_builtin::laws::what_stays;

/// What code keeps of its instructions is what they may rest on: an instruction of a `Code` that does not print is fine where there are as
/// many registers and constants as its listing has.
pub fn code_is_fine()
    ensures { (l : Listing) (at : ℕ) (i : Instr) → IsTrue (is_small l) → IsTrue (is_light l) → IsTrue (instr_fits l at i) → PrintsNothing i → IsFine l.registers (length l.constants) i }
{}

/// An instruction that is no built-in prints nothing and makes no turn; the trail still fits the heap, and there are as many registers, the
/// same constants, and the same limit. The cells that it counts are those at its end.
pub fn effects_are_plain()
    ensures { (i : Instr) (s : State) → IsQuiet i → Fits s.trail s.heap → IsPlain s (effect i s) }
{}

/// Nor does a built-in that does not print, where the trail fits the heap afterwards.
pub fn built_ins_are_plain()
    ensures { (k : ℕ) (rs ys : List ℕ) (e : Else) (s : State) → PrintsNothing (instr.Builtin k rs ys e) → Fits (effect (instr.Builtin k rs ys e) s).state.trail (effect (instr.Builtin k rs ys e) s).state.heap → IsPlain s (effect (instr.Builtin k rs ys e) s) }
{
    what_stays();
}
