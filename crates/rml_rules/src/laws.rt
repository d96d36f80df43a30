//! What holds of rules with numbers for names. The functions are laws: each says by its contract what is true, and does nothing.

ghost use Rattle.std.specs.Prelude.{◌≡◌, ℕ};
ghost use Rattle.rml_syntax.specs.declared.rules.Exp.{Exp};
ghost use Rattle.rml_syntax.specs.declared.rules.Goal.{Goal};
ghost use Rattle.rml_syntax.specs.declared.rules.Pattern.{Pattern};
ghost use Rattle.rml_syntax.specs.declared.rules.Rule.{Rule};
ghost use Rattle.rml_scopes.specs.Steps.{exp_steps, goal_steps, pattern_steps, rule_steps};
ghost use Rattle.rml_scopes.specs.declared.scope.Scope.{Scope};
ghost use Rattle.rml_scopes.specs.declared.world.World.{World};
ghost use Rattle.rml_named.specs.Uses.{after_steps};
ghost use Rattle.rml_rules.specs.Rules.{goal, rule};
ghost use Rattle.rml_rules.specs.Terms.{pattern};
ghost use Rattle.rml_rules.specs.declared.env.Env.{Env};

/// The scope that each part of a rule leaves behind is the one behind its steps, so parts stand in the scopes of their visits. An expression
/// leaves its scope as it is.
pub fn scopes_follow_steps()
    ensures expressions { (w : World) (e : Exp) (s : Scope) → after_steps w s (exp_steps e) ≡ s }
    ensures patterns { (env : Env) (p : Pattern) (s : Scope) → (pattern env p s).after ≡ after_steps env.world s (pattern_steps p) }
    ensures goals { (env : Env) (g : Goal) (s : Scope) → (goal env g s).after ≡ after_steps env.world s (goal_steps g) }
    ensures rules { (env : Env) (name : ℕ) (r : Rule) (s : Scope) → (rule env r s).after ≡ after_steps env.world s (rule_steps name r) }
{}
