//! The walk over the steps of a text: a method for each kind of step.

ghost use Rattle.std.specs.Prelude.{◌≡◌, OnOk};
ghost use Rattle.rml_scopes.specs.Faults.{lesser, lesser_of};
ghost use Rattle.rml_scopes.specs.Sentences.{found_if};
ghost use Rattle.rml_scopes.specs.Steps as step;
ghost use Rattle.rml_scopes.specs.Walks.{walk_step};

use crate::fault::{Found, ModFault, lesser};
use crate::role::{Role, Within};
use crate::scope::Scope;
use crate::sentences::names_no_text;
use crate::world::World;
use rml_base::{Memory, Place};
use rml_outlines::{TypeEntry, ValueEntry, add_each};
use rml_syntax::Long;
use std::alloc::Global;

/// A walk over the steps of a text: where it stands, and the least fault that it has met.
#[derive(Drop)]
pub struct Walk {
    pub scope: Scope,
    pub least: Option<Found>,
}

impl Walk {
    /// Meets a fault at a place, where there is one.
    fn meet_where(&mut self, holds: bool, place: Place, fault: ModFault)
        ensures { self.new ≡ record self.old { least = lesser_of self.old.least (found_if holds place fault) } }
    {
        if holds {
            self.least = lesser(self.least, Found { place, fault });
        }
    }

    /// Looks at the text's module name.
    #[tactic(auto, unfolding(crate::specs::Walks::walk_step))]
    pub fn module_name(&mut self, world: &World, name: u32, place: Place)
        ensures { self.new ≡ walk_step world.now self.old (step.Module name place) }
    {
        let duplicate = self.scope.is_duplicate_module(world, name);
        self.meet_where(duplicate, place, ModFault::DuplicateModule);
    }

    /// Looks at a `with`.
    #[tactic(auto, using(crate::proofs::Least::lesser_over), unfolding(crate::specs::Walks::walk_step, crate::specs::Sentences::with_faults))]
    pub fn with(&mut self, world: &World, file: u32, place: Place)
        ensures { self.new ≡ walk_step world.now self.old (step.With file place) }
    {
        let no_text = names_no_text(world, file);
        let circular = self.scope.is_on_circle(world, file);
        self.meet_where(no_text, place, ModFault::NoSuchText);
        self.meet_where(circular, place, ModFault::CircularInterfaces);
    }

    /// Begins the body.
    #[tactic(auto, unfolding(crate::specs::Walks::walk_step))]
    pub fn begin_body(&mut self, world: &World)
        ensures { self.new ≡ walk_step world.now self.old step.Body }
    {
        self.scope.in_body = true;
        self.scope.types.keep(0);
        self.scope.values.keep(0);
    }

    /// Looks at a type that is declared; `twice` says whether a variable stands twice among its parameters.
    #[tactic(auto, using(crate::proofs::Least::lesser_over), unfolding(crate::specs::Walks::walk_step, crate::specs::Sentences::type_faults))]
    pub fn declare_type(
        &mut self,
        world: &World,
        entry: TypeEntry,
        twice: bool,
        name: u32,
        place: Place,
    ) -> Result<(), Memory>
        ensures { OnOk result (self.new ≡ walk_step world.now self.old (step.DeclaresType entry twice name place)) }
    {
        let circular = self.scope.is_circular(world, entry, name);
        let duplicate = self.scope.is_duplicate_type(world, twice, name);
        let undefined = self.scope.is_not_defined_type(world, entry, name);
        let mismatch = self.scope.has_other_params(world, entry, name);
        self.meet_where(circular, place, ModFault::CircularInterfaces);
        self.meet_where(duplicate, place, ModFault::DuplicateName);
        self.meet_where(undefined, place, ModFault::NotDefined);
        self.meet_where(mismatch, place, ModFault::InterfaceMismatch);
        self.scope.pass_type(entry, name)?;
        Ok(())
    }

    /// Looks at a value that is declared; `typed` says whether its type is given here.
    #[tactic(auto, using(crate::proofs::Least::lesser_over), unfolding(crate::specs::Walks::walk_step, crate::specs::Sentences::value_faults))]
    pub fn declare_value(
        &mut self,
        world: &World,
        entry: ValueEntry,
        typed: bool,
        name: u32,
        place: Place,
    ) -> Result<(), Memory>
        ensures { OnOk result (self.new ≡ walk_step world.now self.old (step.DeclaresValue entry typed name place)) }
    {
        let duplicate = self.scope.is_duplicate_value(world, entry, name);
        let undefined = self.scope.lacks_definition(world, entry, name);
        let untyped = self.scope.lacks_type(world, entry, typed, name);
        let mismatch = self.scope.has_other_type(world, entry, name);
        self.meet_where(duplicate, place, ModFault::DuplicateName);
        self.meet_where(undefined, place, ModFault::NotDefined);
        self.meet_where(untyped, place, ModFault::NotDefined);
        self.meet_where(mismatch, place, ModFault::InterfaceMismatch);
        self.scope.pass_value(entry, name)?;
        Ok(())
    }

    /// From here on only these type variables may stand.
    #[tactic(auto, unfolding(crate::specs::Walks::walk_step))]
    pub fn limit_params(&mut self, world: &World, vars: &[u32]) -> Result<(), Memory>
        ensures { OnOk result (self.new ≡ walk_step world.now self.old (step.Params vars.now)) }
    {
        self.scope.has_params = true;
        self.scope.params.keep(0);
        add_each(&mut self.scope.params, vars)?;
        Ok(())
    }

    /// From here on any type variable may stand.
    #[tactic(auto, unfolding(crate::specs::Walks::walk_step))]
    pub fn free_params(&mut self, world: &World)
        ensures { self.new ≡ walk_step world.now self.old step.AnyParams }
    {
        self.scope.has_params = false;
        self.scope.params.keep(0);
    }

    /// Looks at a type variable.
    #[tactic(auto, unfolding(crate::specs::Walks::walk_step))]
    pub fn type_variable(&mut self, world: &World, name: u32, place: Place)
        ensures { self.new ≡ walk_step world.now self.old (step.TypeVariable name place) }
    {
        let unknown = self.scope.is_unknown_variable(name);
        self.meet_where(unknown, place, ModFault::UnknownName);
    }

    /// Goes to the right side of a `type` or to the expression of a val, or leaves it.
    #[tactic(auto, unfolding(crate::specs::Walks::walk_step))]
    pub fn go_to(&mut self, world: &World, within: Within)
        ensures { self.new ≡ walk_step world.now self.old (step.Inside within) }
    {
        self.scope.within = within;
    }

    /// Looks at a name that is used.
    #[tactic(auto, using(crate::proofs::Least::lesser_over), unfolding(crate::specs::Walks::walk_step, crate::specs::Sentences::name_faults))]
    pub fn name(&mut self, world: &World, role: Role, long: Long) -> Result<(), Memory>
        ensures { OnOk result (self.new ≡ walk_step world.now self.old (step.Name role long)) }
    {
        let unknown = self.scope.is_unknown(world, role, long);
        let wrong_count = self.scope.has_wrong_count(world, role, long);
        let repeated = self.scope.is_repeated(world, role, long);
        let rebound = self.scope.is_rebound(world, role, long);
        self.meet_where(unknown, long.place, ModFault::UnknownName);
        self.meet_where(wrong_count, long.place, ModFault::WrongCount);
        self.meet_where(repeated, long.place, ModFault::RepeatedVariable);
        self.meet_where(rebound, long.place, ModFault::Rebound);
        self.scope.pass_name(world, role, long)?;
        Ok(())
    }

    /// Begins a rule, or the expression of a val.
    #[tactic(auto, unfolding(crate::specs::Walks::walk_step))]
    pub fn begin(&mut self, world: &World)
        ensures { self.new ≡ walk_step world.now self.old step.Begins }
    {
        self.scope.seen.keep(0);
        self.scope.bound.keep(0);
        self.scope.part.keep(0);
        self.scope.opened.clear();
    }

    /// Ends a part of a rule.
    #[tactic(auto, unfolding(crate::specs::Walks::walk_step))]
    pub fn end_part(&mut self, world: &World) -> Result<(), Memory>
        ensures { OnOk result (self.new ≡ walk_step world.now self.old step.Part) }
    {
        self.scope.seen.add_each(&self.scope.part)?;
        self.scope.bound.add_each(&self.scope.part)?;
        self.scope.part.keep(0);
        Ok(())
    }

    /// Opens a `not`.
    #[tactic(auto, unfolding(crate::specs::Walks::walk_step))]
    pub fn enter(&mut self, world: &World) -> Result<(), Memory>
        ensures { OnOk result (self.new ≡ walk_step world.now self.old step.Enter) }
    {
        let count = self.scope.seen.len();
        self.scope.opened.push(count)?;
        Ok(())
    }

    /// Closes a `not`.
    #[tactic(auto, unfolding(crate::specs::Walks::walk_step))]
    pub fn leave(&mut self, world: &World)
        ensures { self.new ≡ walk_step world.now self.old step.Leave }
    {
        self.scope.close();
    }
}
