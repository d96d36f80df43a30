//! The walk that gathers rows: a method for each kind of step.

ghost use Rattle.std.specs.Prelude.{◌≡◌, OnOk};
ghost use Rattle.rml_scopes.specs.Steps as step;
ghost use Rattle.rml_named.specs.Gathered.{gather, with_row};
ghost use Rattle.rml_named.specs.Rows.{row_of, value_row};

use crate::moves::{begin, end_part, enter, leave};
use rml_base::Memory;
use rml_scopes::{Role, Scope, Within, World};
use rml_syntax::Long;
use rml_tables::NameSet;
use rml_values::{Meant, Values};

/// A walk over rules and expressions: where it stands, and the rows of the built-ins that it has met as values.
#[derive(Drop)]
pub struct Gathering {
    pub scope: Scope,
    pub rows: NameSet<usize>,
}

/// The row of a built-in.
fn row_of(meant: Meant) -> Option<usize>
    ensures { result ≡ row_of meant }
{
    match meant {
        Meant::Built(row) => Some(row),
        _ => None,
    }
}

/// The row of the built-in that a name is, where it stands as a value.
fn value_row(world: &World, values: &Values, scope: &Scope, role: Role, long: Long) -> Option<usize>
    ensures { result ≡ value_row world.now values.now scope.now role long }
{
    match role {
        Role::Value => row_of(values.meant(&world.known, scope, long)),
        _ => None,
    }
}

impl Gathering {
    /// Adds a row, if there is one.
    fn note(&mut self, row: Option<usize>) -> Result<(), Memory>
        ensures { OnOk result (self.new ≡ record self.old { rows = with_row self.old.rows row }) }
    {
        if let Some(row) = row {
            self.rows.add(row)?;
        }
        Ok(())
    }

    /// Looks at a name that is used.
    #[tactic(auto, unfolding(crate::specs::Gathered::gather))]
    pub fn name(
        &mut self,
        world: &World,
        values: &Values,
        role: Role,
        long: Long,
    ) -> Result<(), Memory>
        ensures { OnOk result (self.new ≡ gather world.now values.now self.old (step.Name role long)) }
    {
        let row = value_row(world, values, &self.scope, role, long);
        self.note(row)?;
        self.scope.pass_name(world, role, long)?;
        Ok(())
    }

    /// Begins the body.
    #[tactic(auto, unfolding(crate::specs::Gathered::gather))]
    pub fn begin_body(&mut self, world: &World, values: &Values)
        ensures { self.new ≡ gather world.now values.now self.old step.Body }
    {
        self.scope.in_body = true;
        self.scope.types.keep(0);
        self.scope.values.keep(0);
    }

    /// Goes to the expression of a val, or leaves it.
    #[tactic(auto, unfolding(crate::specs::Gathered::gather))]
    pub fn go_to(&mut self, world: &World, values: &Values, within: Within)
        ensures { self.new ≡ gather world.now values.now self.old (step.Inside within) }
    {
        self.scope.within = within;
    }

    /// Begins a rule, or the expression of a val.
    #[tactic(auto, unfolding(crate::specs::Gathered::gather))]
    pub fn begin(&mut self, world: &World, values: &Values)
        ensures { self.new ≡ gather world.now values.now self.old step.Begins }
    {
        begin(world, &mut self.scope);
    }

    /// Ends a part of a rule.
    #[tactic(auto, unfolding(crate::specs::Gathered::gather))]
    pub fn end_part(&mut self, world: &World, values: &Values) -> Result<(), Memory>
        ensures { OnOk result (self.new ≡ gather world.now values.now self.old step.Part) }
    {
        end_part(world, &mut self.scope)?;
        Ok(())
    }

    /// Opens a `not`.
    #[tactic(auto, unfolding(crate::specs::Gathered::gather))]
    pub fn enter(&mut self, world: &World, values: &Values) -> Result<(), Memory>
        ensures { OnOk result (self.new ≡ gather world.now values.now self.old step.Enter) }
    {
        enter(world, &mut self.scope)?;
        Ok(())
    }

    /// Closes a `not`.
    #[tactic(auto, unfolding(crate::specs::Gathered::gather))]
    pub fn leave(&mut self, world: &World, values: &Values)
        ensures { self.new ≡ gather world.now values.now self.old step.Leave }
    {
        leave(world, &mut self.scope);
    }
}
