//! Blocks that `body` has named.

ghost use Rattle.std.specs.Prelude.{◌≡◌, IfOk};

use rml_base::Memory;
use rml_evaluation::copy_env;
use rml_fol::Stmt;
use rml_terms::Env;
use sqlite_items::Items;
use std::alloc::Global;

/// A named block, with what variables stood for where it was named. It knows the blocks that stand before it in a list of these.
#[derive(Drop)]
pub struct Named<'a> {
    pub number: u32,
    /// What a `goto` hands on.
    pub vars: &'a [u32],
    pub block: &'a [Stmt],
    pub env: Env,
}

/// The same blocks. The only error is want of memory.
pub fn copy_named<'a>(alloc: Global, bodies: &[Named<'a>]) -> Result<Items<Named<'a>>, Memory>
    ensures { IfOk result (λ all. all ≡ bodies.now) }
{
    let mut all = Items::new(alloc);
    for body in bodies {
        let env = copy_env(alloc, body.env.as_slice())?;
        all.push(Named {
            number: body.number,
            vars: body.vars,
            block: body.block,
            env,
        })?;
    }
    Ok(all)
}
