//! What the plain search holds and gives.

use rml_builtin::Store;
use rml_terms::Env;

/// What the variables stand for after goals, and the store.
#[derive(Drop)]
pub struct State {
    pub env: Env,
    pub store: Store,
}
