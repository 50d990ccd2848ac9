//! Where a run stands, but for what waits for it.
use w_chain::Chain;
use w_conts::ContStore;
use w_switching::Stored;
use w_tables::Store;

/// What stands for a configuration: the store but for its continuations, the segments that run, and the continuations. It has no model,
/// so that a function may take the three apart, and clauses see the record of them.
#[derive(Drop)]
pub struct Configuration {
    pub store: Store,
    pub chain: Chain,
    pub conts: ContStore<Stored>,
}
