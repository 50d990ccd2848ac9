//! The store of continuations by address, in places that are used again (`specs/`).
#![tactic(auto)]

mod store;

pub use store::ContStore;
