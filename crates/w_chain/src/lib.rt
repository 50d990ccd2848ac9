//! The running segments as one chain (`specs/`).
#![tactic(auto)]

mod chain;
mod clauses;

pub use chain::Chain;
