//! One linear memory: loads and stores, the bulk operations, and growing (`specs/`).
#![tactic(auto)]

mod access;
mod bulk;
mod mem;

pub use mem::Mem;
