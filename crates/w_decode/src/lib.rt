//! Decoding modules: the one module that bytes spell, or the first fault that they have (`specs/Faults.antt`). The bytes may come in
//! pieces (`specs/Pieces.antt`).
#![tactic(auto)]

mod counts;
mod decoding;
mod fault;
mod frames;
mod fronts;
mod laws;
mod pieces;
mod sections;

pub use decoding::decode;
pub use fault::DecodeFault;
pub use laws::{front_of, one_module};
pub use pieces::Decoder;
