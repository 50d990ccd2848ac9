//! The program's answers to bytes in memory, handed over in buffers (`specs/`).
#![tactic(auto)]

mod audits;
mod handing;
mod links;
mod texts;

pub use audits::hand_audit;
pub use handing::hand_answer;
pub use links::hand_link;
pub use texts::{hand_pieces, hand_stop};
