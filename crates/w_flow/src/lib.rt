//! The operands of one block as a validator knows them, and how instruction types change them (`specs/`).
#![tactic(auto)]

mod flow;
mod instruction_types;
mod laws;
mod operand_list;
mod operands;
mod short_types;

pub use flow::Flow;
pub use laws::exact_step;
pub use operand_list::OperandList;
