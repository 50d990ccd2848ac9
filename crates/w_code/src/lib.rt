//! Readers of code: instructions, expressions, and the fields that hold one.
#![tactic(auto)]

mod bodies;
mod bulk;
mod common;
mod control;
mod datas;
mod elements;
mod families;
mod functions;
mod globals;
mod instructions;
mod items;
mod locals;
mod memory;
mod numeric;
mod switching;
mod tables;
mod tokens;

pub use bodies::{BodyField, expr_at};
pub use datas::DataField;
pub use elements::ElemField;
pub use functions::FuncField;
pub use globals::GlobalField;
pub use instructions::instruction_at;
pub use locals::LocalRunField;
pub use switching::ClauseField;
pub use tables::TableField;
pub use tokens::token_at;
