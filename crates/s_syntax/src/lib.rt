//! Tokens and trees of scripts (`specs/`).
#![tactic(auto)]

mod expr;
mod name;
mod number;
mod operators;
mod script;
mod statement;
mod token;

pub use expr::{Expr, Node};
pub use name::Name;
pub use number::Number;
pub use operators::{Arithmetic, BinaryOperator, Comparison, Connective, UnaryOperator};
pub use script::{
    Clause, Declaration, Definition, Function, Handler, Parameter, ReturnClause, Script, Slots,
    VariableType,
};
pub use statement::{Block, Statement, Use};
pub use token::{Kind, Token};
