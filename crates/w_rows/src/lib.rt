//! Rows of types that are compared by words: a type has a word where it is given and one where it is wanted, and what two words have in
//! common tells whether the one type matches the other (`specs/Words.antt`).
#![tactic(auto)]

mod fitting;
mod laws;
mod operand;
mod type_row;
mod type_rows;
mod words;

pub use fitting::operands_fit;
pub use laws::words_tell_matching;
pub use operand::{Operand, OperandView};
pub use type_row::{RowWords, TypeRow};
pub use type_rows::{FuncRows, TypeRows, WIDE};
