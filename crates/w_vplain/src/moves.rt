//! What a call of the checker is made for.

use w_rows::TypeRow;
use w_syntax::PackedInstr;
use w_types::ValType;

/// What a caller found that an instruction takes and gives: operands of the types `ins`, the topmost of the type `top`, and those of
/// `outs`; of a resume also how many the longest label of its clauses takes.
#[derive(Clone, Copy)]
pub(crate) struct InstrRow<'m> {
    pub ins: TypeRow<'m>,
    pub top: Option<ValType>,
    pub outs: TypeRow<'m>,
    pub raise: Option<u64>,
}

/// An instruction that does not switch stacks, or the row of another one.
#[derive(Clone, Copy)]
pub(crate) enum Move<'m> {
    Packed(&'m PackedInstr),
    Row(&'m InstrRow<'m>),
}
