//! Numeric instructions (Core, instructions, numeric instructions).

/// A type of integers (Core, types, number types).
#[derive(Clone, Copy)]
pub enum IntType {
    I32,
    I64,
}

/// An operation on one integer.
#[derive(Clone, Copy)]
pub enum Unop {
    Clz,
    Ctz,
    Popcnt,
}

/// An operation on two integers.
#[derive(Clone, Copy)]
pub enum Binop {
    Add,
    Sub,
    Mul,
    DivS,
    DivU,
    RemS,
    RemU,
    And,
    Or,
    Xor,
    Shl,
    ShrS,
    ShrU,
    Rotl,
    Rotr,
}

/// A comparison of two integers.
#[derive(Clone, Copy)]
pub enum Relop {
    Eq,
    Ne,
    LtS,
    LtU,
    GtS,
    GtU,
    LeS,
    LeU,
    GeS,
    GeU,
}

/// A conversion of an integer to another width, or of its low bits to the whole width.
#[derive(Clone, Copy)]
pub enum Cvtop {
    I32WrapI64,
    I64ExtendI32S,
    I64ExtendI32U,
    I32Extend8S,
    I32Extend16S,
    I64Extend8S,
    I64Extend16S,
    I64Extend32S,
}

/// A numeric instruction.
#[derive(Clone, Copy)]
pub enum NumericOp {
    /// `i32.const`, with its number as it is spelled, signed.
    I32Const(i32),
    /// `i64.const`, with its number as it is spelled, signed.
    I64Const(i64),
    /// `eqz`
    Eqz(IntType),
    Compare(IntType, Relop),
    Unary(IntType, Unop),
    Binary(IntType, Binop),
    Convert(Cvtop),
}
