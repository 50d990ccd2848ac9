//! Operators.

/// An operator in front of an operand.
#[derive(Clone, Copy, Debug, PartialEq, Eq)]
pub enum UnaryOperator {
    /// `-`.
    Minus,
    /// `!`.
    Not,
}

/// An operator that may leave its right operand alone.
#[derive(Clone, Copy, Debug, PartialEq, Eq)]
pub enum Connective {
    /// `||`.
    Or,
    /// `&&`.
    And,
}

/// An operator that compares two numbers.
#[derive(Clone, Copy, Debug, PartialEq, Eq)]
pub enum Comparison {
    /// `==`.
    Equal,
    /// `!=`.
    NotEqual,
    /// `<`.
    Less,
    /// `<=`.
    AtMost,
    /// `>`.
    Greater,
    /// `>=`.
    AtLeast,
}

/// An operator that computes a number of two.
#[derive(Clone, Copy, Debug, PartialEq, Eq)]
pub enum Arithmetic {
    /// `+`.
    Add,
    /// `-`.
    Subtract,
    /// `*`.
    Multiply,
    /// `/`.
    Divide,
    /// `%`.
    Remainder,
}

/// An operator between two operands, by its family.
#[derive(Clone, Copy, Debug, PartialEq, Eq)]
pub enum BinaryOperator {
    Connects(Connective),
    Compares(Comparison),
    Computes(Arithmetic),
}
