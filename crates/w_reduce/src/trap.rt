//! The traps of instructions.

/// Why a reduction trapped (Core, execution; stack-switching explainer, execution).
#[derive(Clone, Copy, Debug, PartialEq, Eq)]
pub enum Trap {
    /// `unreachable` was reached.
    Unreachable,
    DivideByZero,
    IntegerOverflow,
    MemoryOutOfBounds,
    TableOutOfBounds,
    /// `call_indirect` past the end of its table.
    UndefinedElement,
    /// `call_indirect` of an element that is null.
    NullElement,
    /// `call_indirect` of a function of another type.
    CallTypeMismatch,
    NullReference,
    /// A continuation was used that had been consumed.
    ConsumedContinuation,
    /// No handle around had a clause for the tag of this index.
    Unhandled(u32),
}
