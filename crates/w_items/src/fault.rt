//! The refusals of a module.
ghost use Rattle.std.specs.Prelude.{◌≡◌};
ghost use Rattle.w_items.specs.declared.fault.ValidFault.TheVariants.{OutOfMemory};

use std::alloc::{AllocError, AllocFailed};
use thiserror::Error;
use w_rules::SizeLimit;

/// Why a module is not accepted (Core, validation, modules).
#[derive(Clone, Copy, Debug, Error)]
pub enum ValidFault {
    /// The module passes a limit on its size, and this is the first.
    #[error("limit {0:?} is passed")]
    Limit(SizeLimit),
    /// The type of this index is the first that is not valid: it names a type that is not there yet, or it is a continuation type and not
    /// of a function type.
    #[error("type {0} is not valid")]
    TypeAt(usize),
    /// The import of this index is the first that is not valid: its type is not.
    #[error("import {0} is not valid")]
    Import(usize),
    /// The table of this index is the first that is not valid: its type is not, or what its elements begin with is not a constant of
    /// their type.
    #[error("table {0} is not valid")]
    Table(usize),
    /// The memories are not valid: with those imported there is more than one, or its limits are not valid.
    #[error("the memory is not valid")]
    Memory,
    /// The tag of this index is the first that is not valid: its type is not a function type.
    #[error("tag {0} is not valid")]
    Tag(usize),
    /// The global of this index is the first that is not valid: its type is not, or what it begins with is not a constant of this type
    /// by globals of lower index.
    #[error("global {0} is not valid")]
    Global(usize),
    /// The element segment of this index is the first that is not valid: its type is not, an item is not a constant of this type, or
    /// it is active and does not fit its table or its offset is not a constant of type i32.
    #[error("element segment {0} is not valid")]
    Element(usize),
    /// The data segment of this index is the first that is not valid: it is active, and its memory is not there or its offset is not a
    /// constant of type i32.
    #[error("data segment {0} is not valid")]
    Data(usize),
    /// The start is not valid: its function is not there, or not of type [] to [].
    #[error("the start is not valid")]
    Start,
    /// The export of this index is the first that is not valid: what it exports is not there, or its name stands at a lower index.
    #[error("export {0} is not valid")]
    Export(usize),
    /// The function of this index, of those that the module defines, is the first that is not valid: it has no function type or no
    /// code, a local's type is not valid, or its body does not have its type.
    #[error("function {0} is not valid")]
    Function(usize),
    #[error("out of memory")]
    OutOfMemory,
}

impl From<AllocError> for ValidFault {
    ghost from_gives = { λ _ e. e ≡ OutOfMemory };

    fn from(_: AllocError) -> Self {
        ValidFault::OutOfMemory
    }
}

impl<T: Drop> From<AllocFailed<T>> for ValidFault {
    ghost from_gives = { λ _ e. e ≡ OutOfMemory };

    fn from(_: AllocFailed<T>) -> Self {
        ValidFault::OutOfMemory
    }
}
