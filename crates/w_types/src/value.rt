//! Values.
ghost use Rattle.std.specs.Prelude.{◌≡◌};
ghost use Rattle.w_types.specs.Values.{default_of};

use crate::packed_type::PackedType;
use crate::types::{RefType, ValType};

/// A reference to a continuation: the place where its store keeps it, and the serial that was drawn when it was made. A place is
/// used again; a serial is not.
#[derive(Clone, Copy)]
pub struct ContRef {
    pub place: usize,
    pub serial: u64,
}

/// A value that a program computes with (Core, execution, values; the explainer adds continuations): a number as its bits, or a
/// reference. A function is told by its address in the store.
#[derive(Clone, Copy)]
pub enum Value {
    I32(u32),
    I64(u64),
    Null,
    Func(u32),
    Cont(ContRef),
}

impl Value {
    /// The value that a local begins with (Core, execution, default values): zero, or null for a reference that may be. `None` for
    /// any other reference.
    pub fn default_of(kind: PackedType) -> Option<Value>
        ensures { result ≡ default_of kind }
    {
        match kind.whole() {
            ValType::I32 => Some(Value::I32(0)),
            ValType::I64 => Some(Value::I64(0)),
            ValType::Ref(RefType { nullable: true, .. }) => Some(Value::Null),
            ValType::Ref(_) => None,
        }
    }
}
