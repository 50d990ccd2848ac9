//! Value names that are bound.

use s_syntax::Name;

/// The type of a value name.
#[derive(Clone, Copy)]
pub(crate) enum ValueType<'a> {
    /// A number.
    Int,
    /// A resumption of the handler of this name.
    Resumption(&'a Name),
    /// A coroutine.
    Coroutine,
}

/// A value name and its type.
#[derive(Clone, Copy)]
pub(crate) struct Binding<'a> {
    pub name: &'a Name,
    pub ty: ValueType<'a>,
}
