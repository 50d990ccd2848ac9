//! What is known of a type.

use crate::forest::Span;

/// The class of a type: the index of the first type of the first group that is equal to its group, and its position there.
#[derive(Clone, Copy, Debug, PartialEq, Eq, PartialOrd, Ord)]
pub struct Class {
    pub group: usize,
    pub position: usize,
}

/// A composite type without its parts.
#[derive(Clone, Copy, Debug, PartialEq, Eq)]
pub enum Kind {
    Func,
    Cont,
}

/// A type: its class, its kind, and the span of its class among all: see `IsClassesOf` of `specs/IsClassesOf.antt`.
#[derive(Clone, Copy, Debug, PartialEq, Eq)]
pub struct Entry {
    pub class: Class,
    pub kind: Kind,
    pub span: Span,
}
