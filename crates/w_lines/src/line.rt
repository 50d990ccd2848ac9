//! What lines say.

use lists::ListOf;
use w_syntax::{Export, GlobalType, Import, Limits, LocalRun, TableType, Tag, Token};
use w_types::{RefType, SubType};

/// When the items of an element segment are copied: at instantiation, into this table; when an instruction says so; or never.
#[derive(Clone, Copy)]
pub enum Mode {
    Active(u32),
    Passive,
    Declarative,
}

/// What a line of the text of a module says.
#[derive(Drop)]
pub enum Line {
    /// `module`, with which the text begins.
    Module,
    /// `rec`, with how many types follow. It is not 1: a group of one type is its line alone.
    Group(u64),
    Type(SubType),
    Import(Import),
    /// A table, and whether lines follow that say what its elements begin with.
    Table(TableType, bool),
    Memory(Limits),
    Tag(Tag),
    /// A global; the lines of what it begins with follow.
    Global(GlobalType),
    Export(Export),
    /// The function that runs first.
    Start(u32),
    /// An element segment, with how many items follow, behind the place where it is active.
    Elements(Mode, RefType, u64),
    /// A data segment, with its memory where it is active; the lines of its place follow then.
    Data(Option<u32>, ListOf<u8>),
    /// A function of this type; its locals and its body follow.
    Function(u32),
    Local(LocalRun),
    /// An instruction, or a mark of the nesting.
    Token(Token),
}
