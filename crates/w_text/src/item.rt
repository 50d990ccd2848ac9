//! What a module lists.

use w_syntax::{Data, Elem, Export, Func, GlobalVariable, Import, Limits, Table, Tag};
use w_types::RecGroup;

/// An item of a module: one of those that it lists, each of its list.
#[derive(Drop)]
pub(crate) enum Item {
    Group(RecGroup),
    Imported(Import),
    TableItem(Table),
    Memory(Limits),
    TagItem(Tag),
    Global(GlobalVariable),
    Exported(Export),
    /// The function that runs first.
    Start(u32),
    Elements(Elem),
    Bytes(Data),
    /// A function: the index of its type, and its code.
    Function(u32, Func),
}
