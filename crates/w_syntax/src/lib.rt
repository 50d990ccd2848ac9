//! Modules as trees, and how bytes spell them (`specs/`).
#![tactic(auto)]

mod body;
mod builder;
mod instructions;
mod items;
mod locals;
mod memory_instructions;
mod module;
mod name;
mod numeric;
mod packed;

pub use body::{Body, any_uses_data};
pub use builder::{BodyBuilder, Progress};
pub use instructions::{
    BlockKind, BlockType, Clause, ControlOp, Instr, Op, ParametricOp, ReferenceOp, SwitchingOp,
    TableOp, Token, VariableOp,
};
pub use items::{Item, ItemForm, ItemView, Items, ItemsForm};
pub use locals::{LocalRun, Locals, are_one_type};
pub use memory_instructions::{LoadOp, MemArg, MemoryOp, StoreOp};
pub use module::{
    Data, DataMode, Elem, ElemMode, Export, ExternIndex, ExternType, Func, GlobalType,
    GlobalVariable, Import, Limits, Module, Mutability, Section, Table, TableType, Tag,
};
pub use name::Name;
pub use numeric::{Binop, Cvtop, IntType, NumericOp, Relop, Unop};
pub use packed::{
    AbstractHeapType, InstrView, PackedInstr, ShortBlockType, ShortControlOp, ShortMemoryOp,
    ShortSwitchingOp,
};
