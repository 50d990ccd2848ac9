//! Table instructions (Core, execution, table instructions).
ghost use Rattle.std.specs.Prelude.{◌≡◌, true, [], IfOk, OnErr, OnOk};
ghost use Rattle.w_syntax.specs.declared.instructions.Instr.TheVariants as flat;
ghost use Rattle.w_syntax.specs.declared.instructions.Op.TheVariants as op;
ghost use Rattle.w_syntax.specs.declared.instructions.TableOp.TheVariants as table_op;
ghost use Rattle.w_reduce.specs.Room.{takes_memory};
ghost use Rattle.w_stands.specs.Keeps.{KeepsAll};
ghost use Rattle.w_stands.specs.Steps.{MovesAt, Follows};
ghost use Rattle.w_stands.specs.declared.did.Did.TheVariants as did;

use std::alloc::AllocError;
use w_reduce::Trap;
use w_segment::Stack;
use w_stands::{Did, drop_next, i32_of, push_next, replace, top_three, top_two};
use w_syntax::{Module, TableOp};
use w_tables::Store;
use w_types::Value;

// `table.get`, or its trap.
fn table_get(program: &Module, store: &Store, stack: &mut Stack, index: u32) -> Did
    requires moves { MovesAt (flat.Plain (op.Table (table_op.Get index))) program.now store.now stack.old }
    ensures goes { Follows result program.now [] store.now stack.old store.now stack.new }
    ensures keeps { KeepsAll store.now stack.old store.now stack.new }
{
    let _program = program;
    let at = i32_of(stack.peek());
    match store.table_get(index, at) {
        Some(value) => {
            replace(stack, 1, value);
            Did::Went
        }
        None => Did::Trapped(Trap::TableOutOfBounds),
    }
}

// `table.set`, or its trap.
fn table_set(program: &Module, store: &mut Store, stack: &mut Stack, index: u32) -> Did
    requires moves { MovesAt (flat.Plain (op.Table (table_op.Set index))) program.now store.old stack.old }
    ensures goes { Follows result program.now [] store.old stack.old store.new stack.new }
    ensures keeps { KeepsAll store.old stack.old store.new stack.new }
    ensures memories { store.new.memories ≡ store.old.memories }
{
    let _program = program;
    let (at, value) = top_two(stack);
    match store.table_set(index, i32_of(at), value) {
        Some(()) => {
            drop_next(stack, 2);
            Did::Went
        }
        None => Did::Trapped(Trap::TableOutOfBounds),
    }
}

// `table.init`, or its trap.
fn table_init(
    program: &Module,
    store: &mut Store,
    stack: &mut Stack,
    segment: u32,
    index: u32,
) -> Did
    requires moves { MovesAt (flat.Plain (op.Table (table_op.Init segment index))) program.now store.old stack.old }
    ensures goes { Follows result program.now [] store.old stack.old store.new stack.new }
    ensures keeps { KeepsAll store.old stack.old store.new stack.new }
    ensures memories { store.new.memories ≡ store.old.memories }
{
    let _program = program;
    let (to, from, count) = top_three(stack);
    match store.table_init(index, segment, i32_of(to), i32_of(from), i32_of(count)) {
        Some(()) => {
            drop_next(stack, 3);
            Did::Went
        }
        None => Did::Trapped(Trap::TableOutOfBounds),
    }
}

// `elem.drop`.
fn elem_drop(program: &Module, store: &mut Store, stack: &mut Stack, segment: u32)
    requires moves { MovesAt (flat.Plain (op.Table (table_op.ElemDrop segment))) program.now store.old stack.old }
    ensures goes { Follows did.Went program.now [] store.old stack.old store.new stack.new }
    ensures keeps { KeepsAll store.old stack.old store.new stack.new }
    ensures memories { store.new.memories ≡ store.old.memories }
{
    let _program = program;
    store.elem_drop(segment);
    stack.go(stack.place() + 1);
}

// `table.copy`, or its trap.
fn table_copy(
    program: &Module,
    store: &mut Store,
    stack: &mut Stack,
    target: u32,
    source: u32,
) -> Did
    requires moves { MovesAt (flat.Plain (op.Table (table_op.Copy target source))) program.now store.old stack.old }
    ensures goes { Follows result program.now [] store.old stack.old store.new stack.new }
    ensures keeps { KeepsAll store.old stack.old store.new stack.new }
    ensures memories { store.new.memories ≡ store.old.memories }
{
    let _program = program;
    let (to, from, count) = top_three(stack);
    match store.table_copy(target, source, i32_of(to), i32_of(from), i32_of(count)) {
        Some(()) => {
            drop_next(stack, 3);
            Did::Went
        }
        None => Did::Trapped(Trap::TableOutOfBounds),
    }
}

// `table.grow`.
fn table_grow(
    program: &Module,
    store: &mut Store,
    stack: &mut Stack,
    index: u32,
) -> Result<(), AllocError>
    requires moves { MovesAt (flat.Plain (op.Table (table_op.Grow index))) program.now store.old stack.old }
    ensures goes { OnOk result (Follows did.Went program.now [] store.old stack.old store.new stack.new) }
    ensures keeps { OnOk result (KeepsAll store.old stack.old store.new stack.new) }
    ensures memories { store.new.memories ≡ store.old.memories }
    ensures store { OnErr result (store.new ≡ store.old) }
    ensures stack { OnErr result (stack.new ≡ stack.old) }
{
    let _program = program;
    let (value, count) = top_two(stack);
    let answer = store.table_grow(index, value, i32_of(count))?;
    replace(stack, 2, Value::I32(answer.cast_unsigned()));
    Ok(())
}

// `table.size`.
fn table_size(program: &Module, store: &Store, stack: &mut Stack, index: u32)
    requires moves { MovesAt (flat.Plain (op.Table (table_op.Size index))) program.now store.now stack.old }
    ensures goes { Follows did.Went program.now [] store.now stack.old store.now stack.new }
    ensures keeps { KeepsAll store.now stack.old store.now stack.new }
{
    let _program = program;
    let size = store.table_size(index);
    push_next(stack, Value::I32(size));
}

// `table.fill`, or its trap.
fn table_fill(program: &Module, store: &mut Store, stack: &mut Stack, index: u32) -> Did
    requires moves { MovesAt (flat.Plain (op.Table (table_op.Fill index))) program.now store.old stack.old }
    ensures goes { Follows result program.now [] store.old stack.old store.new stack.new }
    ensures keeps { KeepsAll store.old stack.old store.new stack.new }
    ensures memories { store.new.memories ≡ store.old.memories }
{
    let _program = program;
    let (at, value, count) = top_three(stack);
    match store.table_fill(index, i32_of(at), value, i32_of(count)) {
        Some(()) => {
            drop_next(stack, 3);
            Did::Went
        }
        None => Did::Trapped(Trap::TableOutOfBounds),
    }
}

/// One reduction of a table instruction, or its trap (Core, execution, table instructions). It fails only where a table grows and that is
/// out of memory, and then all is as it was.
pub fn table(
    program: &Module,
    store: &mut Store,
    stack: &mut Stack,
    operation: TableOp,
) -> Result<Did, AllocError>
    requires moves { MovesAt (flat.Plain (op.Table operation)) program.now store.old stack.old }
    ensures goes { IfOk result (λ did. Follows did program.now [] store.old stack.old store.new stack.new) }
    ensures keeps { OnOk result (KeepsAll store.old stack.old store.new stack.new) }
    ensures memories { store.new.memories ≡ store.old.memories }
    ensures store { OnErr result (store.new ≡ store.old) }
    ensures stack { OnErr result (stack.new ≡ stack.old) }
    ensures takes { OnErr result (takes_memory (op.Table operation) ≡ true) }
{
    match operation {
        TableOp::Get(index) => Ok(table_get(program, store, stack, index)),
        TableOp::Set(index) => Ok(table_set(program, store, stack, index)),
        TableOp::Init(segment, index) => Ok(table_init(program, store, stack, segment, index)),
        TableOp::ElemDrop(segment) => {
            elem_drop(program, store, stack, segment);
            Ok(Did::Went)
        }
        TableOp::Copy(target, source) => Ok(table_copy(program, store, stack, target, source)),
        TableOp::Grow(index) => {
            table_grow(program, store, stack, index)?;
            Ok(Did::Went)
        }
        TableOp::Size(index) => {
            table_size(program, store, stack, index);
            Ok(Did::Went)
        }
        TableOp::Fill(index) => Ok(table_fill(program, store, stack, index)),
    }
}
