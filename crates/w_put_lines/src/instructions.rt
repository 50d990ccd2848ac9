//! The lines of instructions.
ghost use Rattle.std.specs.Prelude.{◌≡◌, ◌++◌, [], ◌∷◌, OnOk, decimal, map, codes};
ghost use Rattle.std.specs.List.{flat_map};
ghost use Rattle.w_syntax.specs.declared.instructions.Op.TheVariants as op;
ghost use Rattle.w_syntax.specs.declared.instructions.Token.TheVariants as tok;
ghost use Rattle.w_syntax.specs.declared.instructions.BlockType.{BlockType as TheBlock};
ghost use Rattle.w_syntax.specs.Flat.{as_token};
ghost use Rattle.w_syntax.specs.Items.{code_of};
ghost use Rattle.w_lines.specs.Instructions.{token_name};
ghost use Rattle.w_words.specs.Clauses.{clause_word};
ghost use Rattle.w_lines.specs.Written.{named_bytes, token_bytes, packed_bytes, code_bytes};

use crate::named::{end_line, put_alone, put_index, put_indices, put_spaced, put_word, put_words};
use crate::numeric::{put_memory, put_numeric};
use std::alloc::AllocError;
use w_syntax::{
    BlockKind, Body, Clause, ControlOp, Instr, ItemView, Op, PackedInstr, ParametricOp,
    ReferenceOp, SwitchingOp, TableOp, VariableOp,
};
use w_words::{put_each, put_text};

// Writes the line of `br_table`.
#[tactic(auto, unfolding(w_lines::specs::Instructions::rows))]
fn put_br_table(labels: &[u32], last: u32, out: &mut Vec<u8>) -> Result<(), AllocError>
    ensures { OnOk result (out.new.items ≡ out.old.items ++ named_bytes (codes "br_table") (map decimal (labels.now ++ last ∷ []))) }
{
    put_text("br_table", out)?;
    put_each(labels, out)?;
    put_spaced(&last, out)?;
    end_line(out)
}

// Writes the line of a control instruction that holds no others.
#[tactic(auto, unfolding(w_lines::specs::Instructions::rows))]
fn put_control(control: &ControlOp, out: &mut Vec<u8>) -> Result<(), AllocError>
    ensures { OnOk result (out.new.items ≡ out.old.items ++ token_bytes (tok.Plain (op.Control control.now))) }
{
    match control {
        ControlOp::Unreachable => put_alone("unreachable", out),
        ControlOp::Nop => put_alone("nop", out),
        ControlOp::Br(label) => put_index("br", *label, out),
        ControlOp::BrIf(label) => put_index("br_if", *label, out),
        ControlOp::BrTable(labels, last) => put_br_table(labels.as_slice(), *last, out),
        ControlOp::Return => put_alone("return", out),
        ControlOp::BrOnNull(label) => put_index("br_on_null", *label, out),
        ControlOp::BrOnNonNull(label) => put_index("br_on_non_null", *label, out),
        ControlOp::Call(function) => put_index("call", *function, out),
        ControlOp::CallIndirect(kind, table) => put_indices("call_indirect", *kind, *table, out),
        ControlOp::CallRef(kind) => put_index("call_ref", *kind, out),
        ControlOp::ReturnCall(function) => put_index("return_call", *function, out),
        ControlOp::ReturnCallIndirect(kind, table) => {
            put_indices("return_call_indirect", *kind, *table, out)
        }
        ControlOp::ReturnCallRef(kind) => put_index("return_call_ref", *kind, out),
    }
}

// Writes the line of a parametric instruction.
#[tactic(auto, unfolding(w_lines::specs::Instructions::rows))]
fn put_parametric(parametric: &ParametricOp, out: &mut Vec<u8>) -> Result<(), AllocError>
    ensures { OnOk result (out.new.items ≡ out.old.items ++ token_bytes (tok.Plain (op.Parametric parametric.now))) }
{
    match parametric {
        ParametricOp::Drop => put_alone("drop", out),
        ParametricOp::Select => put_alone("select", out),
        ParametricOp::SelectOf(types) => put_words("select_t", types.as_slice(), out),
    }
}

// Writes the line of an instruction on a variable.
#[tactic(auto, unfolding(w_lines::specs::Instructions::rows))]
fn put_variable(variable: VariableOp, out: &mut Vec<u8>) -> Result<(), AllocError>
    ensures { OnOk result (out.new.items ≡ out.old.items ++ token_bytes (tok.Plain (op.Variable variable))) }
{
    match variable {
        VariableOp::LocalGet(local) => put_index("local.get", local, out),
        VariableOp::LocalSet(local) => put_index("local.set", local, out),
        VariableOp::LocalTee(local) => put_index("local.tee", local, out),
        VariableOp::GlobalGet(global) => put_index("global.get", global, out),
        VariableOp::GlobalSet(global) => put_index("global.set", global, out),
    }
}

// Writes the line of a table instruction.
#[tactic(auto, unfolding(w_lines::specs::Instructions::rows))]
fn put_table(table: TableOp, out: &mut Vec<u8>) -> Result<(), AllocError>
    ensures { OnOk result (out.new.items ≡ out.old.items ++ token_bytes (tok.Plain (op.Table table))) }
{
    match table {
        TableOp::Get(table) => put_index("table.get", table, out),
        TableOp::Set(table) => put_index("table.set", table, out),
        TableOp::Init(segment, table) => put_indices("table.init", segment, table, out),
        TableOp::ElemDrop(segment) => put_index("elem.drop", segment, out),
        TableOp::Copy(to, from) => put_indices("table.copy", to, from, out),
        TableOp::Grow(table) => put_index("table.grow", table, out),
        TableOp::Size(table) => put_index("table.size", table, out),
        TableOp::Fill(table) => put_index("table.fill", table, out),
    }
}

// Writes the line of a reference instruction.
#[tactic(auto, unfolding(w_lines::specs::Instructions::rows))]
fn put_reference(reference: ReferenceOp, out: &mut Vec<u8>) -> Result<(), AllocError>
    ensures { OnOk result (out.new.items ≡ out.old.items ++ token_bytes (tok.Plain (op.Reference reference))) }
{
    match reference {
        ReferenceOp::Null(heap) => put_word("ref.null", &heap, out),
        ReferenceOp::IsNull => put_alone("ref.is_null", out),
        ReferenceOp::Func(function) => put_index("ref.func", function, out),
        ReferenceOp::AsNonNull => put_alone("ref.as_non_null", out),
    }
}

// Writes the line of `resume`.
fn put_resume(kind: u32, clauses: &[Clause], out: &mut Vec<u8>) -> Result<(), AllocError>
    ensures { OnOk result (out.new.items ≡ out.old.items ++ named_bytes (codes "resume") (decimal kind ∷ map clause_word clauses.now)) }
{
    put_text("resume", out)?;
    put_spaced(&kind, out)?;
    put_each(clauses, out)?;
    end_line(out)
}

// Writes the line of an instruction that switches stacks.
#[tactic(auto, unfolding(w_lines::specs::Instructions::rows))]
fn put_switching(switching: &SwitchingOp, out: &mut Vec<u8>) -> Result<(), AllocError>
    ensures { OnOk result (out.new.items ≡ out.old.items ++ token_bytes (tok.Plain (op.Switching switching.now))) }
{
    match switching {
        SwitchingOp::ContNew(kind) => put_index("cont.new", *kind, out),
        SwitchingOp::ContBind(before, after) => put_indices("cont.bind", *before, *after, out),
        SwitchingOp::Suspend(tag) => put_index("suspend", *tag, out),
        SwitchingOp::Resume(kind, clauses) => put_resume(*kind, clauses.as_slice(), out),
        SwitchingOp::Switch(kind, tag) => put_indices("switch", *kind, *tag, out),
    }
}

// Writes the line of an instruction that holds no others.
fn put_op(operation: &Op, out: &mut Vec<u8>) -> Result<(), AllocError>
    ensures { OnOk result (out.new.items ≡ out.old.items ++ token_bytes (tok.Plain operation.now)) }
{
    match operation {
        Op::Control(control) => put_control(control, out),
        Op::Parametric(parametric) => put_parametric(parametric, out),
        Op::Variable(variable) => put_variable(*variable, out),
        Op::Table(table) => put_table(*table, out),
        Op::Memory(memory) => put_memory(*memory, out),
        Op::Numeric(numeric) => put_numeric(*numeric, out),
        Op::Reference(reference) => put_reference(*reference, out),
        Op::Switching(switching) => put_switching(switching, out),
    }
}

// The name of a block.
#[tactic(auto, unfolding(w_lines::specs::Instructions::rows))]
fn kind_name(kind: BlockKind) -> &'static str
    ensures { (b : TheBlock) → result.now ≡ token_name (tok.Block kind b) }
{
    match kind {
        BlockKind::Block => "block",
        BlockKind::Loop => "loop",
    }
}

// Writes the line of an instruction of a flat list.
#[tactic(auto, unfolding(w_lines::specs::Instructions::rows))]
fn put_flat(instr: &Instr, out: &mut Vec<u8>) -> Result<(), AllocError>
    ensures { OnOk result (out.new.items ≡ out.old.items ++ token_bytes (as_token instr.now)) }
{
    match instr {
        Instr::Plain(operation) => put_op(operation, out),
        Instr::Block(kind, block, _) => put_word(kind_name(*kind), block, out),
        Instr::If(block, _, _) => put_word("if", block, out),
        Instr::Else => put_alone("else", out),
        Instr::End => put_alone("end", out),
    }
}

/// Writes the line of an instruction of a body. It fails only for want of memory.
pub fn put_instr(packed: &PackedInstr, out: &mut Vec<u8>) -> Result<(), AllocError>
    ensures { OnOk result (out.new.items ≡ out.old.items ++ packed_bytes packed.now) }
{
    let view = packed.view();
    put_flat(view.instr(), out)
}

// Writes the lines of the instructions of a body.
fn put_instrs(instrs: &[PackedInstr], out: &mut Vec<u8>) -> Result<(), AllocError>
    ensures { OnOk result (out.new.items ≡ out.old.items ++ flat_map packed_bytes instrs.now) }
{
    for instr in instrs {
        put_instr(instr, out)?;
    }
    Ok(())
}

/// Writes the lines of an expression: its instructions, and `end`. It fails only for want of memory.
pub fn put_expr(body: &Body, out: &mut Vec<u8>) -> Result<(), AllocError>
    ensures { OnOk result (out.new.items ≡ out.old.items ++ code_bytes body.now) }
{
    put_instrs(body.instrs(), out)
}

/// Writes the lines of an item of an element segment. It fails only for want of memory.
#[tactic(auto, unfolding(w_lines::specs::Instructions::rows, w_syntax::specs::Expr::tokens))]
pub fn put_item(item: ItemView<'_>, out: &mut Vec<u8>) -> Result<(), AllocError>
    ensures { OnOk result (out.new.items ≡ out.old.items ++ code_bytes (code_of item.entry)) }
{
    match item {
        ItemView::Function(function) => {
            put_index("ref.func", function, out)?;
            put_alone("end", out)
        }
        ItemView::Null(heap) => {
            put_word("ref.null", &heap, out)?;
            put_alone("end", out)
        }
        ItemView::Expression(body) => put_expr(body, out),
    }
}
