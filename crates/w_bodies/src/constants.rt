//! Constant expressions.
ghost use Rattle.std.specs.Prelude.{◌≡◌, ◌↔◌, All, IfOk, IsTrue, Option};
ghost use Rattle.w_syntax.specs.Code.{Done, Plain};
ghost use Rattle.w_syntax.specs.declared.packed.PackedInstr.{PackedInstr as Packed};
ghost use Rattle.w_syntax.specs.Packed.{unpacked};
ghost use Rattle.w_syntax.specs.declared.instructions.Instr.TheVariants as flat;
ghost use Rattle.w_syntax.specs.declared.instructions.Op.{Op as TheOp};
ghost use Rattle.w_syntax.specs.declared.instructions.Op.TheVariants as op;
ghost use Rattle.w_syntax.specs.declared.instructions.ReferenceOp.TheVariants as reference;
ghost use Rattle.w_syntax.specs.declared.module.GlobalType.{GlobalType as TheGlobal};
ghost use Rattle.w_rules.specs.Bodies.{is_const, is_const_binary, is_const_global, all_const, ConstTyped};
ghost use Rattle.w_canon.specs.Matching.{ValMatches};
ghost use Rattle.w_rules.specs.Conditions.{Holds};
ghost use Rattle.w_rules.specs.Context.{Context as TheContext};
ghost use Rattle.w_rules.specs.InstructionTypes.{reference_op_type};
ghost use Rattle.w_rules.specs.View.{context_in, HasClasses};
ghost use Rattle.w_bodies.specs.Constants.{is_const_at, given, fixed_type, type_of_one};

use crate::bodies::check_body;
use std::alloc::{AllocError, Global};
use w_rows::{TypeRow, TypeRows};
use w_rules::Context;
use w_steps::Setting;
use w_syntax::{
    Binop, Body, GlobalType, Instr, Mutability, NumericOp, Op, PackedInstr, ReferenceOp, VariableOp,
};
use w_types::{HeapType, PackedType, RefType};
use w_vplain::Room;

fn is_const_binary(op: Binop) -> bool
    ensures { result ≡ is_const_binary op }
{
    matches!(op, Binop::Add | Binop::Sub | Binop::Mul)
}

fn is_const_numeric(number: NumericOp) -> bool
    ensures { (c : TheContext) → result ≡ is_const c (op.Numeric number) }
{
    match number {
        NumericOp::I32Const(_) | NumericOp::I64Const(_) => true,
        NumericOp::Binary(_, op) => is_const_binary(op),
        _ => false,
    }
}

fn is_const_reference(reference: ReferenceOp) -> bool
    ensures { (c : TheContext) → result ≡ is_const c (op.Reference reference) }
{
    matches!(reference, ReferenceOp::Null(_) | ReferenceOp::Func(_))
}

fn is_const_global(global: Option<GlobalType>) -> bool
    ensures { result ≡ is_const_global global }
{
    match global {
        Some(kind) => kind.mutability == Mutability::Const,
        None => false,
    }
}

fn is_const_variable(cx: &Context, variable: VariableOp) -> bool
    ensures { result ≡ is_const (context_in cx.now) (op.Variable variable) }
{
    match variable {
        VariableOp::GlobalGet(global) => is_const_global(cx.global(global)),
        VariableOp::LocalGet(_)
        | VariableOp::LocalSet(_)
        | VariableOp::LocalTee(_)
        | VariableOp::GlobalSet(_) => false,
    }
}

// Whether an instruction may stand in a constant expression.
fn is_const(cx: &Context, op: &Op) -> bool
    ensures { result ≡ is_const (context_in cx.now) op.now }
{
    match op {
        Op::Numeric(number) => is_const_numeric(*number),
        Op::Reference(reference) => is_const_reference(*reference),
        Op::Variable(variable) => is_const_variable(cx, *variable),
        Op::Control(_) | Op::Parametric(_) | Op::Table(_) | Op::Memory(_) | Op::Switching(_) => {
            false
        }
    }
}

// Whether an instruction may stand in the list of a constant expression, as its end may.
fn is_const_at(cx: &Context, instr: &Instr) -> bool
    ensures { result ≡ is_const_at (context_in cx.now) instr.now }
{
    match instr {
        Instr::Plain(op) => is_const(cx, op),
        Instr::End => true,
        Instr::Block(_, _, _) | Instr::If(_, _, _) | Instr::Else => false,
    }
}

// Whether a packed one may.
fn is_packed_const(cx: &Context, packed: &PackedInstr) -> bool
    ensures { result ≡ is_const_at (context_in cx.now) (unpacked packed.now) }
{
    let view = packed.view();
    is_const_at(cx, view.instr())
}

// Whether each of these may stand in such a list.
fn are_const(cx: &Context, instrs: &[PackedInstr]) -> bool
    ensures { IsTrue result ↔ All (λ (p : Packed). IsTrue (is_const_at
        (context_in cx.now) (unpacked p))) instrs.now }
{
    instrs.iter().all(|packed| is_packed_const(cx, packed))
}

// Whether each instruction of an expression may stand in a constant expression.
fn all_const(cx: &Context, body: &Body) -> bool
    ensures { IsTrue result ↔ IsTrue (all_const (context_in cx.now) body.now) }
{
    are_const(cx, body.instrs())
}

// The type that a numeric instruction alone gives, where it is constant.
fn type_of_number(number: NumericOp) -> Option<PackedType>
    ensures { (c : TheContext) → result ≡ type_of_one c (op.Numeric number) }
{
    match number {
        NumericOp::I32Const(_) => Some(PackedType::I32),
        NumericOp::I64Const(_) => Some(PackedType::I64),
        _ => None,
    }
}

// The type of null of this heap type.
fn type_of_null(cx: &Context, heap: HeapType) -> Option<PackedType>
    ensures { result ≡ given (reference_op_type (context_in cx.now) (reference.Null heap)) }
{
    if !cx.has_heap(heap) {
        return None;
    }
    Some(PackedType::reference(RefType::or_null(heap)))
}

// The type of a reference to a function that is declared.
fn type_of_function(cx: &Context, function: u32) -> Option<PackedType>
    ensures { result ≡ given (reference_op_type (context_in cx.now) (reference.Func function)) }
{
    let index = *cx.functions.get(function as usize)?;
    if !*cx.declared.get(function as usize)? {
        return None;
    }
    Some(PackedType::reference(RefType::non_null(HeapType::Index(index))))
}

// The type that a reference instruction alone gives, where it is constant.
fn type_of_reference(cx: &Context, reference: ReferenceOp) -> Option<PackedType>
    ensures { result ≡ type_of_one (context_in cx.now) (op.Reference reference) }
{
    match reference {
        ReferenceOp::Null(heap) => type_of_null(cx, heap),
        ReferenceOp::Func(function) => type_of_function(cx, function),
        ReferenceOp::IsNull | ReferenceOp::AsNonNull => None,
    }
}

// The type of a global that is never written.
fn type_of_global(global: Option<GlobalType>) -> Option<PackedType>
    ensures { result ≡ fixed_type global }
{
    match global {
        Some(found) if found.mutability == Mutability::Const => Some(found.kind),
        _ => None,
    }
}

// The type that an instruction alone gives, where it is constant and takes no operands.
fn type_of_one(cx: &Context, op: &Op) -> Option<PackedType>
    ensures { result ≡ type_of_one (context_in cx.now) op.now }
{
    match op {
        Op::Numeric(number) => type_of_number(*number),
        Op::Reference(reference) => type_of_reference(cx, *reference),
        Op::Variable(VariableOp::GlobalGet(global)) => type_of_global(cx.global(*global)),
        _ => None,
    }
}

// Whether there is a type, which matches another.
fn is_matched(cx: &Context, found: Option<PackedType>, kind: PackedType) -> bool
    requires { HasClasses cx.now }
    ensures { IsTrue result ↔ Holds found (λ t. ValMatches cx.now.types.now t kind) }
{
    match found {
        Some(found) => cx.classes.matches_val(found, kind),
        None => false,
    }
}

/// Whether a reference instruction alone is a constant expression of this type (Core, validation, constant expressions).
pub fn is_reference_typed(cx: &Context, reference: ReferenceOp, kind: PackedType) -> bool
    requires { HasClasses cx.now }
    ensures { IsTrue result ↔ ConstTyped (context_in cx.now) (Plain (op.Reference reference) Done) kind }
{
    is_matched(cx, type_of_reference(cx, reference), kind)
}

// The same of an instruction that may be a mark, or hold others.
fn type_of_instr(cx: &Context, instr: &Instr) -> Option<PackedType>
    ensures { (o : TheOp) → instr.now ≡ flat.Plain o → result ≡ type_of_one (context_in cx.now) o }
{
    match instr {
        Instr::Plain(op) => type_of_one(cx, op),
        _ => None,
    }
}

// The same of a packed one.
fn type_of_packed(cx: &Context, packed: &PackedInstr) -> Option<PackedType>
    ensures { (o : TheOp) → unpacked packed.now ≡ flat.Plain o
        → result ≡ type_of_one (context_in cx.now) o }
{
    match packed {
        PackedInstr::I32Const(_) => Some(PackedType::I32),
        PackedInstr::I64Const(_) => Some(PackedType::I64),
        PackedInstr::Reference(reference) => type_of_reference(cx, *reference),
        PackedInstr::Variable(VariableOp::GlobalGet(global)) => type_of_global(cx.global(*global)),
        PackedInstr::Boxed(instr) => type_of_instr(cx, instr),
        _ => None,
    }
}

// Whether an expression is constant and gives a value of this type, by checking it as a body.
fn is_body_typed(
    alloc: Global,
    cx: &Context,
    body: &Body,
    kind: PackedType,
) -> Result<bool, AllocError>
    requires { HasClasses cx.now }
    ensures { IfOk result (λ typed. IsTrue typed ↔ ConstTyped (context_in cx.now) body.now kind) }
{
    if !all_const(cx, body) {
        return Ok(false);
    }
    let rows = TypeRows::none(alloc);
    let results = [kind];
    let setting = Setting {
        cx,
        rows: &rows,
        results: TypeRow::bare(&results),
    };
    let mut room = Room::new(alloc);
    let measured = check_body(alloc, setting, &mut room, &[], &[], body)?;
    Ok(measured.is_some())
}

/// Whether an expression is constant and gives a value of this type (Core, validation, constant expressions). That of one
/// instruction is judged by its type alone.
pub fn is_const_typed(
    alloc: Global,
    cx: &Context,
    body: &Body,
    kind: PackedType,
) -> Result<bool, AllocError>
    requires { HasClasses cx.now }
    ensures { IfOk result (λ typed. IsTrue typed ↔ ConstTyped (context_in cx.now) body.now kind) }
{
    match body.only() {
        Some(packed) => Ok(is_matched(cx, type_of_packed(cx, packed), kind)),
        None => is_body_typed(alloc, cx, body, kind),
    }
}
