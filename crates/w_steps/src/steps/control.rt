//! Control instructions that hold no others.
ghost use Rattle.std.specs.Prelude.{◌≡◌, ◌&&◌, IfOk, IfSome, IsTrue, Some, true, slice_get};
ghost use Rattle.lists.specs.Rows.{row_of, listed};
ghost use Rattle.w_canon.specs.Tests.{result_test};
ghost use Rattle.w_flow.specs.Flow.{step, fits_one, fit_each};
ghost use Rattle.w_flow.specs.View.{flow_view, flow_if, HasWords};
ghost use Rattle.w_rules.specs.InstructionTypes.{br_if_type, br_on_null_type, br_on_non_null_type, br_table_type, labels_at, call_type, call_indirect_type, call_ref_type, tail_call_type, tail_call_indirect_type, tail_call_ref_type, nullable, control_op_type};
ghost use Rattle.w_rules.specs.Context.{func_of, type_of_func};
ghost use Rattle.w_rules.specs.View.{context_in};
ghost use Rattle.w_rows.specs.TypeRows.{IsReady};
ghost use Rattle.w_steps.specs.PlainTests.{holds_functions, returns_test, control_test};
ghost use Rattle.w_steps.specs.View.{context_at, gated, non_null_type};

use crate::body_context::BodyContext;
use crate::setting::Setting;
use std::alloc::AllocError;
use w_canon::Classes;
use w_flow::Flow;
use w_rows::TypeRow;
use w_syntax::{ControlOp, TableType};
use w_types::{HeapType, PackedType, RefType, ValType};

// Whether an index is the last one that was judged of those at its place.
fn is_last(last: Option<u32>, index: u32) -> bool
    ensures { IsTrue result → last ≡ Some index }
{
    match last {
        Some(last) => last == index,
        None => false,
    }
}

// Whether a label takes n types that can be taken.
#[tactic(auto, using(crate::proofs::TablesTaken::label_here, crate::proofs::TablesTaken::not_equal))]
fn label_fits(body: &BodyContext, flow: &Flow, index: u32, count: usize) -> bool
    requires { HasWords body.now.setting.now.cx.now.classes.now flow.now }
    ensures { result ≡ fits_one body.now.setting.now.cx.now.classes.now (flow_view flow.now).any
        (flow_view flow.now).operands count (slice_get (context_at body.now).labels index) }
{
    match body.label(index) {
        Some(label) => label.types.len() == count && flow.can_take(body.setting.cx.classes, label),
        None => false,
    }
}

// Whether a label takes n types that can be taken; one that was judged last and fits is not judged again.
fn label_fits_again(
    body: &BodyContext,
    flow: &Flow,
    last: Option<u32>,
    index: u32,
    count: usize,
) -> bool
    requires words { HasWords body.now.setting.now.cx.now.classes.now flow.now }
    requires last { IfSome last (λ x. fits_one body.now.setting.now.cx.now.classes.now (flow_view flow.now).any
        (flow_view flow.now).operands count (slice_get (context_at body.now).labels x) ≡ true) }
    ensures { result ≡ fits_one body.now.setting.now.cx.now.classes.now (flow_view flow.now).any
        (flow_view flow.now).operands count (slice_get (context_at body.now).labels index) }
{
    is_last(last, index) || label_fits(body, flow, index, count)
}

// Where labels that were judged are kept, by their numbers modulo this: a table mostly leads to few labels, in any order.
const JUDGED: usize = 128;

// Whether each of these labels takes n types that can be taken. One that was judged is mostly not judged again.
fn labels_fit(body: &BodyContext, flow: &Flow, labels: &[u32], count: usize) -> bool
    requires { HasWords body.now.setting.now.cx.now.classes.now flow.now }
    ensures { result ≡ fit_each body.now.setting.now.cx.now.classes.now (context_at body.now).labels
        (flow_view flow.now).any (flow_view flow.now).operands count labels.now }
{
    let mut fitting: [Option<u32>; JUDGED] = [None; JUDGED];
    for i in 0..labels.len() {
        let index = labels[i];
        let place = index as usize % JUDGED;
        if !label_fits_again(body, flow, fitting[place], index, count) {
            return false;
        }
        fitting[place] = Some(index);
    }
    true
}

// A branch by a table.
fn table_step(body: &BodyContext, flow: &mut Flow, labels: &[u32], otherwise: u32) -> bool
    requires { HasWords body.now.setting.now.cx.now.classes.now flow.old }
    ensures steps { step body.now.setting.now.cx.now.classes.now (br_table_type (slice_get
        (context_at body.now).labels otherwise) (labels_at (context_at body.now).labels labels.now))
        (flow_view flow.old).any (flow_view flow.old).operands ≡ flow_if result flow.new }
    ensures words { HasWords body.now.setting.now.cx.now.classes.now flow.new }
{
    if !flow.take_tested(body.setting.cx.classes) {
        return false;
    }
    let Some(label) = body.label(otherwise) else {
        return false;
    };
    if !flow.can_take(body.setting.cx.classes, label) {
        return false;
    }
    if !labels_fit(body, flow, labels, label.types.len()) {
        return false;
    }
    flow.leave();
    true
}

// A branch where the operand is not 0.
fn br_if_step(body: &BodyContext, flow: &mut Flow, index: u32) -> Result<bool, AllocError>
    requires { HasWords body.now.setting.now.cx.now.classes.now flow.old }
    ensures steps { IfOk result (λ applies. step body.now.setting.now.cx.now.classes.now (br_if_type (slice_get
        (context_at body.now).labels index)) (flow_view flow.old).any (flow_view flow.old).operands
        ≡ flow_if applies flow.new) }
    ensures words { HasWords body.now.setting.now.cx.now.classes.now flow.new }
{
    match body.label(index) {
        Some(label) => flow.turns_many_below(
            body.setting.cx.classes,
            label,
            PackedType::I32,
            label,
        ),
        None => Ok(false),
    }
}

// A branch where the operand is null.
fn br_on_null_step(body: &BodyContext, flow: &mut Flow, index: u32) -> Result<bool, AllocError>
    requires { HasWords body.now.setting.now.cx.now.classes.now flow.old }
    ensures steps { IfOk result (λ applies. step body.now.setting.now.cx.now.classes.now (br_on_null_type (slice_get
        (context_at body.now).labels index)) (flow_view flow.old).any (flow_view flow.old).operands
        ≡ flow_if applies flow.new) }
    ensures words { HasWords body.now.setting.now.cx.now.classes.now flow.new }
{
    match body.label(index) {
        Some(label) => flow.on_null(body.setting.cx.classes, label),
        None => Ok(false),
    }
}

// What a label takes beneath a reference, and the reference's heap type, where it takes a reference last.
fn reference_label<'r>(classes: &Classes, label: TypeRow<'r>) -> Option<(TypeRow<'r>, HeapType)>
    requires { IsReady classes.now label }
    ensures kind { br_on_non_null_type (Some (row_of label.entry.types.now)) ≡ non_null_type result }
    ensures ready { IfSome result (λ r. IsReady classes.now r.0) }
{
    let (top, beneath) = label.types.split_last()?;
    match top.whole() {
        ValType::Ref(reference) => {
            let (beneath, _) = label.split_at(classes, beneath.len());
            Some((beneath, reference.heap))
        }
        ValType::I32 | ValType::I64 => None,
    }
}

// A branch where the operand is not null.
fn br_on_non_null_step(body: &BodyContext, flow: &mut Flow, index: u32) -> Result<bool, AllocError>
    requires { HasWords body.now.setting.now.cx.now.classes.now flow.old }
    ensures steps { IfOk result (λ applies. step body.now.setting.now.cx.now.classes.now (br_on_non_null_type (slice_get
        (context_at body.now).labels index)) (flow_view flow.old).any (flow_view flow.old).operands
        ≡ flow_if applies flow.new) }
    ensures words { HasWords body.now.setting.now.cx.now.classes.now flow.new }
{
    let Some(label) = body.label(index) else {
        return Ok(false);
    };
    let Some((beneath, heap)) = reference_label(body.setting.cx.classes, label) else {
        return Ok(false);
    };
    let reference = PackedType::reference(RefType {
        nullable: true,
        heap,
    });
    flow.turns_many_below(body.setting.cx.classes, beneath, reference, beneath)
}

// A call of a function.
fn call_step(setting: &Setting, flow: &mut Flow, function: u32) -> Result<bool, AllocError>
    requires { HasWords setting.now.cx.now.classes.now flow.old }
    ensures steps { IfOk result (λ applies. step setting.now.cx.now.classes.now (call_type (type_of_func
        (context_in setting.now.cx.now) function)) (flow_view flow.old).any (flow_view flow.old).operands
        ≡ flow_if applies flow.new) }
    ensures words { HasWords setting.now.cx.now.classes.now flow.new }
{
    match setting.type_of_func(function) {
        Some(kind) => flow.turns_many(setting.cx.classes, kind.params, kind.results),
        None => Ok(false),
    }
}

// Whether a table holds functions.
fn has_functions(setting: &Setting, table: TableType) -> bool
    ensures { result ≡ holds_functions setting.now.cx.now.classes.now (Some table) }
{
    let functions = RefType {
        nullable: true,
        heap: HeapType::Func,
    };
    setting.cx.classes.matches_ref(table.element, functions)
}

// A call of a function of a table.
fn call_indirect_step(
    setting: &Setting,
    flow: &mut Flow,
    kind: u32,
    table: u32,
) -> Result<bool, AllocError>
    requires { HasWords setting.now.cx.now.classes.now flow.old }
    ensures steps { let c = context_in setting.now.cx.now in IfOk result
        (λ applies. gated (holds_functions setting.now.cx.now.classes.now (slice_get c.tables table))
        (step setting.now.cx.now.classes.now (call_indirect_type (slice_get c.tables table) (func_of c kind))
        (flow_view flow.old).any (flow_view flow.old).operands) ≡ flow_if applies flow.new) }
    ensures words { HasWords setting.now.cx.now.classes.now flow.new }
{
    let Some(table) = setting.cx.table(table) else {
        return Ok(false);
    };
    if !has_functions(setting, table) {
        return Ok(false);
    }
    match setting.func_of(kind) {
        Some(kind) => flow.turns_many_below(
            setting.cx.classes,
            kind.params,
            PackedType::I32,
            kind.results,
        ),
        None => Ok(false),
    }
}

// A reference to this type that may be null.
fn nullable_to(index: u32) -> PackedType
    ensures { result ≡ nullable index }
{
    PackedType::reference(RefType {
        nullable: true,
        heap: HeapType::Index(index),
    })
}

// A call of a function by a reference.
fn call_ref_step(setting: &Setting, flow: &mut Flow, index: u32) -> Result<bool, AllocError>
    requires { HasWords setting.now.cx.now.classes.now flow.old }
    ensures steps { IfOk result (λ applies. step setting.now.cx.now.classes.now (call_ref_type index (func_of
        (context_in setting.now.cx.now) index)) (flow_view flow.old).any (flow_view flow.old).operands
        ≡ flow_if applies flow.new) }
    ensures words { HasWords setting.now.cx.now.classes.now flow.new }
{
    match setting.func_of(index) {
        Some(kind) => flow.turns_many_below(
            setting.cx.classes,
            kind.params,
            nullable_to(index),
            kind.results,
        ),
        None => Ok(false),
    }
}

// Whether these results match those of the function.
fn are_returned(setting: &Setting, results: TypeRow) -> bool
    requires { IsReady setting.now.cx.now.classes.now results }
    ensures { result ≡ result_test setting.now.cx.now.classes.now results.entry.types.now (listed (row_of setting.now.results.types.now)) }
{
    results.matches(setting.cx.classes, setting.results)
}

// A tail call of a function.
fn return_call_step(setting: &Setting, flow: &mut Flow, function: u32) -> bool
    requires { HasWords setting.now.cx.now.classes.now flow.old }
    ensures steps { let f = type_of_func (context_in setting.now.cx.now) function in
        gated (returns_test setting.now.cx.now.classes.now (row_of setting.now.results.types.now) f)
        (step setting.now.cx.now.classes.now (tail_call_type f) (flow_view flow.old).any (flow_view flow.old).operands)
        ≡ flow_if result flow.new }
    ensures words { HasWords setting.now.cx.now.classes.now flow.new }
{
    match setting.type_of_func(function) {
        Some(kind) => {
            are_returned(setting, kind.results) && flow.polymorphic(setting.cx.classes, kind.params)
        }
        None => false,
    }
}

// A tail call of a function of a table.
fn return_call_indirect_step(setting: &Setting, flow: &mut Flow, kind: u32, table: u32) -> bool
    requires { HasWords setting.now.cx.now.classes.now flow.old }
    ensures steps { let c = context_in setting.now.cx.now in
        gated (holds_functions setting.now.cx.now.classes.now (slice_get c.tables table)
        && returns_test setting.now.cx.now.classes.now (row_of setting.now.results.types.now) (func_of c kind))
        (step setting.now.cx.now.classes.now (tail_call_indirect_type (slice_get c.tables table) (func_of c kind))
        (flow_view flow.old).any (flow_view flow.old).operands) ≡ flow_if result flow.new }
    ensures words { HasWords setting.now.cx.now.classes.now flow.new }
{
    let Some(table) = setting.cx.table(table) else {
        return false;
    };
    if !has_functions(setting, table) {
        return false;
    }
    match setting.func_of(kind) {
        Some(kind) => {
            are_returned(setting, kind.results)
                && flow.polymorphic_below(setting.cx.classes, kind.params, PackedType::I32)
        }
        None => false,
    }
}

// A tail call of a function by a reference.
fn return_call_ref_step(setting: &Setting, flow: &mut Flow, index: u32) -> bool
    requires { HasWords setting.now.cx.now.classes.now flow.old }
    ensures steps { let f = func_of (context_in setting.now.cx.now) index in
        gated (returns_test setting.now.cx.now.classes.now (row_of setting.now.results.types.now) f)
        (step setting.now.cx.now.classes.now (tail_call_ref_type index f) (flow_view flow.old).any (flow_view flow.old).operands)
        ≡ flow_if result flow.new }
    ensures words { HasWords setting.now.cx.now.classes.now flow.new }
{
    match setting.func_of(index) {
        Some(kind) => {
            are_returned(setting, kind.results)
                && flow.polymorphic_below(setting.cx.classes, kind.params, nullable_to(index))
        }
        None => false,
    }
}

/// A control instruction that holds no others.
pub(crate) fn control_step(
    body: &BodyContext,
    flow: &mut Flow,
    op: &ControlOp,
) -> Result<bool, AllocError>
    requires { HasWords body.now.setting.now.cx.now.classes.now flow.old }
    ensures steps { IfOk result (λ applies. gated (control_test body.now.setting.now.cx.now.classes.now
        (context_at body.now) op.now)
        (step body.now.setting.now.cx.now.classes.now (control_op_type (context_at body.now) op.now)
        (flow_view flow.old).any (flow_view flow.old).operands) ≡ flow_if applies flow.new) }
    ensures words { HasWords body.now.setting.now.cx.now.classes.now flow.new }
{
    let setting = body.setting;
    let classes = setting.cx.classes;
    match op {
        ControlOp::Unreachable => Ok(flow.polymorphic(classes, TypeRow::bare(&[]))),
        ControlOp::Nop => flow.turns_few(classes, &[], &[]),
        ControlOp::Br(index) => match body.label(*index) {
            Some(label) => Ok(flow.polymorphic(classes, label)),
            None => Ok(false),
        },
        ControlOp::BrIf(index) => br_if_step(body, flow, *index),
        ControlOp::BrTable(labels, otherwise) => Ok(table_step(
            body,
            flow,
            labels.as_slice(),
            *otherwise,
        )),
        ControlOp::Return => Ok(flow.polymorphic(classes, setting.results)),
        ControlOp::BrOnNull(index) => br_on_null_step(body, flow, *index),
        ControlOp::BrOnNonNull(index) => br_on_non_null_step(body, flow, *index),
        ControlOp::Call(function) => call_step(setting, flow, *function),
        ControlOp::CallIndirect(kind, table) => call_indirect_step(setting, flow, *kind, *table),
        ControlOp::CallRef(kind) => call_ref_step(setting, flow, *kind),
        ControlOp::ReturnCall(function) => Ok(return_call_step(setting, flow, *function)),
        ControlOp::ReturnCallIndirect(kind, table) => Ok(return_call_indirect_step(
            setting, flow, *kind, *table,
        )),
        ControlOp::ReturnCallRef(kind) => Ok(return_call_ref_step(setting, flow, *kind)),
    }
}
