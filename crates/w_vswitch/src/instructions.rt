//! The stack switching instructions (the explainer, validation).
ghost use Rattle.std.specs.Prelude.{IfOk, IfSome, Some, None};
ghost use Rattle.std.specs.Option.{option_map};
ghost use Rattle.w_syntax.specs.declared.instructions.SwitchingOp.TheVariants as op;
ghost use Rattle.w_syntax.specs.Packed.{unpacked};
ghost use Rattle.w_rows.specs.TypeRows.{IsReady};
ghost use Rattle.w_vplain.specs.Prefixes.{follow};
ghost use Rattle.w_vplain.specs.Standing.{Answers, IsSameBody, StaysOutOfMemory};
ghost use Rattle.w_vswitch.specs.Following.{follow_switching, instr_of};
ghost use Rattle.w_vswitch.specs.Places.{Anywhere};
ghost use Rattle.w_vswitch.specs.Rows.{BoundBy, SwitchedBy};

use crate::clauses::{clauses_fit, longest_label};
use crate::continuations::{last_index, non_null, nullable};
use std::alloc::AllocError;
use w_rows::TypeRow;
use w_steps::Setting;
use w_syntax::{Clause, Instr, Op, PackedInstr, SwitchingOp};
use w_vplain::Checker;

// A continuation of a function.
fn cont_new(checker: &mut Checker, index: u32) -> Result<bool, AllocError>
    ensures answers { IfOk result (λ applies. Answers checker.old checker.new (follow (instr_of
        (op.ContNew index))) applies) }
    ensures body { IsSameBody checker.old checker.new }
    ensures memory { StaysOutOfMemory checker.old result checker.new }
{
    match checker.setting().cx.func_index_of_cont(index) {
        Some(function) => checker.apply(
            TypeRow::bare(&[]),
            Some(nullable(function)),
            TypeRow::bare(&[non_null(index)]),
            None,
        ),
        None => checker.refuse(),
    }
}

// The parameters of a continuation that a `cont.bind` of two types binds, where its condition holds.
fn bound<'a>(setting: &Setting<'a>, before: u32, after: u32) -> Option<TypeRow<'a>>
    ensures bound { Anywhere setting.now.cx.now (BoundBy before after (option_map (λ v. v.types.now) result)) }
    ensures ready { IfSome result (IsReady setting.now.cx.now.classes.now) }
{
    let one = setting.cont_of(before)?;
    let other = setting.cont_of(after)?;
    let count = one
        .params
        .types
        .len()
        .checked_sub(other.params.types.len())?;
    let classes = setting.cx.classes;
    let (front, left) = one.params.split_at(classes, count);
    if other.params.matches(classes, left) && one.results.matches(classes, other.results) {
        Some(front)
    } else {
        None
    }
}

// A continuation with some of its parameters bound.
fn cont_bind(checker: &mut Checker, before: u32, after: u32) -> Result<bool, AllocError>
    ensures answers { IfOk result (λ applies. Answers checker.old checker.new (follow (instr_of
        (op.ContBind before after))) applies) }
    ensures body { IsSameBody checker.old checker.new }
    ensures memory { StaysOutOfMemory checker.old result checker.new }
{
    match bound(&checker.setting(), before, after) {
        Some(front) => checker.apply(
            front,
            Some(nullable(before)),
            TypeRow::bare(&[non_null(after)]),
            None,
        ),
        None => checker.refuse(),
    }
}

// An event: control goes to a handler of this tag.
fn suspend(checker: &mut Checker, tag: u32) -> Result<bool, AllocError>
    ensures answers { IfOk result (λ applies. Answers checker.old checker.new (follow (instr_of
        (op.Suspend tag))) applies) }
    ensures body { IsSameBody checker.old checker.new }
    ensures memory { StaysOutOfMemory checker.old result checker.new }
{
    let Some(kind) = checker.setting().type_of_tag(tag) else {
        return checker.refuse();
    };
    checker.apply(kind.params, None, kind.results, None)
}

// A continuation goes on, under a handler of these clauses.
fn resume(checker: &mut Checker, index: u32, clauses: &[Clause]) -> Result<bool, AllocError>
    ensures answers { IfOk result (λ applies. Answers checker.old checker.new (follow (instr_of
        (op.Resume index clauses.now))) applies) }
    ensures body { IsSameBody checker.old checker.new }
    ensures memory { StaysOutOfMemory checker.old result checker.new }
{
    let Some(kind) = checker.setting().cont_of(index) else {
        return checker.refuse();
    };
    if !clauses_fit(checker, kind.results, clauses) {
        return checker.refuse();
    }
    let raise = longest_label(checker, clauses);
    let reference = nullable(index);
    checker.apply(kind.params, Some(reference), kind.results, raise)
}

// What a `switch` to a continuation of this type takes beneath it, and what it gives back, where its condition holds.
fn switched<'a>(setting: &Setting<'a>, index: u32, tag: u32) -> Option<(TypeRow<'a>, TypeRow<'a>)>
    ensures switched { Anywhere setting.now.cx.now (SwitchedBy index tag (option_map (λ p. (p.0.types.now, p.1.types.now)) result)) }
    ensures ready { IfSome result (λ p. IsReady setting.now.cx.now.classes.now p.0 × IsReady setting.now.cx.now.classes.now p.1) }
{
    let one = setting.cont_of(index)?;
    let (beneath, back) = last_index(one.params.types)?;
    let other = setting.cont_of(back)?;
    let tag = setting.type_of_tag(tag)?;
    let classes = setting.cx.classes;
    if tag.params.types.len() == 0
        && one.results.matches(classes, tag.results)
        && tag.results.matches(classes, other.results)
    {
        let (beneath, _) = one.params.split_at(classes, beneath.len());
        Some((beneath, other.params))
    } else {
        None
    }
}

// Another continuation goes on in place of this one.
fn switch(checker: &mut Checker, index: u32, tag: u32) -> Result<bool, AllocError>
    ensures answers { IfOk result (λ applies. Answers checker.old checker.new (follow (instr_of
        (op.Switch index tag))) applies) }
    ensures body { IsSameBody checker.old checker.new }
    ensures memory { StaysOutOfMemory checker.old result checker.new }
{
    match switched(&checker.setting(), index, tag) {
        Some((beneath, back)) => checker.apply(beneath, Some(nullable(index)), back, None),
        None => checker.refuse(),
    }
}

// A stack switching instruction.
fn typed(checker: &mut Checker, op: &SwitchingOp) -> Result<bool, AllocError>
    ensures answers { IfOk result (λ applies. Answers checker.old checker.new (follow
        (instr_of op.now)) applies) }
    ensures body { IsSameBody checker.old checker.new }
    ensures memory { StaysOutOfMemory checker.old result checker.new }
{
    match op {
        SwitchingOp::ContNew(index) => cont_new(checker, *index),
        SwitchingOp::ContBind(before, after) => cont_bind(checker, *before, *after),
        SwitchingOp::Suspend(tag) => suspend(checker, *tag),
        SwitchingOp::Resume(index, clauses) => resume(checker, *index, clauses.as_slice()),
        SwitchingOp::Switch(index, tag) => switch(checker, *index, *tag),
    }
}

// A boxed instruction, where it switches stacks.
fn boxed(checker: &mut Checker, instr: &Instr) -> Result<bool, AllocError>
    ensures answers { IfOk result (λ applies. Answers checker.old checker.new
        (follow_switching instr.now) applies) }
    ensures body { IsSameBody checker.old checker.new }
    ensures memory { StaysOutOfMemory checker.old result checker.new }
{
    match instr {
        Instr::Plain(Op::Switching(op)) => typed(checker, op),
        _ => checker.refuse(),
    }
}

/// A stack switching instruction; another one begins no body there. Whether the rules derive the sequence with it (the explainer,
/// validation). It fails only when out of memory.
pub fn switching(checker: &mut Checker, packed: &PackedInstr) -> Result<bool, AllocError>
    ensures answers { IfOk result (λ applies. Answers checker.old checker.new (follow_switching
        (unpacked packed.now)) applies) }
    ensures body { IsSameBody checker.old checker.new }
    ensures memory { StaysOutOfMemory checker.old result checker.new }
{
    match packed {
        PackedInstr::Switching(op) => typed(checker, &op.whole()),
        PackedInstr::Boxed(instr) => boxed(checker, instr),
        _ => checker.refuse(),
    }
}
