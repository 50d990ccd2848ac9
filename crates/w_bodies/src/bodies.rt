//! The type of a body, and what it needs.
ghost use Rattle.std.specs.Prelude.{◌≡◌, IfOk};
ghost use Rattle.w_syntax.specs.Packed.{unpacked};
ghost use Rattle.w_rules.specs.View.{context_in, HasClasses};
ghost use Rattle.w_vplain.specs.Prefixes.{follow};
ghost use Rattle.w_vplain.specs.Standing.{Answers, IsSameBody};
ghost use Rattle.w_bodies.specs.Measured.{IsMeasure};

use std::alloc::{AllocError, Global};
use std::mem;
use w_steps::Setting;
use w_syntax::{Body, Instr, LocalRun, Op, PackedInstr};
use w_types::PackedType;
use w_vplain::{Checker, Room};
use w_vswitch::switching;

// One instruction more, which is boxed: whether the rules derive the sequence with it.
fn call_boxed(
    checker: &mut Checker,
    packed: &PackedInstr,
    instr: &Instr,
) -> Result<bool, AllocError>
    requires { unpacked packed.now ≡ instr.now }
    ensures answers { IfOk result (λ applies. Answers checker.old checker.new (follow
        (unpacked packed.now)) applies) }
    ensures body { IsSameBody checker.old checker.new }
{
    match instr {
        Instr::Plain(Op::Switching(_)) => switching(checker, packed),
        Instr::Plain(_) => checker.plain(packed),
        Instr::Block(_, _, _) | Instr::If(_, _, _) => checker.enter(packed),
        Instr::Else => checker.other(),
        Instr::End => checker.end(),
    }
}

// One instruction more: whether the rules derive the sequence with it.
fn call(checker: &mut Checker, packed: &PackedInstr) -> Result<bool, AllocError>
    ensures answers { IfOk result (λ applies. Answers checker.old checker.new (follow
        (unpacked packed.now)) applies) }
    ensures body { IsSameBody checker.old checker.new }
{
    match packed {
        PackedInstr::Switching(_) => switching(checker, packed),
        PackedInstr::Block(_, _, _) | PackedInstr::If(_, _) | PackedInstr::IfElse(_, _, _) => {
            checker.enter(packed)
        }
        PackedInstr::Else => checker.other(),
        PackedInstr::End => checker.end(),
        PackedInstr::Boxed(instr) => call_boxed(checker, packed, instr),
        _ => checker.plain(packed),
    }
}

/// Types a body (Core, validation, functions): where it has its type, the greatest number of operands at a counted place of it, and
/// one plus the greatest number of blocks around a place. That is so where the context has the classes of its types, and each supertype is
/// of its subtypes' kind. It works in this room, and leaves it to the next one. It fails only when out of memory.
pub fn check_body(
    alloc: Global,
    setting: Setting,
    room: &mut Room,
    params: &[PackedType],
    runs: &[LocalRun],
    body: &Body,
) -> Result<Option<(u64, u32)>, AllocError>
    ensures { HasClasses setting.entry.cx.now → IfOk result (λ measured. IsMeasure
        (context_in setting.entry.cx.now) params.now runs.now setting.entry.results.types.now body.now measured) }
{
    let kept = mem::replace(room, Room::new(alloc));
    let mut checker = Checker::begin(alloc, setting, kept, params, runs)?;
    for packed in body.instrs() {
        if !call(&mut checker, packed)? {
            return Ok(None);
        }
    }
    let measured = (checker.height(), checker.depth());
    *room = checker.into_room();
    Ok(Some(measured))
}
