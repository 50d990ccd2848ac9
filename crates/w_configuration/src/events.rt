//! What the next reduction does with continuations, before it is taken.
ghost use Rattle.std.specs.Prelude.{◌≡◌, option_map};
ghost use Rattle.w_syntax.specs.Packed.{unpacked};
ghost use Rattle.w_stands.specs.Values.{stack};
ghost use Rattle.w_reduce.specs.Store.{Store as TheStore, next_cont};
ghost use Rattle.w_trace.specs.Events.{top_cont as cont_on_top, switching_event as event_of_switching};
ghost use Rattle.w_configuration.specs.Standing.{StandsSomewhere};
ghost use Rattle.w_configuration.specs.NextEvents.{event_at as event_of_instr, TellsEvent};

use crate::configuration::Configuration;
use w_plain::instr_at;
use w_segment::{Stack, Stage};
use w_syntax::{Instr, Module, Op, PackedInstr, SwitchingOp};
use w_trace::EventKind;
use w_types::Value;

// The address of the continuation that the topmost operand refers to. A continuation's address is its serial.
fn top_cont(inner: &Stack) -> Option<u64>
    ensures { result ≡ cont_on_top (stack inner.now.operands) }
{
    if inner.count() == 0 {
        return None;
    }
    match inner.peek() {
        Value::Cont(reference) => Some(reference.serial),
        _ => None,
    }
}

// The event of an instruction that switches stacks, where the next continuation has the address `next`.
fn switching_event(inner: &Stack, next: u64, operation: &SwitchingOp) -> Option<EventKind>
    ensures { (s : TheStore) → next_cont s ≡ next → result ≡ event_of_switching s (stack inner.now.operands) operation.now }
{
    match operation {
        SwitchingOp::ContNew(_) => Some(EventKind::New(next)),
        SwitchingOp::ContBind(_, _) => {
            top_cont(inner).map(|address| EventKind::Bind(address, next))
        }
        SwitchingOp::Suspend(tag) => Some(EventKind::Suspend(*tag, next)),
        SwitchingOp::Resume(_, _) => top_cont(inner).map(EventKind::Resume),
        SwitchingOp::Switch(_, tag) => {
            top_cont(inner).map(|address| EventKind::Switch(address, *tag, next))
        }
    }
}

// The event of the instruction that was found, if one was.
fn event_at(inner: &Stack, next: u64, found: Option<&PackedInstr>) -> Option<EventKind>
    ensures { (s : TheStore) → next_cont s ≡ next → result ≡ event_of_instr s (stack inner.now.operands) (option_map (λ p. unpacked p.now) found.entry) }
{
    match found {
        Some(PackedInstr::Switching(operation)) => switching_event(inner, next, &operation.whole()),
        Some(PackedInstr::Boxed(instruction)) => match &**instruction {
            Instr::Plain(Op::Switching(operation)) => switching_event(inner, next, operation),
            _ => None,
        },
        _ => None,
    }
}

/// What the next reduction does with continuations, where it goes on.
pub fn next_event(program: &Module, configuration: &Configuration) -> Option<EventKind>
    requires { StandsSomewhere program.now configuration.now }
    ensures { TellsEvent result program.now configuration.now }
{
    let inner = configuration.chain.stack();
    match inner.stage() {
        Stage::Body => {
            let found = instr_at(program, inner.func(), inner.place());
            event_at(inner, configuration.conts.made(), found)
        }
        Stage::Values => {
            if configuration.chain.handles() == 0 {
                None
            } else {
                Some(EventKind::Exit)
            }
        }
        // a function is invoked, or a branch is taken
        Stage::Fresh | Stage::Branch(_) => None,
    }
}
