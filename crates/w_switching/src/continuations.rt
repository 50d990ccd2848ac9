//! Making continuations and binding their arguments.
ghost use Rattle.std.specs.Prelude.{◌≡◌, ◌+◌, ◌<◌, ◌≤◌, ◌^◌, length, IfOk, OnErr};
ghost use Rattle.w_syntax.specs.declared.instructions.SwitchingOp.TheVariants as switching;
ghost use Rattle.w_segment.specs.Link.{top};
ghost use Rattle.w_conts.specs.Conts.{KeepsReferences};
ghost use Rattle.w_switching.specs.Moved.{Bound};
ghost use Rattle.w_switching.specs.Reductions.{SwitchesAt, Switches, TakesParams};
ghost use Rattle.w_switching.specs.Sound.{Sound, Roomy, HasRoomFor};

use crate::module_types::cont_type;
use crate::stored::Stored;
use std::alloc::{AllocError, Global};
use w_chain::Chain;
use w_conts::ContStore;
use w_reduce::Trap;
use w_segment::Segment;
use w_stands::Did;
use w_syntax::Module;
use w_types::Value;

/// Makes a continuation of the function whose reference is the topmost operand, and leaves the reference to it; it traps at null
/// (stack-switching explainer, execution: cont.new). It fails only when out of memory, and then nothing was changed.
pub fn cont_new(
    program: &Module,
    alloc: Global,
    chain: &mut Chain,
    conts: &mut ContStore<Stored>,
    kind: u32,
) -> Result<Did, AllocError>
    requires at { SwitchesAt (switching.ContNew kind) program.now chain.old conts.old }
    requires sound { Sound chain.old conts.old }
    requires roomy { Roomy program.now chain.old conts.old }
    requires made { length conts.old.entries < 2 ^ 40 }
    ensures goes { IfOk result (λ d. Switches d (switching.ContNew kind) program.now chain.old conts.old chain.new conts.new) }
    ensures sound { Sound chain.new conts.new }
    ensures roomy { Roomy program.now chain.new conts.new }
    ensures references { KeepsReferences conts.old conts.new }
    ensures err_chain { OnErr result (chain.new ≡ chain.old) }
    ensures err_conts { OnErr result (conts.new ≡ conts.old) }
{
    let func = match chain.stack().peek() {
        Value::Null => return Ok(Did::Trapped(Trap::NullReference)),
        Value::Func(func) => func,
        _ => unreachable!(),
    };
    let takes = match cont_type(program, kind) {
        Some(function) => function.params.len(),
        None => unreachable!(),
    };
    let Ok(takes) = u32::try_from(takes) else {
        return Err(AllocError);
    };
    let segment = Segment::fresh(alloc, func, takes)?;
    conts.reserve_one()?;
    let reference = conts.put(Stored { takes, segment });
    let stack = chain.stack_mut();
    stack.discard(1);
    stack.push(Value::Cont(reference));
    stack.go(stack.place() + 1);
    Ok(Did::Went)
}

// Moves the arguments beneath the topmost operand to some segments, stores these as a continuation that takes so many values, and leaves
// the reference to it.
fn bind(
    chain: &mut Chain,
    conts: &mut ContStore<Stored>,
    segment: Box<Segment>,
    args: usize,
    takes: u32,
)
    requires some { 0 < length chain.old }
    requires operands { args + 1 ≤ length (top chain.old).shape.operands }
    requires place { (top chain.old).shape.place + 1 < 2 ^ 32 }
    requires room { HasRoomFor args segment.value }
    requires spare { 0 < conts.old.spare }
    requires made { length conts.old.entries < 2 ^ 40 }
    ensures after { Bound args takes segment.value chain.old conts.old chain.new conts.new }
    ensures references { KeepsReferences conts.old conts.new }
{
    let mut segment = segment;
    let stack = chain.stack_mut();
    stack.discard(1);
    segment.stack_mut().push_all(stack.tops(args));
    stack.discard(args);
    let reference = conts.put(Stored { takes, segment });
    stack.push(Value::Cont(reference));
    stack.go(stack.place() + 1);
}

/// Binds the first arguments of the continuation whose reference is the topmost operand, all but as many as `to` has parameters: it is
/// consumed, and the reference to one that takes these is left. Null, and a continuation that was consumed, trap (stack-switching
/// explainer, execution: cont.bind). It takes no memory.
pub fn cont_bind(
    program: &Module,
    chain: &mut Chain,
    conts: &mut ContStore<Stored>,
    from: u32,
    to: u32,
) -> Did
    requires at { SwitchesAt (switching.ContBind from to) program.now chain.old conts.old }
    requires sound { Sound chain.old conts.old }
    requires roomy { Roomy program.now chain.old conts.old }
    requires made { length conts.old.entries < 2 ^ 40 }
    requires takes { TakesParams to program.now chain.old conts.old }
    ensures goes { Switches result (switching.ContBind from to) program.now chain.old conts.old chain.new conts.new }
    ensures sound { Sound chain.new conts.new }
    ensures roomy { Roomy program.now chain.new conts.new }
    ensures references { KeepsReferences conts.old conts.new }
{
    let _from = from;
    let reference = match chain.stack().peek() {
        Value::Null => return Did::Trapped(Trap::NullReference),
        Value::Cont(reference) => reference,
        _ => unreachable!(),
    };
    match conts.take(reference) {
        Some(stored) => {
            let params = match cont_type(program, to) {
                Some(function) => function.params.len(),
                None => unreachable!(),
            };
            let args = stored.takes as usize - params;
            bind(chain, conts, stored.segment, args, params as u32);
            Did::Went
        }
        None => Did::Trapped(Trap::ConsumedContinuation),
    }
}
