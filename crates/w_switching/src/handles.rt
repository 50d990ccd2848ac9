//! Entering and leaving handles: a continuation is resumed inside one, and the innermost segment leaves the one around it when it is
//! values.
ghost use Rattle.std.specs.Prelude.{◌≡◌, ◌+◌, ◌<◌, ◌≤◌, ◌^◌, length};
ghost use Rattle.w_syntax.specs.declared.instructions.SwitchingOp.TheVariants as switching;
ghost use Rattle.w_syntax.specs.declared.module.Module.{Module as TheModule};
ghost use Rattle.w_segment.specs.declared.entry.Stage.TheVariants.{Values};
ghost use Rattle.w_segment.specs.Link.{top, rest};
ghost use Rattle.w_conts.specs.Conts.{KeepsReferences};
ghost use Rattle.w_switching.specs.Moved.{passed, merged};
ghost use Rattle.w_switching.specs.Reductions.{SwitchesAt, Switches, Exits};
ghost use Rattle.w_switching.specs.Sound.{Sound, Roomy, HasRoomFor, most_segments};

use crate::stored::Stored;
use w_chain::Chain;
use w_conts::ContStore;
use w_reduce::Trap;
use w_segment::Segment;
use w_stands::Did;
use w_syntax::{Clause, Module};
use w_types::Value;

// Moves the arguments beneath the topmost operand to some segments, and puts these inside; the segment that was the innermost one waits
// at the instruction's place, and goes on behind it.
fn pass(chain: &mut Chain, segment: Box<Segment>, args: usize)
    requires some { 0 < length chain.old }
    requires operands { args + 1 ≤ length (top chain.old).shape.operands }
    requires place { (top chain.old).shape.place + 1 < 2 ^ 32 }
    requires room { HasRoomFor args segment.value }
    requires few { length chain.old + length segment.value ≤ 2 ^ 31 }
    ensures after { chain.new ≡ passed args segment.value chain.old }
{
    let mut segment = segment;
    let stack = chain.stack_mut();
    let place = stack.place();
    stack.discard(1);
    segment.stack_mut().push_all(stack.tops(args));
    stack.discard(args);
    stack.go(place + 1);
    chain.wait_at(place);
    chain.join(segment);
}

/// Resumes the continuation whose reference is the topmost operand, with as many arguments as it takes, inside a handle with the clauses
/// of the instruction; it is consumed. Null, and a continuation that was consumed, trap (stack-switching explainer, execution: resume).
/// It takes no memory.
pub fn resume(
    program: &Module,
    chain: &mut Chain,
    conts: &mut ContStore<Stored>,
    kind: u32,
    clauses: &[Clause],
) -> Did
    requires at { SwitchesAt (switching.Resume kind clauses.now) program.now chain.old conts.old }
    requires sound { Sound chain.old conts.old }
    requires roomy { Roomy program.now chain.old conts.old }
    requires few { length chain.old ≤ most_segments }
    ensures goes { Switches result (switching.Resume kind clauses.now) program.now chain.old conts.old chain.new conts.new }
    ensures sound { Sound chain.new conts.new }
    ensures roomy { Roomy program.now chain.new conts.new }
    ensures references { KeepsReferences conts.old conts.new }
{
    let (_program, _kind, _clauses) = (program, kind, clauses);
    let reference = match chain.stack().peek() {
        Value::Null => return Did::Trapped(Trap::NullReference),
        Value::Cont(reference) => reference,
        _ => unreachable!(),
    };
    match conts.take(reference) {
        Some(stored) => {
            pass(chain, stored.segment, stored.takes as usize);
            Did::Went
        }
        None => Did::Trapped(Trap::ConsumedContinuation),
    }
}

// Moves the operands of the innermost segment onto those of the one that waits, which has room for them, and is the innermost one then.
fn merge(chain: &mut Chain)
    requires two { 1 < length chain.old }
    requires room { HasRoomFor (length (top chain.old).shape.operands) (rest chain.old) }
    ensures after { chain.new ≡ merged chain.old }
{
    let done = chain.pop();
    chain.stack_mut().push_all(done.stack().operands());
}

/// Leaves the handle around the innermost segment, which is values: these stand on the operands of the segment that waited, which has room
/// for them and goes on, and the room for one continuation is given back (stack-switching explainer, execution: handle). It takes no
/// memory.
pub fn exit_handle(chain: &mut Chain, conts: &mut ContStore<Stored>)
    requires two { 1 < length chain.old }
    requires values { (top chain.old).shape.stage ≡ Values }
    requires sound { Sound chain.old conts.old }
    requires room { HasRoomFor (length (top chain.old).shape.operands) (rest chain.old) }
    ensures goes { Exits chain.old conts.old chain.new conts.new }
    ensures sound { Sound chain.new conts.new }
    ensures roomy { (m : TheModule) → Roomy m chain.old conts.old → Roomy m chain.new conts.new }
    ensures references { KeepsReferences conts.old conts.new }
{
    merge(chain);
    conts.release_one();
}
