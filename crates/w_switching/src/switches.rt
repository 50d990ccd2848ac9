//! Switching from one continuation to another, inside the same handle.
ghost use Rattle.std.specs.Prelude.{◌≡◌, ◌+◌, ◌<◌, ◌≤◌, ◌^◌, length};
ghost use Rattle.w_syntax.specs.declared.instructions.SwitchingOp.TheVariants as switching;
ghost use Rattle.w_segment.specs.Link.{top};
ghost use Rattle.w_conts.specs.Conts.{KeepsReferences};
ghost use Rattle.w_switching.specs.Moved.{Exchanged};
ghost use Rattle.w_switching.specs.Reductions.{SwitchesAt, Switches, TakesAtLeast};
ghost use Rattle.w_switching.specs.Sound.{Sound, Roomy, HasRoomFor, most_segments};

use crate::module_types::back_type;
use crate::stored::Stored;
use w_chain::Chain;
use w_conts::ContStore;
use w_reduce::Trap;
use w_segment::Segment;
use w_stands::Did;
use w_syntax::Module;
use w_types::Value;

// Moves the arguments beneath the topmost operand to some segments. Those up to a layer are stored, behind their instruction, as a
// continuation that takes so many values; the reference to it goes to the others, which are put inside what waits outside the layer.
fn exchange(
    chain: &mut Chain,
    conts: &mut ContStore<Stored>,
    segment: Box<Segment>,
    layer: usize,
    args: usize,
    takes: u32,
)
    requires layer { layer + 1 < length chain.old }
    requires operands { args + 1 ≤ length (top chain.old).shape.operands }
    requires place { (top chain.old).shape.place + 1 < 2 ^ 32 }
    requires room { HasRoomFor (args + 1) segment.value }
    requires few { length chain.old + length segment.value ≤ 2 ^ 31 }
    requires spare { 0 < conts.old.spare }
    requires made { length conts.old.entries < 2 ^ 40 }
    ensures after { Exchanged args takes layer segment.value chain.old conts.old chain.new conts.new }
    ensures references { KeepsReferences conts.old conts.new }
{
    let mut segment = segment;
    let stack = chain.stack_mut();
    let target = segment.stack_mut();
    stack.discard(1);
    target.push_all(stack.tops(args));
    stack.discard(args);
    stack.go(stack.place() + 1);
    let part = chain.cut(layer);
    let reference = conts.put(Stored {
        takes,
        segment: part,
    });
    target.push(Value::Cont(reference));
    chain.join(segment);
}

/// Switches to the continuation whose reference is the topmost operand, inside the innermost handle that has a switch clause for the tag:
/// what was inside is kept as a continuation, and the reference to it goes along as the last argument. Null, a continuation that was
/// consumed, and no such handle trap (stack-switching explainer, execution: switch). It takes no memory.
pub fn switch(
    program: &Module,
    chain: &mut Chain,
    conts: &mut ContStore<Stored>,
    kind: u32,
    tag: u32,
) -> Did
    requires at { SwitchesAt (switching.Switch kind tag) program.now chain.old conts.old }
    requires sound { Sound chain.old conts.old }
    requires roomy { Roomy program.now chain.old conts.old }
    requires few { length chain.old ≤ most_segments }
    requires made { length conts.old.entries < 2 ^ 40 }
    requires takes { TakesAtLeast 1 chain.old conts.old }
    ensures goes { Switches result (switching.Switch kind tag) program.now chain.old conts.old chain.new conts.new }
    ensures sound { Sound chain.new conts.new }
    ensures roomy { Roomy program.now chain.new conts.new }
    ensures references { KeepsReferences conts.old conts.new }
{
    let reference = match chain.stack().peek() {
        Value::Null => return Did::Trapped(Trap::NullReference),
        Value::Cont(reference) => reference,
        _ => unreachable!(),
    };
    let args = match conts.look(reference) {
        Some(stored) => stored.takes as usize - 1,
        None => return Did::Trapped(Trap::ConsumedContinuation),
    };
    let Some(layer) = chain.find_switch(program, tag) else {
        return Did::Trapped(Trap::Unhandled(tag));
    };
    let takes = match back_type(program, kind) {
        Some(function) => function.params.len() as u32,
        None => unreachable!(),
    };
    match conts.take(reference) {
        Some(stored) => {
            exchange(chain, conts, stored.segment, layer, args, takes);
            Did::Went
        }
        None => unreachable!(),
    }
}
