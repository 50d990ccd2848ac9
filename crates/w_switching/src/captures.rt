//! Capturing continuations: the innermost segments are stored, up to a handle that has a clause for a tag.
ghost use Rattle.std.specs.Prelude.{◌≡◌, ◌+◌, ◌<◌, ◌≤◌, ◌^◌, length, drop};
ghost use Rattle.w_syntax.specs.declared.instructions.SwitchingOp.TheVariants as switching;
ghost use Rattle.w_segment.specs.Link.{top};
ghost use Rattle.w_conts.specs.Conts.{KeepsReferences};
ghost use Rattle.w_switching.specs.Moved.{Captured};
ghost use Rattle.w_switching.specs.Reductions.{SwitchesAt, Switches};
ghost use Rattle.w_switching.specs.Sound.{Sound, Roomy, HasRoomFor, most_segments};

use crate::module_types::tag_type;
use crate::stored::Stored;
use w_chain::Chain;
use w_conts::ContStore;
use w_reduce::Trap;
use w_segment::Stage;
use w_stands::Did;
use w_syntax::Module;
use w_types::Value;

// Stores the segments up to a layer, behind their instruction, as a continuation that takes so many values. Their topmost operands, so many,
// and the reference to it go to the segment that waits outside, which stands at a branch then.
fn capture(
    chain: &mut Chain,
    conts: &mut ContStore<Stored>,
    layer: usize,
    label: u32,
    args: u32,
    takes: u32,
)
    requires layer { layer + 1 < length chain.old }
    requires operands { args ≤ length (top chain.old).shape.operands }
    requires place { (top chain.old).shape.place + 1 < 2 ^ 32 }
    requires outside { HasRoomFor (args + 1) (drop (layer + 1) chain.old) }
    requires spare { 0 < conts.old.spare }
    requires made { length conts.old.entries < 2 ^ 40 }
    ensures after { Captured args takes layer label chain.old conts.old chain.new conts.new }
    ensures references { KeepsReferences conts.old conts.new }
{
    let mut inside = chain.cut(layer);
    let inner = inside.stack_mut();
    let waiting = chain.stack_mut();
    waiting.push_all(inner.tops(args as usize));
    inner.discard(args as usize);
    inner.go(inner.place() + 1);
    let reference = conts.put(Stored {
        takes,
        segment: inside,
    });
    waiting.push(Value::Cont(reference));
    waiting.set_stage(Stage::Branch(label));
}

/// Suspends with a tag, up to the innermost handle that has a label clause for it: what is inside is kept as a continuation, and the tag's
/// arguments and the reference to it are left before a branch to the first such clause's label; it traps where there is no such handle
/// (stack-switching explainer, execution: suspend). It takes no memory.
pub fn suspend(program: &Module, chain: &mut Chain, conts: &mut ContStore<Stored>, tag: u32) -> Did
    requires at { SwitchesAt (switching.Suspend tag) program.now chain.old conts.old }
    requires sound { Sound chain.old conts.old }
    requires roomy { Roomy program.now chain.old conts.old }
    requires few { length chain.old ≤ most_segments }
    requires made { length conts.old.entries < 2 ^ 40 }
    ensures goes { Switches result (switching.Suspend tag) program.now chain.old conts.old chain.new conts.new }
    ensures sound { Sound chain.new conts.new }
    ensures roomy { Roomy program.now chain.new conts.new }
    ensures references { KeepsReferences conts.old conts.new }
{
    let (layer, label) = match chain.find_suspend(program, tag) {
        Some(found) => found,
        None => return Did::Trapped(Trap::Unhandled(tag)),
    };
    let (args, takes) = match tag_type(program, tag) {
        Some(function) => (function.params.len() as u32, function.results.len() as u32),
        None => unreachable!(),
    };
    capture(chain, conts, layer, label, args, takes);
    Did::Went
}
