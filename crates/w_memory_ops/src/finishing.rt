//! Going on behind an operation on the memory that may trap.
ghost use Rattle.std.specs.Prelude.{◌≡◌, ◌+◌, ◌<◌, ◌≤◌, ◌^◌, length};
ghost use Rattle.w_memory_ops.specs.Changing.{did_of, finished};

use w_reduce::Trap;
use w_segment::Stack;
use w_stands::{Did, drop_next};

/// Takes the operands off and goes on, where there was no trap.
#[inline(always)]
pub(crate) fn finish(stack: &mut Stack, count: usize, done: Option<()>) -> Did
    requires there { count ≤ length stack.old.operands }
    requires place { stack.old.place + 1 < 2 ^ 32 }
    ensures did { result ≡ did_of done }
    ensures after { stack.new ≡ finished done count stack.old }
{
    match done {
        Some(()) => {
            drop_next(stack, count);
            Did::Went
        }
        None => Did::Trapped(Trap::MemoryOutOfBounds),
    }
}
