//! Going on behind an instruction.
ghost use Rattle.std.specs.Prelude.{◌≡◌, ◌+◌, ◌<◌, ◌≤◌, ◌^◌, length};
ghost use Rattle.w_segment.specs.Changes.{moved};
ghost use Rattle.w_segment.specs.Shape.{height};
ghost use Rattle.w_stands.specs.GoingOn.{replaced, dropped, IsPushedNext};

use w_segment::Stack;
use w_types::Value;

/// Goes on behind the instruction.
#[inline(always)]
pub fn next(stack: &mut Stack)
    requires place { stack.old.place + 1 < 2 ^ 32 }
    ensures after { stack.new ≡ moved (stack.old.place + 1) stack.old }
{
    stack.go(stack.place() + 1);
}

/// Puts a value in place of the topmost operands, so many, and goes on behind the instruction.
#[inline(always)]
pub fn replace(stack: &mut Stack, count: usize, value: Value)
    requires some { 0 < count }
    requires there { count ≤ length stack.old.operands }
    requires place { stack.old.place + 1 < 2 ^ 32 }
    ensures after { stack.new ≡ replaced count value stack.old }
{
    stack.discard(count);
    stack.push(value);
    stack.go(stack.place() + 1);
}

/// Takes the topmost operands off, so many, and goes on behind the instruction.
#[inline(always)]
pub fn drop_next(stack: &mut Stack, count: usize)
    requires there { count ≤ length stack.old.operands }
    requires place { stack.old.place + 1 < 2 ^ 32 }
    ensures after { stack.new ≡ dropped count stack.old }
{
    stack.discard(count);
    stack.go(stack.place() + 1);
}

/// Pushes a value, where there is room, and goes on behind the instruction.
#[inline(always)]
pub fn push_next(stack: &mut Stack, value: Value)
    requires room { height stack.old < stack.old.capacity.operands }
    requires place { stack.old.place + 1 < 2 ^ 32 }
    ensures after { IsPushedNext value stack.old stack.new }
{
    stack.push(value);
    stack.go(stack.place() + 1);
}
