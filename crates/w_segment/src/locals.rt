//! The locals of the innermost frame.

use crate::stack::Stack;
use crate::values::push_copies;
use w_types::Value;

impl Stack {
    ghost use Rattle.std.specs.Prelude.{◌≡◌, ◌+◌, ◌<◌, ◌≤◌, length, replicate, slice_get};
    ghost use Rattle.w_segment.specs.Shape.{frames_of, locals_all, locals_of};
    ghost use Rattle.w_segment.specs.Changes.{with_locals, with_more};

    /// A local of the innermost frame, where it has one of this index; `None`: it was never set.
    #[inline]
    pub fn local_get(&self, x: u32) -> Option<Value>
        requires there { x < length (locals_of self.now.levels) }
        ensures value { slice_get (locals_of self.now.levels) x ≡ Some result }
    {
        self.locals[self.first + x as usize]
    }

    /// Sets a local of the innermost frame, where it has one of this index.
    #[inline]
    pub fn local_set(&mut self, x: u32, value: Value)
        requires there { x < length (locals_of self.old.levels) }
        ensures after { self.new ≡ with_locals x value self.old }
    {
        self.locals[self.first + x as usize] = Some(value);
    }

    /// Adds locals behind those of the innermost frame, so many, each with this value, or not set, where there is a frame, and room: no
    /// memory is taken (Core, execution, function calls: the locals of the declared types).
    #[inline(always)]
    pub fn add_locals(&mut self, count: u32, local: Option<Value>)
        requires frame { 0 < frames_of self.old.levels }
        requires room { locals_all self.old.levels + count ≤ self.old.capacity.locals }
        ensures after { self.new ≡ with_more (replicate count local) self.old }
    {
        push_copies(&mut self.locals, count as usize, local);
    }
}
