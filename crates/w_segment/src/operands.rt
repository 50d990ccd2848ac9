//! The operands inside the innermost label or frame.

use crate::stack::{Stack, below};
use crate::values::{push_values, take_off};
use w_types::Value;

impl Stack {
    ghost use Rattle.std.specs.Prelude.{◌≡◌, ◌+◌, ◌<◌, ◌≤◌, ◌∷◌, length, drop, take, reverse};
    ghost use Rattle.w_segment.specs.Shape.{height};
    ghost use Rattle.w_segment.specs.Changes.{pushed, popped, discarded, pushed_all};

    /// Puts an operand on top, where there is room: no memory is taken.
    #[inline]
    pub fn push(&mut self, value: Value)
        requires room { height self.old < self.old.capacity.operands }
        ensures after { self.new ≡ pushed value self.old }
    {
        self.operands.push_reserved(value);
    }

    /// Takes the topmost operand, where there is one.
    #[inline]
    pub fn pop(&mut self) -> Value
        requires some { 0 < length self.old.operands }
        ensures value { self.old.operands ≡ result ∷ drop 1 self.old.operands }
        ensures after { self.new ≡ popped self.old }
        ensures room { height self.new < self.new.capacity.operands }
    {
        self.operands.take_last()
    }

    /// The topmost operand, where there is one.
    #[inline]
    pub fn peek(&self) -> Value
        requires some { 0 < length self.now.operands }
        ensures value { self.now.operands ≡ result ∷ drop 1 self.now.operands }
    {
        self.operands[self.operands.len() - 1]
    }

    /// How many operands stand inside the innermost label or frame.
    #[inline]
    pub fn count(&self) -> usize
        ensures value { result ≡ length self.now.operands }
    {
        self.operands.len() - below(&self.marks)
    }

    /// The operands inside the innermost label or frame, the topmost last.
    #[inline]
    pub fn operands(&self) -> &[Value]
        ensures value { result.now ≡ reverse self.now.operands }
    {
        &self.operands[below(&self.marks)..]
    }

    /// The topmost operands, so many, the topmost last, where there are so many.
    #[inline]
    pub fn tops(&self, count: usize) -> &[Value]
        requires some { count ≤ length self.now.operands }
        ensures value { result.now ≡ reverse (take count self.now.operands) }
    {
        &self.operands[self.operands.len() - count..]
    }

    /// Takes so many operands off, where there are so many.
    #[inline]
    pub fn discard(&mut self, count: usize)
        requires some { count ≤ length self.old.operands }
        ensures after { self.new ≡ discarded count self.old }
        ensures room { height self.new + count ≤ self.new.capacity.operands }
    {
        take_off(&mut self.operands, count);
    }

    /// Puts operands on top, the first one first, where there is room: no memory is taken.
    pub fn push_all(&mut self, values: &[Value])
        requires room { height self.old + length values.now ≤ self.old.capacity.operands }
        ensures after { self.new ≡ pushed_all values.now self.old }
    {
        push_values(&mut self.operands, values);
    }
}
