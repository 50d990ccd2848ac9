//! One segment's stack: what it keeps, what it takes memory for, and where it stands.

use crate::entry::Stage;
use std::alloc::{AllocError, Global};
use std::marker::Model;
use w_types::Value;

/// Where a level begins: a label or a frame.
#[derive(Clone, Copy)]
pub(crate) enum Mark {
    /// How many operands a branch keeps, where that leads, and how many operands stand below.
    Label {
        arity: u32,
        target: u32,
        below: usize,
    },
    /// How many results the frame gives, which function called and at which place that goes on, how many operands stand below, where
    /// the caller's locals begin, and how many marks there are up to and with the caller's frame.
    Frame {
        arity: u32,
        caller: u32,
        back: u32,
        below: usize,
        first: usize,
        outer: usize,
    },
}

ghost use Rattle.std.specs.Prelude.{◌≡◌, reverse};
ghost use Rattle.w_segment.specs.Flat.{base};

/// How many operands stand below those inside the innermost of these levels, which is the last one.
#[inline]
pub(crate) fn below(marks: &[Mark]) -> usize
    ensures value { result ≡ base (reverse marks.now) }
{
    match marks.last() {
        None => 0,
        Some(Mark::Label { below, .. }) => *below,
        Some(Mark::Frame { below, .. }) => *below,
    }
}

// So many labels and frames at most stand in a stack, so that frames are counted by 32 bits.
const MOST_LEVELS: usize = 0xffff_ffff;

/// The stack of one segment (Core, execution, runtime structure: stack): operands, labels and frames, and locals, in three flat lists,
/// the innermost last. Contracts see a `Shape`: the levels, each with the operands below it, and the operands inside.
#[derive(Drop)]
pub struct Stack {
    pub(crate) operands: Vec<Value>,
    pub(crate) marks: Vec<Mark>,
    // a local that was never set holds nothing
    pub(crate) locals: Vec<Option<Value>>,
    // where the locals of the innermost frame begin
    pub(crate) first: usize,
    // how many marks there are up to and with the innermost frame's, 0 where there is none
    pub(crate) inner: usize,
    // how many frames there are
    pub(crate) frames: u32,
    pub(crate) func: u32,
    pub(crate) place: u32,
    pub(crate) stage: Stage,
}

impl Model for Stack {
    ghost use Rattle.std.specs.Prelude.{reverse, length, min, ◌≡◌, vec_capacity};
    ghost use Rattle.w_segment.specs.Shape.{Shape};

    ghost Value = { Shape };

    ghost use Rattle.w_segment.specs.Flat.{own, levels_of, Ordered, frames_in, inner_in, Nested};
    ghost use Rattle.w_segment.specs.declared.stack.TheConstants.{MOST_LEVELS};

    ghost view = { λ a. record {
      levels = levels_of (reverse a.marks.items) a.operands.items a.locals.items a.first;
      operands = own (reverse a.marks.items) a.operands.items;
      func = a.func;
      place = a.place;
      stage = a.stage;
      capacity = record { operands = vec_capacity a.operands; levels = min (vec_capacity a.marks) MOST_LEVELS; locals = vec_capacity a.locals };
    } };

    ghost invariant = { λ a. Ordered (reverse a.marks.items) (length a.operands.items) (length a.locals.items) a.first × (a.frames ≡ frames_in (reverse a.marks.items)) × (a.inner ≡ inner_in (reverse a.marks.items)) × Nested (reverse a.marks.items) };
}

impl Stack {
    ghost use Rattle.std.specs.Prelude.{◌≡◌, ◌+◌, ◌<◌, ◌≤◌, ◌↔◌, IsTrue, IsOk, OnOk, length};
    ghost use Rattle.w_segment.specs.Shape.{fresh_shape, no_capacity, height, Grown, Fits, SameParts, is_none, frames_of, labels_of};
    ghost use Rattle.w_segment.specs.Changes.{moved, staged};
    ghost use Rattle.w_segment.specs.declared.entry.Stage.TheVariants.{Fresh};

    /// The stack of a segment that invokes a function next, by its address. It has room for nothing.
    #[inline]
    pub fn fresh(alloc: Global, func: u32) -> Stack
        ensures is { result ≡ fresh_shape func no_capacity }
    {
        Stack {
            operands: Vec::new(alloc),
            marks: Vec::new(alloc),
            locals: Vec::new(alloc),
            first: 0,
            inner: 0,
            frames: 0,
            func,
            place: 0,
            stage: Stage::Fresh,
        }
    }

    // Whether there is room for so many labels or frames, and so many locals, more.
    #[inline(always)]
    fn has_levels(&self, levels: usize, locals: usize) -> bool
        ensures answer { IsTrue result ↔ Fits 0 levels locals self.now }
    {
        self.marks.len().saturating_add(levels) <= self.marks.capacity().min(MOST_LEVELS)
            && self.locals.capacity() - self.locals.len() >= locals
    }

    /// Whether there is room for so many operands, labels or frames, and locals, more.
    #[inline(always)]
    pub fn fits(&self, operands: usize, levels: usize, locals: usize) -> bool
        ensures answer { IsTrue result ↔ Fits operands levels locals self.now }
    {
        self.operands.capacity() - self.operands.len() >= operands
            && self.has_levels(levels, locals)
    }

    /// Takes room for so many more operands, levels and locals. It fails only when out of memory, or where there would be 2^32 levels, and
    /// not where there is that room; also then nothing else changes.
    #[inline(never)]
    pub fn reserve(
        &mut self,
        operands: usize,
        levels: usize,
        locals: usize,
    ) -> Result<(), AllocError>
        ensures same { SameParts self.old self.new }
        ensures grown { Grown self.old.capacity self.new.capacity }
        ensures ok { OnOk result (Fits operands levels locals self.new) }
        ensures succeeds { Fits operands levels locals self.old → IsOk result }
    {
        if self.marks.len().saturating_add(levels) > MOST_LEVELS {
            return Err(AllocError);
        }
        self.operands.reserve(operands)?;
        self.marks.reserve(levels)?;
        self.locals.reserve(locals)?;
        Ok(())
    }

    /// How many frames there are.
    #[inline]
    pub fn frames(&self) -> u32
        ensures count { result ≡ frames_of self.now.levels }
    {
        self.frames
    }

    /// How many labels there are, in all frames.
    #[inline]
    pub fn labels(&self) -> u64
        ensures count { result ≡ labels_of self.now.levels }
    {
        self.marks.len() as u64 - self.frames as u64
    }

    /// Whether no label and no frame is left.
    #[inline]
    pub fn is_outside(&self) -> bool
        ensures answer { result ≡ is_none self.now.levels }
    {
        self.marks.is_empty()
    }

    /// The function of the innermost frame, by the number that it was entered with; of a fresh segment the address of the function that
    /// is invoked next.
    #[inline]
    pub fn func(&self) -> u32
        ensures value { result ≡ self.now.func }
    {
        self.func
    }

    /// The place in that function's instructions where it goes on.
    #[inline]
    pub fn place(&self) -> u32
        ensures value { result ≡ self.now.place }
    {
        self.place
    }

    /// Goes to a place.
    #[inline]
    pub fn go(&mut self, place: u32)
        ensures after { self.new ≡ moved place self.old }
    {
        self.place = place;
    }

    /// Where the segment stands.
    #[inline]
    pub fn stage(&self) -> Stage
        ensures value { result ≡ self.now.stage }
    {
        self.stage
    }

    /// Sets where the segment stands.
    #[inline]
    pub fn set_stage(&mut self, stage: Stage)
        ensures after { self.new ≡ staged stage self.old }
    {
        self.stage = stage;
    }

    /// Whether a function is invoked next, and nothing of it has run.
    #[inline]
    pub fn is_fresh(&self) -> bool
        ensures answer { IsTrue result ↔ (self.now.stage ≡ Fresh) }
    {
        matches!(self.stage, Stage::Fresh)
    }
}
