//! Segments: each has the one that waits for it boxed inside.

use crate::stack::Stack;
use std::alloc::{AllocError, Global};
use std::marker::Model;
use std::mem;

/// A segment of a running machine: a stack, the place of the clause list of the handle around the part of the chain that it waits for,
/// and the segment that waits for it, its parent (stack-switching explainer, continuations). Contracts see the list of all these, the
/// innermost first: its own link and then its parents'.
#[derive(Drop)]
pub struct Segment {
    stack: Stack,
    clauses: u32,
    parent: Option<Box<Segment>>,
}

impl Model for Segment {
    ghost use Rattle.std.specs.Prelude.{List, ◌∷◌, length};
    ghost use Rattle.w_segment.specs.Link.{Link};

    ghost Value = { List Link };

    ghost use Rattle.w_segment.specs.Parents.{parents};

    ghost view = { λ a. record { shape = a.stack; clauses = a.clauses } ∷ parents a.parent };

    ghost size = { length };

    ghost use Rattle.w_segment.specs.Falls.{falls};

    ghost size_decreases = { λ a h. falls a };
}

impl Segment {
    ghost use Rattle.std.specs.Prelude.{◌≡◌, ◌<◌, ◌∷◌, ◌↔◌, IsTrue, length, IfOk, option_copied};
    ghost use Rattle.w_segment.specs.Link.{Link, IsNew, top, rest, parent_of, with_clauses};
    ghost use Rattle.w_segment.specs.Parents.{parents};
    ghost use Rattle.w_segment.specs.Lending.{LendsStack};
    ghost use Rattle.std.specs.Borrow.{sem};
    ghost use Rattle.w_segment.specs.declared.entry.Stage.TheVariants.{Fresh};

    /// One segment that invokes a function next, by its address, with room for its parameters. It fails only when out of memory.
    pub fn fresh(alloc: Global, func: u32, params: u32) -> Result<Box<Segment>, AllocError>
        ensures ok { IfOk result (λ s. IsNew func params s.value) }
    {
        let mut stack = Stack::fresh(alloc, func);
        stack.reserve(params as usize, 0, 0)?;
        let segment = Box::new(
            alloc,
            Segment {
                stack,
                clauses: 0,
                parent: None,
            },
        )?;
        Ok(segment)
    }

    /// Its own stack.
    #[inline]
    pub fn stack(&self) -> &Stack
        ensures value { result.now ≡ (top self.now).shape }
    {
        &self.stack
    }

    /// Its own stack, to be changed.
    #[inline]
    pub fn stack_mut(&mut self) -> &mut Stack
        ensures* lends { sem 𝓛 (LendsStack self.entry result) }
        ensures value { result.now ≡ (top self.old).shape }
    {
        &mut self.stack
    }

    /// Whether its function is invoked next, and nothing of it has run.
    #[inline]
    pub fn is_fresh(&self) -> bool
        ensures answer { IsTrue result ↔ ((top self.now).shape.stage ≡ Fresh) }
    {
        self.stack.is_fresh()
    }

    /// The place of the clause list at which it waits.
    #[inline]
    pub fn clauses(&self) -> u32
        ensures some { 0 < length self.now }
        ensures place { result ≡ (top self.now).clauses }
    {
        self.clauses
    }

    /// Sets the place of the clause list at which it waits.
    #[inline]
    pub fn handled_at(&mut self, clauses: u32)
        ensures after { self.new ≡ with_clauses clauses self.old }
    {
        self.clauses = clauses;
    }

    /// The segment that waits for it.
    #[inline]
    pub fn parent(&self) -> Option<&Segment>
        ensures some { 0 < length self.now }
        ensures outer { option_copied result ≡ parent_of self.now }
    {
        match &self.parent {
            Some(parent) => {
                let parent: &Segment = parent;
                let _ = &parent.clauses;
                Some(parent)
            }
            None => None,
        }
    }

    /// Sets the segment that waits for it, and answers the one before; all else stays.
    #[inline]
    pub fn set_parent(&mut self, parent: Option<Box<Segment>>) -> Option<Box<Segment>>
        ensures some { 0 < length self.old }
        ensures before { parents result ≡ rest self.old }
        ensures after { self.new ≡ top self.old ∷ parents parent }
    {
        mem::replace(&mut self.parent, parent)
    }
}
