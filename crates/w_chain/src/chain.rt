//! The chain of running segments.

use crate::clauses::{clauses_of, has_switch, label_of};
use std::marker::Model;
use w_segment::{Segment, Stack};
use w_syntax::Module;

/// The running segments (stack-switching explainer, continuations), the innermost first: each has the one that waits for it boxed
/// inside. Between two stands a handle, a layer, whose clauses are those at which the outer one waits; layers are counted from the
/// innermost one, 0. Contracts see the list of links.
#[derive(Drop)]
pub struct Chain {
    top: Option<Box<Segment>>,
    // how many segments there are, and how many frames those around the innermost one have
    segments: usize,
    below: u64,
}

impl Model for Chain {
    ghost use Rattle.std.specs.Prelude.{List};
    ghost use Rattle.w_segment.specs.Link.{Link};
    ghost use Rattle.w_segment.specs.Parents.{parents};
    ghost use Rattle.w_chain.specs.Counts.{IsCounted};

    ghost Value = { List Link };

    ghost view = { λ a. parents a.top };

    ghost invariant = { λ a. IsCounted a.segments a.below (parents a.top) };
}

ghost use Rattle.std.specs.Prelude.{◌≡◌, ◌<◌, ◌^◌};
ghost use Rattle.w_segment.specs.Parents.{parents};
ghost use Rattle.w_chain.specs.Counts.{frames_in_top};

// How many frames the innermost segment has, none where there is no segment.
#[inline]
fn frames_in(top: &Option<Box<Segment>>) -> u64
    ensures count { result ≡ frames_in_top (parents top.now) }
    ensures few { result < 2 ^ 32 }
{
    match top {
        Some(segment) => segment.stack().frames() as u64,
        None => 0,
    }
}

impl Chain {
    ghost use Rattle.std.specs.Prelude.{◌≡◌, ◌+◌, ◌-◌, ◌<◌, ◌≤◌, ◌^◌, ◌↔◌, ◌++◌, [], ◌∷◌, None, All, IsTrue, IfNone, IfSome, false, length, take, drop};
    ghost use Rattle.w_segment.specs.Link.{top, rest, with_clauses};
    ghost use Rattle.w_chain.specs.Counts.{frames_in_all};
    ghost use Rattle.w_chain.specs.LendingTop.{LendsTop};
    ghost use Rattle.w_chain.specs.Layers.{label_for, switches_for, first_label, first_switch, IsFirstLabel, IsFirstSwitch};
    ghost use Rattle.std.specs.Borrow.{sem};

    /// No segment.
    pub fn new() -> Chain
        ensures empty { result ≡ [] }
    {
        Chain {
            top: None,
            segments: 0,
            below: 0,
        }
    }

    /// Whether there is no segment.
    #[inline]
    pub fn is_empty(&self) -> bool
        ensures answer { IsTrue result ↔ (self.now ≡ []) }
    {
        self.segments == 0
    }

    /// How many handles there are: one between each two segments.
    #[inline]
    pub fn handles(&self) -> u64
        ensures count { result ≡ length self.now - 1 }
    {
        (self.segments as u64).saturating_sub(1)
    }

    /// How many frames there are in all segments.
    #[inline]
    pub fn frames(&self) -> u64
        ensures count { result ≡ frames_in_all self.now }
    {
        self.below + frames_in(&self.top)
    }

    /// Puts one segment inside.
    pub fn push(&mut self, segment: Box<Segment>)
        requires one { length segment.value ≡ 1 }
        requires few { length self.old < 2 ^ 31 }
        ensures after { self.new ≡ top segment.value ∷ self.old }
    {
        let mut segment = segment;
        self.below += frames_in(&self.top);
        let before = self.top.take();
        let _none = segment.set_parent(before);
        self.top = Some(segment);
        self.segments += 1;
    }

    /// Takes the innermost segment off.
    pub fn pop(&mut self) -> Box<Segment>
        requires some { 0 < length self.old }
        ensures segment { result.value ≡ top self.old ∷ [] }
        ensures after { self.new ≡ rest self.old }
    {
        match self.top.take() {
            Some(mut segment) => {
                self.top = segment.set_parent(None);
                self.below -= frames_in(&self.top);
                self.segments -= 1;
                segment
            }
            None => unreachable!(),
        }
    }

    /// The innermost segment's stack.
    #[inline]
    pub fn stack(&self) -> &Stack
        requires some { 0 < length self.now }
        ensures value { result.now ≡ (top self.now).shape }
    {
        match &self.top {
            Some(segment) => segment.stack(),
            None => unreachable!(),
        }
    }

    /// The innermost segment's stack, to be changed.
    #[inline]
    pub fn stack_mut(&mut self) -> &mut Stack
        requires some { 0 < length self.old }
        ensures* lends { sem 𝓛 (LendsTop self.entry result) }
        ensures value { result.now ≡ (top self.old).shape }
    {
        match &mut self.top {
            Some(segment) => segment.stack_mut(),
            None => unreachable!(),
        }
    }

    /// Sets the place of the clause list at which the innermost segment waits.
    pub fn wait_at(&mut self, clauses: u32)
        ensures after { self.new ≡ with_clauses clauses self.old }
    {
        if let Some(segment) = &mut self.top {
            segment.handled_at(clauses);
        }
    }

    /// The innermost layer that has a label clause for a tag, and the label of its first such clause; `None` exactly where no layer has
    /// one. It looks at each layer up to there.
    pub fn find_suspend(&self, program: &Module, tag: u32) -> Option<(usize, u32)>
        ensures value { result ≡ first_label program.now tag self.now }
        ensures found { IfSome result (λ r. IsFirstLabel program.now tag r.0 r.1 self.now) }
        ensures none { IfNone result (All (λ y. label_for program.now tag y ≡ None) (rest self.now)) }
    {
        let mut layer = 0;
        let mut inside: &Segment = match &self.top {
            Some(segment) => segment,
            None => return None,
        };
        while let Some(waiting) = inside.parent() {
            if let Some(label) = label_of(clauses_of(program, waiting), tag) {
                return Some((layer, label));
            }
            inside = waiting;
            layer += 1;
        }
        None
    }

    /// The innermost layer that has a switch clause for a tag; `None` exactly where no layer has one. It looks at each layer up to there.
    pub fn find_switch(&self, program: &Module, tag: u32) -> Option<usize>
        ensures value { result ≡ first_switch program.now tag self.now }
        ensures found { IfSome result (λ n. IsFirstSwitch program.now tag n self.now) }
        ensures none { IfNone result (All (λ y. switches_for program.now tag y ≡ false) (rest self.now)) }
    {
        let mut layer = 0;
        let mut inside: &Segment = match &self.top {
            Some(segment) => segment,
            None => return None,
        };
        while let Some(waiting) = inside.parent() {
            if has_switch(clauses_of(program, waiting), tag) {
                return Some(layer);
            }
            inside = waiting;
            layer += 1;
        }
        None
    }

    /// Takes off the segments up to and with this layer's.
    pub fn cut(&mut self, layer: usize) -> Box<Segment>
        requires layer { layer < length self.old }
        ensures segment { result.value ≡ take (layer + 1) self.old }
        ensures after { self.new ≡ drop (layer + 1) self.old }
    {
        // mostly it is one
        if layer == 0 {
            return self.pop();
        }
        // a chain has few segments
        let _ = &self.segments;
        let mut outward = Chain::new();
        for _ in 0..layer + 1 {
            outward.push(self.pop());
        }
        let mut part = Chain::new();
        for _ in 0..layer + 1 {
            part.push(outward.pop());
        }
        part.into_segment()
    }

    // The innermost segment, with those around it.
    fn into_segment(self) -> Box<Segment>
        requires some { 0 < length self }
        ensures all { result.value ≡ self }
    {
        match self.top {
            Some(segment) => segment,
            None => unreachable!(),
        }
    }

    /// Puts segments inside.
    pub fn join(&mut self, segment: Box<Segment>)
        requires few { length self.old + length segment.value ≤ 2 ^ 31 }
        ensures after { self.new ≡ segment.value ++ self.old }
    {
        // mostly it is one
        if segment.parent().is_none() {
            self.push(segment);
            return;
        }
        let mut outward = Chain::new();
        let mut left = Some(segment);
        while let Some(mut inner) = left {
            left = inner.set_parent(None);
            outward.push(inner);
        }
        for _ in 0..outward.segments {
            self.push(outward.pop());
        }
    }
}
