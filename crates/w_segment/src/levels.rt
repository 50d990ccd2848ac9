//! Labels and frames: entering and leaving them, branches and returns.

use crate::entry::{Entry, Stage};
use crate::stack::{Mark, Stack};
use crate::values::{keep_top, push_arguments, push_copies};

impl Stack {
    ghost use Rattle.std.specs.Prelude.{◌≡◌, ◌+◌, ◌<◌, ◌≤◌, Some, length};
    ghost use Rattle.w_segment.specs.Shape.{locals_all, label_at, frame_at, is_in_label, target_of, Target, ReturnTarget, IsAt, HasFrame, IsIn};
    ghost use Rattle.w_segment.specs.Changes.{labelled, framed, left, branched, returned};
    ghost use Rattle.w_segment.specs.Entered.{params_of, LocalsFit, entered};

    // Enters a label, inside which the topmost `params` operands then stand.
    #[inline(always)]
    fn enter_label(&mut self, params: u32, arity: u32, target: u32)
        requires params { params ≤ length self.old.operands }
        requires levels { length self.old.levels < self.old.capacity.levels }
        ensures after { self.new ≡ labelled params arity target self.old }
    {
        let below = self.operands.len() - params as usize;
        self.marks.push_reserved(Mark::Label {
            arity,
            target,
            below,
        });
    }

    // Enters a function's frame, whose first locals are the topmost `params` operands; its other locals are not set.
    #[inline(always)]
    fn enter_frame(&mut self, func: u32, params: u32, locals: u32, arity: u32)
        requires params { params ≤ length self.old.operands }
        requires levels { length self.old.levels < self.old.capacity.levels }
        requires among { params ≤ locals }
        requires locals { locals_all self.old.levels + locals ≤ self.old.capacity.locals }
        ensures after { self.new ≡ framed func params locals arity self.old }
    {
        let below = self.operands.len() - params as usize;
        let first = self.locals.len();
        push_arguments(&mut self.locals, &self.operands[below..]);
        push_copies(&mut self.locals, (locals - params) as usize, None);
        self.operands.truncate(below);
        self.marks.push_reserved(Mark::Frame {
            arity,
            caller: self.func,
            back: self.place,
            below,
            first: self.first,
            outer: self.inner,
        });
        self.frames += 1;
        self.first = first;
        self.inner = self.marks.len();
        self.func = func;
        self.place = 0;
        self.stage = Stage::Body;
    }

    /// Enters a label or a frame, where there is room (`reserve_frame`) and its `params` operands are there: no memory is taken. They
    /// then stand inside the label, or become, in their order, the frame's first locals, which are `params` or more; those after them
    /// are not set (Core, execution: entering a block, function invocation).
    #[inline(always)]
    pub fn enter(&mut self, entry: Entry)
        requires params { params_of entry ≤ length self.old.operands }
        requires levels { length self.old.levels < self.old.capacity.levels }
        requires locals { LocalsFit entry self.old }
        ensures after { self.new ≡ entered entry self.old }
    {
        match entry {
            Entry::Label {
                params,
                arity,
                target,
            } => self.enter_label(params, arity, target),
            Entry::Frame {
                func,
                params,
                locals,
                arity,
            } => self.enter_frame(func, params, locals, arity),
        }
    }

    /// Leaves the innermost label, or the frame where it has none: its operands stand on those below it, and where it was a frame the
    /// place is where its caller goes on (Core, execution: exiting a block, returning from a function). Says whether it was a label.
    #[inline(always)]
    pub fn leave(&mut self) -> bool
        requires some { 0 < length self.old.levels }
        ensures label { result ≡ is_in_label self.old.levels }
        ensures after { self.new ≡ left self.old }
    {
        match self.marks.take_last() {
            Mark::Label { .. } => true,
            Mark::Frame {
                caller,
                back,
                first,
                outer,
                ..
            } => {
                self.frames -= 1;
                self.locals.truncate(self.first);
                self.first = first;
                self.inner = outer;
                self.func = caller;
                self.place = back;
                false
            }
        }
    }

    /// Branches to the label so many levels out, where the innermost frame has one and its arity of operands is there: the topmost
    /// `arity` operands stand on those below it, the levels inside it are gone and so is it, and the place is its target (Core,
    /// execution: br).
    #[inline(always)]
    pub fn branch(&mut self, label: u32)
        requires there { IsAt label self.old }
        ensures after { (t : Target) → label_at label self.old.levels ≡ Some t → self.new ≡ branched t self.old }
    {
        let at = self.marks.len() - 1 - label as usize;
        match self.marks[at] {
            Mark::Label {
                arity,
                target,
                below,
            } => {
                keep_top(&mut self.operands, below, arity as usize);
                self.marks.truncate(at);
                self.place = target;
            }
            Mark::Frame { .. } => unreachable!(),
        }
    }

    /// Where a branch to the innermost level leads, where that is a label, and else 0.
    #[inline]
    pub fn target(&self) -> u32
        ensures value { result ≡ target_of self.now.levels }
    {
        match self.marks.last() {
            Some(Mark::Label { target, .. }) => *target,
            Some(Mark::Frame { .. }) | None => 0,
        }
    }

    // How many results the innermost frame gives.
    #[inline(always)]
    fn results(&self) -> u32
        requires there { IsIn self.now }
        ensures results { (c : ReturnTarget) → frame_at self.now.levels ≡ Some c → result ≡ c.arity }
    {
        let frame = self.inner - 1;
        match self.marks[frame] {
            Mark::Frame { arity, .. } => arity,
            Mark::Label { .. } => unreachable!(),
        }
    }

    /// Leaves the innermost frame, whatever labels stand in it, where there is one and so many operands are there: the topmost `kept`
    /// operands stand on those below it, and the place is where its caller goes on (Core, execution: return, tail calls).
    #[inline(always)]
    pub fn leave_frame(&mut self, kept: u32)
        requires there { HasFrame kept self.old }
        ensures after { (c : ReturnTarget) → frame_at self.old.levels ≡ Some c → self.new ≡ returned kept c self.old }
    {
        let frame = self.inner - 1;
        match self.marks[frame] {
            Mark::Frame {
                caller,
                back,
                below,
                first,
                outer,
                ..
            } => {
                keep_top(&mut self.operands, below, kept as usize);
                self.marks.truncate(frame);
                self.locals.truncate(self.first);
                self.frames -= 1;
                self.first = first;
                self.inner = outer;
                self.func = caller;
                self.place = back;
            }
            Mark::Label { .. } => unreachable!(),
        }
    }

    /// Leaves the innermost frame, where there is one and its arity of operands is there: these stand on those below it (Core,
    /// execution: return).
    #[inline(always)]
    pub fn returns(&mut self)
        requires there { IsIn self.old }
        ensures after { (c : ReturnTarget) → frame_at self.old.levels ≡ Some c → self.new ≡ returned c.arity c self.old }
    {
        let results = self.results();
        self.leave_frame(results);
    }
}
