//! The calls of the checker of one body.
ghost use Rattle.std.specs.Prelude.{◌≡◌, ◌∷◌, ◌++◌, ◌+◌, max, length, slice_get, ℕ, Bool, List, IfOk, IfSome, OnOk, IsFalse, IsTrue, true, Some, None, is_some, if◌then◌else◌};
ghost use Rattle.w_syntax.specs.declared.instructions.Instr.TheVariants as Flat;
ghost use Rattle.w_syntax.specs.Packed.{OnPlain, unpacked};
ghost use Rattle.std.specs.Option.{option_map};
ghost use Rattle.lists.specs.Rows.{row_of, size};
ghost use Rattle.w_rules.specs.Bodies.{types_of_runs, set_first};
ghost use Rattle.w_rules.specs.InstructionTypes.{sets};
ghost use Rattle.w_rules.specs.Peak.{or_none};
ghost use Rattle.w_rules.specs.Spaces.{in_body};
ghost use Rattle.w_rules.specs.View.{context_in};
ghost use Rattle.w_rows.specs.TypeRows.{IsReady};
ghost use Rattle.w_locals.specs.Locals.{first_set, outer_sets};
ghost use Rattle.w_vplain.specs.Row.{above, added_by, labels_in, move_next, row_next, IsReadyMove};
ghost use Rattle.w_vplain.specs.View.{row_with};
ghost use Rattle.w_vplain.specs.Frames.{op_next, enter_next, other_next, end_next, next};
ghost use Rattle.w_vplain.specs.Prefixes.{Prefix, IsDerivable, empty, follow, follow_plain, follow_enter, is_plain, opens};
ghost use Rattle.w_vplain.specs.Measures.{total, peak_of, depth_of};
ghost use Rattle.w_vplain.specs.Standing.{StandsFor, HasBases, KnowsClasses, Leads, IsCall, Answers, AnswersRow, Refuses, IsSameBody, IsUncounted, IsCounted, StaysOutOfMemory, context_for, classes_for, top_of, outer_of, frames_of, frames_of_derived};

use crate::blocks::{else_frame, end_types, height, inner_frame};
use crate::checker::Checker;
use crate::moves::{InstrRow, Move};
use crate::room::{Room, keep_room, spare_room};
use std::alloc::{AllocError, Global};
use std::mem;
use w_flow::Flow;
use w_locals::Locals;
use w_rows::TypeRow;
use w_steps::{Frame, FrameKind, Setting, label_of, packed_step};
use w_syntax::{Instr, LocalRun, Op, PackedInstr};
use w_types::{PackedType, ValType};

// Whether a boxed instruction has the call `plain`.
fn is_plain_instr(instr: &Instr) -> bool
    ensures { result ≡ is_plain instr.now }
{
    match instr {
        Instr::Plain(op) => !matches!(op, Op::Switching(_)),
        Instr::Block(_, _, _) | Instr::If(_, _, _) | Instr::Else | Instr::End => false,
    }
}

// Whether the instruction has it.
fn is_plain_packed(packed: &PackedInstr) -> bool
    ensures { result ≡ is_plain (unpacked packed.now) }
{
    match packed {
        PackedInstr::Switching(_)
        | PackedInstr::Block(_, _, _)
        | PackedInstr::If(_, _)
        | PackedInstr::IfElse(_, _, _)
        | PackedInstr::Else
        | PackedInstr::End => false,
        PackedInstr::Boxed(instr) => is_plain_instr(instr),
        _ => true,
    }
}

// Whether a boxed instruction opens a block.
fn opens_block(instr: &Instr) -> bool
    ensures { result ≡ opens instr.now }
{
    matches!(instr, Instr::Block(_, _, _) | Instr::If(_, _, _))
}

// Whether the instruction does.
fn opens_packed(packed: &PackedInstr) -> bool
    ensures { result ≡ opens (unpacked packed.now) }
{
    match packed {
        PackedInstr::Block(_, _, _) | PackedInstr::If(_, _) | PackedInstr::IfElse(_, _, _) => true,
        PackedInstr::Boxed(instr) => opens_block(instr),
        _ => false,
    }
}

// How many blocks are open, with the innermost one. It fails where there are 2^32 or more, as when out of memory.
fn open_blocks(outer: &[Frame]) -> Result<u32, AllocError>
    ensures { IfOk result (λ count. count ≡ length outer.now + 1) }
{
    match u32::try_from(outer.len()) {
        Ok(around) => around.checked_add(1).ok_or(AllocError),
        Err(_) => Err(AllocError),
    }
}

// How many operands a row takes.
fn row_size(ins: &[PackedType], top: Option<ValType>) -> usize
    ensures { result ≡ size (row_with (row_of ins.now) top) }
{
    match top {
        Some(_) => ins.len() + 1,
        None => ins.len(),
    }
}

// The operands beneath so many of a place, and on them so many as the longest label of a resume's clauses takes, if it has one. It
// fails where that passes 64 bits, as when out of memory.
fn row_top(here: Option<u64>, popped: usize, raise: Option<u64>) -> Result<u64, AllocError>
    ensures { IfOk result (λ count. count ≡ or_none here (above popped raise)) }
{
    match here {
        Some(here) => match raise {
            Some(longest) => here
                .saturating_sub(popped as u64)
                .checked_add(longest)
                .ok_or(AllocError),
            None => Ok(0),
        },
        None => Ok(0),
    }
}

impl<'a> Checker<'a> {
    /// Stands for the empty sequence of a body with these parameters, further locals and results, and works in this room. It fails only
    /// when out of memory.
    #[tactic(auto, using(crate::proofs::WordsOfFrames::each_none))]
    pub fn begin(
        alloc: Global,
        setting: Setting<'a>,
        room: Room,
        params: &'a [PackedType],
        runs: &'a [LocalRun],
    ) -> Result<Checker<'a>, AllocError>
        ensures context { IfOk result (λ c. context_for c
            ≡ in_body (context_in setting.entry.cx.now) (params.now ++ types_of_runs runs.now)
            setting.entry.results.types.now) }
        ensures classes { IfOk result (λ c. classes_for c ≡ setting.entry.cx.now.classes.now) }
        ensures stands { IfOk result (λ c. KnowsClasses c
            → StandsFor c (set_first params.now runs.now) empty) }
    {
        let locals = Locals::begin(alloc, params, runs)?;
        let mut outer = room.outer;
        outer.clear();
        Ok(Checker {
            alloc,
            setting,
            locals,
            outer,
            top: Frame {
                kind: FrameKind::Body,
                flow: Flow::new(room.operands),
                base: Some(0),
            },
            spare: room.spare,
            peak: 0,
            depth: 1,
            ended: false,
            refused: false,
            out_of_memory: false,
        })
    }

    // An instruction that does not switch stacks, where it holds no others.
    #[inline(always)]
    fn op(&mut self, packed: &PackedInstr) -> Result<bool, AllocError>
        ensures steps { IfOk result (λ applies. OnPlain (λ o. op_next (classes_for self.old)
            (context_for self.old) o (top_of self.old) (outer_of self.old)
            ≡ (if applies then Some (top_of self.new ∷ outer_of self.new) else None))
            (unpacked packed.now)) }
        ensures outer { self.new.outer.items ≡ self.old.outer.items }
        ensures bases { HasBases self.old → HasBases self.new }
        ensures uncounted { IsUncounted self.old self.new }
        ensures ended { self.new.ended ≡ self.old.ended }
    {
        let outer = self.outer.as_slice();
        let top = &mut self.top;
        if !packed_step(
            &self.setting,
            &mut self.locals,
            &top.kind,
            outer,
            &mut top.flow,
            packed,
        )? {
            return Ok(false);
        }
        Ok(true)
    }

    // A block begins.
    #[tactic(auto, using(crate::proofs::WordsOfFrames::each_pushed, crate::proofs::WordsOfFrames::words_moved))]
    fn enter_block(&mut self, kind: FrameKind) -> Result<bool, AllocError>
        ensures steps { IfOk result (λ applies. enter_next (classes_for self.old)
            (context_for self.old) kind (top_of self.old) (outer_of self.old)
            ≡ (if applies then Some (top_of self.new ∷ outer_of self.new) else None)) }
        ensures bases { IfOk result (λ applies. IsTrue applies → HasBases self.old
            → HasBases self.new) }
        ensures uncounted { IsUncounted self.old self.new }
        ensures ended { self.new.ended ≡ self.old.ended }
    {
        let room = spare_room(self.alloc, &mut self.spare);
        let Some(inner) = inner_frame(room, &self.setting, kind, &mut self.top)? else {
            return Ok(false);
        };
        self.locals.enter_block()?;
        let around = mem::replace(&mut self.top, inner);
        self.outer.push(around)?;
        Ok(true)
    }

    // The second branch of an if begins.
    #[tactic(auto, using(crate::proofs::WordsOfFrames::no_words))]
    fn enter_else(&mut self) -> Result<bool, AllocError>
        ensures steps { IfOk result (λ applies. other_next (classes_for self.old)
            (context_for self.old) self.old.top.kind (top_of self.old) (outer_of self.old)
            ≡ (if applies then Some (top_of self.new ∷ outer_of self.new) else None)) }
        ensures bases { IfOk result (λ applies. IsTrue applies → HasBases self.old
            → HasBases self.new) }
        ensures uncounted { IsUncounted self.old self.new }
        ensures ended { self.new.ended ≡ self.old.ended }
    {
        if self.outer.as_slice().is_empty() {
            return Ok(false);
        }
        let room = spare_room(self.alloc, &mut self.spare);
        match else_frame(room, &self.setting, &self.top)? {
            Some(second) => {
                let room = self.top.flow.take_room(self.alloc);
                self.top = second;
                keep_room(&mut self.spare, room)?;
                self.locals.leave_block();
                self.locals.enter_block()?;
                Ok(true)
            }
            None => Ok(false),
        }
    }

    // A block, or the body, ends.
    #[tactic(auto, using(crate::proofs::WordsOfFrames::each_popped, crate::proofs::WordsOfFrames::last_popped, crate::proofs::WordsOfFrames::no_words, crate::proofs::WordsOfFrames::each_none, crate::proofs::WordsOfFrames::each_same))]
    fn end_block(&mut self) -> Result<bool, AllocError>
        requires { IsFalse self.old.ended }
        ensures steps { IfOk result (λ applies. Leads (end_next (classes_for self.old)
            (context_for self.old) (top_of self.old) (outer_of self.old)) applies
            (frames_of self.new)) }
        ensures bases { IfOk result (λ applies. IsTrue applies → HasBases self.old
            → HasBases self.new) }
        ensures uncounted { IsUncounted self.old self.new }
    {
        let alone = self.outer.as_slice().is_empty();
        let setting = self.setting;
        let kind = self.top.kind;
        let Some(to) = end_types(&setting, &kind, &self.top.flow, alone) else {
            return Ok(false);
        };
        match self.outer.pop() {
            None => self.ended = true,
            Some(mut around) => {
                let room = self.top.flow.take_room(self.alloc);
                let spare = around.flow.give(room, setting.cx.classes, to)?;
                self.locals.leave_block();
                self.top = around;
                keep_room(&mut self.spare, spare)?;
            }
        }
        Ok(true)
    }

    // A boxed instruction, where the body has not ended.
    fn boxed(&mut self, packed: &PackedInstr, instr: &Instr) -> Result<bool, AllocError>
        requires ended { IsFalse self.old.ended }
        requires same { unpacked packed.now ≡ instr.now }
        ensures steps { IfOk result (λ applies. Leads (next (classes_for self.old)
            (context_for self.old) instr.now (top_of self.old
            ∷ outer_of self.old)) applies (frames_of self.new)) }
        ensures bases { IfOk result (λ applies. IsTrue applies → HasBases self.old
            → HasBases self.new) }
        ensures uncounted { IsUncounted self.old self.new }
    {
        match instr {
            Instr::Plain(_) => self.op(packed),
            Instr::Block(kind, block, _) => self.enter_block(FrameKind::Block(*kind, *block)),
            Instr::If(block, _, _) => self.enter_block(FrameKind::Then(*block)),
            Instr::Else => self.enter_else(),
            Instr::End => self.end_block(),
        }
    }

    // An instruction, where the body has not ended.
    fn block_instr(&mut self, packed: &PackedInstr) -> Result<bool, AllocError>
        requires { IsFalse self.old.ended }
        ensures steps { IfOk result (λ applies. Leads (next (classes_for self.old)
            (context_for self.old) (unpacked packed.now) (top_of self.old
            ∷ outer_of self.old)) applies (frames_of self.new)) }
        ensures bases { IfOk result (λ applies. IsTrue applies → HasBases self.old
            → HasBases self.new) }
        ensures uncounted { IsUncounted self.old self.new }
    {
        match packed {
            PackedInstr::Block(kind, block, _) => {
                self.enter_block(FrameKind::Block(*kind, block.whole()))
            }
            PackedInstr::If(block, _) => self.enter_block(FrameKind::Then(block.whole())),
            PackedInstr::IfElse(block, _, _) => self.enter_block(FrameKind::Then(block.whole())),
            PackedInstr::Else => self.enter_else(),
            PackedInstr::End => self.end_block(),
            PackedInstr::Boxed(instr) => self.boxed(packed, instr),
            _ => self.op(packed),
        }
    }

    // Operands of these types, the topmost of this one, are taken, and those given.
    fn row(&mut self, ins: TypeRow, top: Option<ValType>, outs: TypeRow) -> Result<bool, AllocError>
        requires ended { IsFalse self.old.ended }
        requires ins { IsReady (classes_for self.old) ins }
        requires outs { IsReady (classes_for self.old) outs }
        ensures steps { IfOk result (λ applies. Leads (row_next (classes_for self.old) (row_with
            (row_of ins.entry.types.now) top) (row_of outs.entry.types.now) (top_of self.old
            ∷ outer_of self.old)) applies (frames_of self.new)) }
        ensures bases { HasBases self.old → HasBases self.new }
        ensures uncounted { IsUncounted self.old self.new }
    {
        let classes = self.setting.cx.classes;
        let flow = &mut self.top.flow;
        match top {
            Some(top) => flow.turns_many_below(classes, ins, PackedType::new(top), outs),
            None => flow.turns_many(classes, ins, outs),
        }
    }

    // How many operands a row adds to those of its place, where that is counted.
    fn added(
        &self,
        ins: &[PackedType],
        top: Option<ValType>,
        raise: Option<u64>,
    ) -> Result<u64, AllocError>
        requires { IsFalse self.now.ended }
        ensures { IfOk result (λ count. HasBases self.now → count
            ≡ or_none (total (frames_of self.now)) (above (size (row_with (row_of ins.now) top)) raise)) }
    {
        row_top(height(&self.top)?, row_size(ins, top), raise)
    }

    // Counts the operands of the place that was reached.
    #[inline(always)]
    fn count_operands(&mut self) -> Result<(), AllocError>
        requires { IsFalse self.old.ended }
        ensures raises { OnOk result (HasBases self.old → self.new.peak
            ≡ max self.old.peak (or_none (total (frames_of self.old)) (λ (h : ℕ). h))) }
        ensures depth { self.new.depth ≡ self.old.depth }
        ensures frames { frames_of self.new ≡ frames_of self.old }
        ensures bases { HasBases self.old → HasBases self.new }
        ensures body { IsSameBody self.old self.new }
    {
        let here = height(&self.top)?;
        self.peak = self.peak.max(here.unwrap_or(0));
        Ok(())
    }

    // Counts the operands and the blocks of the place that was reached.
    fn count(&mut self) -> Result<(), AllocError>
        ensures deepens { OnOk result (self.new.depth
            ≡ max self.old.depth (length (frames_of self.old))) }
        ensures raises { OnOk result (HasBases self.old → self.new.peak
            ≡ max self.old.peak (or_none (total (frames_of self.old)) (λ (h : ℕ). h))) }
        ensures frames { frames_of self.new ≡ frames_of self.old }
        ensures bases { HasBases self.old → HasBases self.new }
        ensures body { IsSameBody self.old self.new }
    {
        if self.ended {
            return Ok(());
        }
        let open = open_blocks(self.outer.as_slice())?;
        self.depth = self.depth.max(open);
        self.count_operands()?;
        Ok(())
    }

    // An instruction where the body has not ended, and the count of the place that it reaches. Those of blocks are rare, and stand out
    // of line.
    #[inline(never)]
    fn advance_block(&mut self, packed: &PackedInstr) -> Result<bool, AllocError>
        requires { IsFalse self.old.ended }
        ensures steps { IfOk result (λ applies. Leads (next (classes_for self.old)
            (context_for self.old) (unpacked packed.now) (frames_of self.old)) applies
            (frames_of self.new)) }
        ensures counted { IfOk result (λ applies. IsTrue applies → IsCounted self.old self.new 0) }
        ensures body { IsSameBody self.old self.new }
    {
        if !self.block_instr(packed)? {
            return Ok(false);
        }
        self.count()?;
        Ok(true)
    }

    // The same of one that holds no others. It opens no block, so that there are none to count.
    #[inline(always)]
    fn advance_op(&mut self, packed: &PackedInstr) -> Result<bool, AllocError>
        requires { IsFalse self.old.ended }
        ensures steps { IfOk result (λ applies. OnPlain (λ o. Leads (op_next (classes_for self.old)
            (context_for self.old) o (top_of self.old) (outer_of self.old)) applies
            (frames_of self.new)) (unpacked packed.now)) }
        ensures counted { IfOk result (λ applies. IsTrue applies → IsCounted self.old self.new 0) }
        ensures body { IsSameBody self.old self.new }
    {
        if !self.op(packed)? {
            return Ok(false);
        }
        self.count_operands()?;
        Ok(true)
    }

    // An instruction, where the body has not ended.
    #[inline(always)]
    fn advance_instr(&mut self, packed: &PackedInstr) -> Result<bool, AllocError>
        requires { IsFalse self.old.ended }
        ensures steps { IfOk result (λ applies. Leads (next (classes_for self.old)
            (context_for self.old) (unpacked packed.now) (frames_of self.old)) applies
            (frames_of self.new)) }
        ensures counted { IfOk result (λ applies. IsTrue applies → IsCounted self.old self.new 0) }
        ensures body { IsSameBody self.old self.new }
    {
        match packed {
            PackedInstr::Block(_, _, _)
            | PackedInstr::If(_, _)
            | PackedInstr::IfElse(_, _, _)
            | PackedInstr::Else
            | PackedInstr::End
            | PackedInstr::Boxed(_) => self.advance_block(packed),
            _ => self.advance_op(packed),
        }
    }

    // The same of a row, which may add to the operands of its place. Rows are rare: out of line, they leave the common path short.
    #[inline(never)]
    fn advance_row(
        &mut self,
        ins: TypeRow,
        top: Option<ValType>,
        outs: TypeRow,
        raise: Option<u64>,
    ) -> Result<bool, AllocError>
        requires ended { IsFalse self.old.ended }
        requires ins { IsReady (classes_for self.old) ins }
        requires outs { IsReady (classes_for self.old) outs }
        ensures steps { IfOk result (λ applies. Leads (row_next (classes_for self.old) (row_with
            (row_of ins.entry.types.now) top) (row_of outs.entry.types.now) (frames_of self.old)) applies
            (frames_of self.new)) }
        ensures counted { IfOk result (λ applies. IsTrue applies → IsCounted self.old self.new (or_none
            (total (frames_of self.old)) (above (size (row_with (row_of ins.entry.types.now) top)) raise))) }
        ensures body { IsSameBody self.old self.new }
    {
        let added = self.added(ins.types, top, raise)?;
        if !self.row(ins, top, outs)? {
            return Ok(false);
        }
        self.peak = self.peak.max(added);
        self.count()?;
        Ok(true)
    }

    // A call where the body has not ended, and the count of the place that it reaches.
    #[inline(always)]
    fn advance(&mut self, step: Move) -> Result<bool, AllocError>
        requires ended { IsFalse self.old.ended }
        requires ready { IsReadyMove (classes_for self.old) step }
        ensures steps { IfOk result (λ applies. Leads (move_next (classes_for self.old)
            (context_for self.old) step.entry (frames_of self.old)) applies (frames_of self.new)) }
        ensures counted { IfOk result (λ applies. IsTrue applies
            → IsCounted self.old self.new (added_by step.entry (frames_of self.old))) }
        ensures body { IsSameBody self.old self.new }
    {
        match step {
            Move::Packed(packed) => self.advance_instr(packed),
            Move::Row(row) => self.advance_row(row.ins, row.top, row.outs, row.raise),
        }
    }

    // A call.
    #[inline(always)]
    fn call(&mut self, step: Move) -> Result<bool, AllocError>
        requires { IsReadyMove (classes_for self.old) step }
        ensures steps { IfOk result (λ applies. IsCall self.old self.new step.entry applies) }
        ensures body { IsSameBody self.old self.new }
        ensures memory { StaysOutOfMemory self.old result self.new }
    {
        if self.out_of_memory {
            return Err(AllocError);
        }
        if self.refused {
            return Ok(false);
        }
        if self.ended {
            self.refused = true;
            return Ok(false);
        }
        match self.advance(step) {
            Ok(applies) => {
                self.refused = !applies;
                Ok(applies)
            }
            Err(AllocError) => {
                self.out_of_memory = true;
                Err(AllocError)
            }
        }
    }

    /// An instruction whose row takes operands of these types, the topmost of this one, and gives those; of a resume also how many the
    /// longest label of its clauses takes. Whether the rules derive the sequence with each instruction that has this row where the
    /// sequence so far is derived. It fails only when out of memory.
    #[inline(never)]
    pub fn apply(
        &mut self,
        ins: TypeRow,
        top: Option<ValType>,
        outs: TypeRow,
        raise: Option<u64>,
    ) -> Result<bool, AllocError>
        requires ins { IsReady (classes_for self.old) ins }
        requires outs { IsReady (classes_for self.old) outs }
        ensures answers { IfOk result (λ applies. AnswersRow self.old self.new (row_with
            (row_of ins.entry.types.now) top) (row_of outs.entry.types.now) raise applies) }
        ensures body { IsSameBody self.old self.new }
        ensures memory { StaysOutOfMemory self.old result self.new }
    {
        let row = InstrRow {
            ins,
            top,
            outs,
            raise,
        };
        self.call(Move::Row(&row))
    }

    /// An instruction that the rules do not derive where it stands: false, and it stands for each sequence that is not derived. It fails
    /// only when out of memory.
    pub fn refuse(&mut self) -> Result<bool, AllocError>
        ensures refuses { IfOk result (λ applies. Refuses self.old self.new applies) }
        ensures body { IsSameBody self.old self.new }
        ensures memory { StaysOutOfMemory self.old result self.new }
    {
        if self.out_of_memory {
            return Err(AllocError);
        }
        self.refused = true;
        Ok(false)
    }

    /// What it types in.
    pub fn setting(&self) -> Setting<'a>
        ensures { result ≡ self.now.setting }
    {
        self.setting
    }

    /// What a branch to a label takes, where the rules derive the sequence so far. Labels are counted from the innermost block.
    pub fn label(&self, index: u32) -> Option<TypeRow<'_>>
        ensures label { (s : List Bool) (w : Prefix) → StandsFor self.now s w
            → IsDerivable (context_for self.now) s w
            → slice_get (labels_in (context_for self.now) w) index
            ≡ option_map (λ v. row_of v.types.now) result }
        ensures ready { IfSome result (IsReady (classes_for self.now)) }
    {
        if self.ended {
            return None;
        }
        label_of(&self.setting, &self.top.kind, self.outer.as_slice(), index)
    }

    /// An instruction that opens or ends no block and does not switch stacks; one of another class begins no body there. Whether the
    /// rules derive the sequence with it. It fails only when out of memory.
    #[inline(always)]
    pub fn plain(&mut self, packed: &PackedInstr) -> Result<bool, AllocError>
        ensures answers { IfOk result (λ applies. Answers self.old self.new (follow_plain
            (unpacked packed.now)) applies) }
        ensures body { IsSameBody self.old self.new }
        ensures memory { StaysOutOfMemory self.old result self.new }
    {
        if !is_plain_packed(packed) {
            return self.refuse();
        }
        self.call(Move::Packed(packed))
    }

    /// A block, a loop or an if; an instruction of another class begins no body there. Whether the rules derive the sequence with it.
    /// It fails only when out of memory.
    #[inline(never)]
    pub fn enter(&mut self, packed: &PackedInstr) -> Result<bool, AllocError>
        ensures answers { IfOk result (λ applies. Answers self.old self.new (follow_enter
            (unpacked packed.now)) applies) }
        ensures body { IsSameBody self.old self.new }
        ensures memory { StaysOutOfMemory self.old result self.new }
    {
        if !opens_packed(packed) {
            return self.refuse();
        }
        self.call(Move::Packed(packed))
    }

    /// The else of an if. Whether the rules derive the sequence with it. It fails only when out of memory.
    #[inline(never)]
    pub fn other(&mut self) -> Result<bool, AllocError>
        ensures answers { IfOk result (λ applies. Answers self.old self.new
            (follow Flat.Else) applies) }
        ensures body { IsSameBody self.old self.new }
        ensures memory { StaysOutOfMemory self.old result self.new }
    {
        self.call(Move::Packed(&PackedInstr::Else))
    }

    /// The end of a block, or of the body. Whether the rules derive the sequence with it. It fails only when out of memory.
    #[inline(never)]
    pub fn end(&mut self) -> Result<bool, AllocError>
        ensures answers { IfOk result (λ applies. Answers self.old self.new (follow Flat.End) applies) }
        ensures body { IsSameBody self.old self.new }
        ensures memory { StaysOutOfMemory self.old result self.new }
    {
        self.call(Move::Packed(&PackedInstr::End))
    }

    /// The room that it worked in, for the next body.
    pub fn into_room(self) -> Room {
        Room {
            operands: self.top.flow.into_room(),
            spare: self.spare,
            outer: self.outer,
        }
    }

    /// The greatest number of operands at a counted place so far, as long as the answers were true.
    pub fn height(&self) -> u64
        ensures { (s : List Bool) (w : Prefix) → StandsFor self.now s w
            → IsDerivable (context_for self.now) s w → result ≡ peak_of (context_for self.now) s w }
    {
        self.peak
    }

    /// One plus the greatest number of blocks around a place so far, as long as the answers were true.
    pub fn depth(&self) -> u32
        ensures { (s : List Bool) (w : Prefix) → StandsFor self.now s w
            → IsDerivable (context_for self.now) s w → result ≡ depth_of w }
    {
        self.depth
    }
}
