//! The operands of a block: of the standard's validation algorithm, the part of `vals` above the `val_height` of a `ctrl_frame`, and its
//! `unreachable`. To enter is `pop_vals` and then `push_vals` in a new part, to give is `push_vals`, and `leave` is `unreachable()`.

use crate::operand_list::OperandList;
use crate::operands::{give_behind, give_types, left};
use std::alloc::{AllocError, Global};
use std::mem;
use w_canon::Classes;
use w_rows::{TypeRow, WIDE};

/// The operands that stand at a place of a block, the topmost last, and whether more of any type may lie beneath them, since the
/// place cannot be reached (Core, validation algorithm). Contracts see it as what `flow_view` gives. Where a method gives back
/// false, or fails when out of memory, the operands are no longer known.
#[derive(Drop)]
pub struct Flow {
    pub(crate) any: bool,
    pub(crate) operands: OperandList,
}

impl Flow {
    ghost use Rattle.std.specs.Prelude.{◌≡◌, [], if◌then◌else◌, is_some, List, IfOk, IfSome, Some, None};
    ghost use Rattle.lists.specs.Rows.{ε, ◌⧺◌, row_of, size};
    ghost use Rattle.w_canon.specs.declared.entry.Entry.{Entry};
    ghost use Rattle.w_rules.specs.Matching.{known};
    ghost use Rattle.w_rows.specs.Operands.{row_in};
    ghost use Rattle.w_rows.specs.TypeRows.{IsReady};
    ghost use Rattle.w_flow.specs.Flow.{pops, is_popped, ends};
    ghost use Rattle.w_flow.specs.View.{flow_view, reached, HasWords};

    /// No operands, at a place that can be reached. They will stand in this room, whatever it had.
    pub fn new(mut room: OperandList) -> Flow
        ensures none { flow_view result ≡ reached ε }
        ensures words { (es : List Entry) → HasWords es result }
    {
        room.truncate(0);
        Flow {
            any: false,
            operands: room,
        }
    }

    /// Operands of these types, at a place that can be reached, in this room. It fails only when out of memory.
    pub fn of_types(
        mut room: OperandList,
        classes: &Classes,
        types: TypeRow,
    ) -> Result<Flow, AllocError>
        requires { IsReady classes.now types }
        ensures types { IfOk result (λ f. flow_view f ≡ reached (known (row_of types.entry.types.now))) }
        ensures words { IfOk result (HasWords classes.now) }
    {
        room.truncate(0);
        give_behind(classes, &mut room, 0, types)?;
        Ok(Flow {
            any: false,
            operands: room,
        })
    }

    /// The room of its operands, which are forgotten.
    pub fn into_room(self) -> OperandList {
        self.operands
    }

    /// Takes the room of its operands, which are forgotten.
    pub fn take_room(&mut self, alloc: Global) -> OperandList
        ensures none { self.new.operands ≡ [] }
        ensures any { self.new.any ≡ self.old.any }
    {
        mem::replace(&mut self.operands, OperandList::new(alloc))
    }

    /// How many operands there are.
    #[tactic(auto, using(w_rows::proofs::WordedOperands::row_in_length))]
    pub fn len(&self) -> usize
        ensures { result ≡ size (row_in self.now.operands) }
    {
        self.operands.len()
    }

    /// Whether more operands of any type may lie beneath.
    pub fn is_any(&self) -> bool
        ensures { result ≡ self.now.any }
    {
        self.any
    }

    /// Whether operands of these types can be taken. It compares no more types than there are operands.
    pub fn can_take(&self, classes: &Classes, ins: TypeRow) -> bool
        requires words { HasWords classes.now self.now }
        requires ready { IsReady classes.now ins }
        ensures { result ≡ is_popped (pops classes.now self.now.any
            (row_in self.now.operands) (row_of ins.entry.types.now)) }
    {
        left(classes, self.any, self.operands.as_slice(), ins).is_some()
    }

    /// Whether the operands are just of these types, as at the end of a block.
    pub fn ends_with(&self, classes: &Classes, outs: TypeRow) -> bool
        requires words { HasWords classes.now self.now }
        requires ready { IsReady classes.now outs }
        ensures { result ≡ ends classes.now self.now.any (row_in self.now.operands)
            (row_of outs.entry.types.now) }
    {
        if outs.types.is_empty() {
            return self.operands.len() == 0;
        }
        match left(classes, self.any, self.operands.as_slice(), outs) {
            Some(count) => count == 0,
            None => false,
        }
    }

    /// Takes operands of these types where a block begins, and gives those that stand at its beginning; `None` where they cannot be
    /// taken. Those of the block stand in this room; where they are many, and all that there were, they stay where they are, and the others
    /// get the room. It fails only when out of memory.
    #[tactic(auto, using(w_rows::proofs::WordedOperands::worded_taken, w_rows::proofs::WordedOperands::worded_none))]
    pub fn enter(
        &mut self,
        mut room: OperandList,
        classes: &Classes,
        ins: TypeRow,
    ) -> Result<Option<Flow>, AllocError>
        requires words { HasWords classes.now self.old }
        requires ready { IsReady classes.now ins }
        ensures left { IfOk result (λ inner. pops classes.now self.old.any
            (row_in self.old.operands) (row_of ins.entry.types.now)
            ≡ (if is_some inner then Some (row_in self.new.operands) else None)) }
        ensures inner { IfOk result (λ inner. IfSome inner (λ f. flow_view f
            ≡ reached (known (row_of ins.entry.types.now)))) }
        ensures any { self.new.any ≡ self.old.any }
        ensures words { HasWords classes.now self.new }
        ensures inner_words { IfOk result (λ inner. IfSome inner (HasWords classes.now)) }
    {
        if ins.types.is_empty() {
            return Ok(Some(Flow::new(room)));
        }
        let Some(count) = left(classes, self.any, self.operands.as_slice(), ins) else {
            return Ok(None);
        };
        if count == 0 && ins.types.len() >= WIDE {
            room.truncate(0);
            let kept = mem::replace(&mut self.operands, room);
            return Ok(Some(Flow::of_types(kept, classes, ins)?));
        }
        self.operands.truncate(count);
        Ok(Some(Flow::of_types(room, classes, ins)?))
    }

    /// Gives operands of these types, where a block within has ended: in the room of that block's, where these are many and there are no
    /// others. Gives back the room that is left over. It fails only when out of memory.
    #[tactic(auto, using(w_rows::proofs::WordedOperands::worded_same))]
    pub fn give(
        &mut self,
        mut room: OperandList,
        classes: &Classes,
        outs: TypeRow,
    ) -> Result<OperandList, AllocError>
        requires words { HasWords classes.now self.old }
        requires ready { IsReady classes.now outs }
        ensures operands { IfOk result (λ _. row_in self.new.operands
            ≡ row_in self.old.operands ⧺ known (row_of outs.entry.types.now)) }
        ensures any { self.new.any ≡ self.old.any }
        ensures words { HasWords classes.now self.new }
    {
        if outs.types.is_empty() {
            return Ok(room);
        }
        if outs.types.len() >= WIDE && self.operands.len() == 0 {
            room.truncate(0);
            let spare = mem::replace(&mut self.operands, room);
            give_types(classes, &mut self.operands, outs)?;
            return Ok(spare);
        }
        give_types(classes, &mut self.operands, outs)?;
        Ok(room)
    }
}
