//! The types of instructions, each a step of a flow. Each step gives back whether its operands can be taken.

use crate::flow::Flow;
use crate::operands::{
    give_each, give_types, non_null, selected, take_any, take_few, take_many, take_reference,
    take_type, turn_types,
};
use std::alloc::AllocError;
use w_canon::Classes;
use w_rows::{Operand, TypeRow};
use w_types::PackedType;

impl Flow {
    ghost use Rattle.std.specs.Prelude.{◌≡◌, if◌then◌else◌, [], List, IfOk, Some, None};
    ghost use Rattle.lists.specs.Rows.{ε, ◌▹◌, row_of};
    ghost use Rattle.w_types.specs.declared.types.ValType.TheVariants as val;
    ghost use Rattle.w_canon.specs.declared.entry.Entry.{Entry};
    ghost use Rattle.w_rules.specs.InstructionTypes.{fixed, polymorphic, drops, selects, tests_null, as_non_null, on_null};
    ghost use Rattle.w_rows.specs.Operands.{row_in};
    ghost use Rattle.w_rows.specs.TypeRows.{IsReady};
    ghost use Rattle.w_flow.specs.Flow.{pops, step};
    ghost use Rattle.w_flow.specs.View.{flow_view, flow_if, anything, HasWords};

    /// The type [ins] to [outs], of few types. It fails only when out of memory.
    pub fn turns_few(
        &mut self,
        classes: &Classes,
        ins: &[PackedType],
        outs: &[PackedType],
    ) -> Result<bool, AllocError>
        ensures steps { IfOk result (λ applies. step classes.now (fixed (row_of ins.now)
            (row_of outs.now)) self.old.any (row_in self.old.operands)
            ≡ flow_if applies self.new) }
        ensures words { HasWords classes.now self.old → HasWords classes.now self.new }
    {
        if !take_few(classes, self.any, &mut self.operands, ins) {
            return Ok(false);
        }
        give_each(classes, &mut self.operands, outs)?;
        Ok(true)
    }

    /// The same of types that may be many, as those that a function type names.
    pub fn turns_many(
        &mut self,
        classes: &Classes,
        ins: TypeRow,
        outs: TypeRow,
    ) -> Result<bool, AllocError>
        requires words { HasWords classes.now self.old }
        requires ins { IsReady classes.now ins }
        requires outs { IsReady classes.now outs }
        ensures steps { IfOk result (λ applies. step classes.now (fixed (row_of ins.entry.types.now)
            (row_of outs.entry.types.now)) self.old.any (row_in self.old.operands)
            ≡ flow_if applies self.new) }
        ensures words { HasWords classes.now self.new }
    {
        turn_types(classes, self.any, &mut self.operands, ins, outs)
    }

    /// The type [ins top] to [outs], of types that may be many. It fails only when out of memory.
    pub fn turns_many_below(
        &mut self,
        classes: &Classes,
        ins: TypeRow,
        top: PackedType,
        outs: TypeRow,
    ) -> Result<bool, AllocError>
        requires words { HasWords classes.now self.old }
        requires ins { IsReady classes.now ins }
        requires outs { IsReady classes.now outs }
        ensures steps { IfOk result (λ applies. step classes.now (fixed (row_of ins.entry.types.now ▹ top)
            (row_of outs.entry.types.now)) self.old.any (row_in self.old.operands)
            ≡ flow_if applies self.new) }
        ensures words { HasWords classes.now self.new }
    {
        if !take_type(classes, self.any, &mut self.operands, top) {
            return Ok(false);
        }
        self.turns_many(classes, ins, outs)
    }

    /// The type [t* ins] to any.
    pub fn polymorphic(&mut self, classes: &Classes, ins: TypeRow) -> bool
        requires words { HasWords classes.now self.old }
        requires ins { IsReady classes.now ins }
        ensures steps { step classes.now (polymorphic (row_of ins.entry.types.now)) self.old.any
            (row_in self.old.operands) ≡ flow_if result self.new }
        ensures words { HasWords classes.now self.new }
    {
        if !take_many(classes, self.any, &mut self.operands, ins) {
            return false;
        }
        self.leave();
        true
    }

    /// The type [t* ins top] to any.
    pub fn polymorphic_below(&mut self, classes: &Classes, ins: TypeRow, top: PackedType) -> bool
        requires words { HasWords classes.now self.old }
        requires ins { IsReady classes.now ins }
        ensures steps { step classes.now (polymorphic (row_of ins.entry.types.now ▹ top)) self.old.any
            (row_in self.old.operands) ≡ flow_if result self.new }
        ensures words { HasWords classes.now self.new }
    {
        if !take_type(classes, self.any, &mut self.operands, top) {
            return false;
        }
        self.polymorphic(classes, ins)
    }

    /// Takes a number that is tested, as the index of a `br_table`, or what an `if` asks.
    pub fn take_tested(&mut self, classes: &Classes) -> bool
        ensures left { pops classes.now self.old.any (row_in self.old.operands) (ε ▹ val.I32)
            ≡ (if result then Some (row_in self.new.operands) else None) }
        ensures any { self.new.any ≡ self.old.any }
        ensures words { HasWords classes.now self.old → HasWords classes.now self.new }
    {
        take_type(classes, self.any, &mut self.operands, PackedType::I32)
    }

    /// Goes on at a place that cannot be reached.
    pub fn leave(&mut self)
        ensures left { flow_view self.new ≡ anything }
        ensures words { (es : List Entry) → HasWords es self.new }
    {
        self.any = true;
        self.operands.truncate(0);
    }

    /// The type of `drop`. It compares no types, so the contract has no entries.
    #[inline(always)]
    pub fn drops(&mut self) -> bool
        ensures steps { step [] drops self.old.any (row_in self.old.operands)
            ≡ flow_if result self.new }
        ensures words { (es : List Entry) → HasWords es self.old → HasWords es self.new }
    {
        take_any(self.any, &mut self.operands).is_some()
    }

    /// The type of a `select` without a type. It fails only when out of memory.
    #[tactic(auto, using(w_rows::proofs::WordedOperands::row_pushed, w_rows::proofs::WordedOperands::worded_pushed, w_rows::proofs::WordedOperands::worded_taken, w_rows::proofs::WordedOperands::worded_same))]
    pub fn selects(&mut self, classes: &Classes) -> Result<bool, AllocError>
        ensures steps { IfOk result (λ applies. step classes.now selects self.old.any
            (row_in self.old.operands) ≡ flow_if applies self.new) }
        ensures words { HasWords classes.now self.old → HasWords classes.now self.new }
    {
        if !take_type(classes, self.any, &mut self.operands, PackedType::I32) {
            return Ok(false);
        }
        let Some(other) = take_any(self.any, &mut self.operands) else {
            return Ok(false);
        };
        let Some(one) = take_any(self.any, &mut self.operands) else {
            return Ok(false);
        };
        let Some(number) = selected(one, other) else {
            return Ok(false);
        };
        self.operands.push(number)?;
        Ok(true)
    }

    /// The type of `ref.is_null`. It compares no types, so the contract has no entries. It fails only when out of memory.
    #[tactic(auto, using(w_rows::proofs::WordedOperands::row_pushed, w_rows::proofs::WordedOperands::worded_pushed, w_rows::proofs::WordedOperands::worded_taken, w_rows::proofs::WordedOperands::worded_same))]
    pub fn tests_null(&mut self) -> Result<bool, AllocError>
        ensures steps { IfOk result (λ applies. step [] tests_null self.old.any
            (row_in self.old.operands) ≡ flow_if applies self.new) }
        ensures words { (es : List Entry) → HasWords es self.old → HasWords es self.new }
    {
        if take_reference(self.any, &mut self.operands).is_none() {
            return Ok(false);
        }
        self.operands.push(Operand::alone(PackedType::I32))?;
        Ok(true)
    }

    /// The type of `ref.as_non_null`. It fails only when out of memory.
    #[tactic(auto, using(w_rows::proofs::WordedOperands::row_pushed, w_rows::proofs::WordedOperands::worded_pushed, w_rows::proofs::WordedOperands::worded_taken, w_rows::proofs::WordedOperands::worded_same))]
    pub fn as_non_null(&mut self, classes: &Classes) -> Result<bool, AllocError>
        ensures steps { IfOk result (λ applies. step classes.now as_non_null self.old.any
            (row_in self.old.operands) ≡ flow_if applies self.new) }
        ensures words { HasWords classes.now self.old → HasWords classes.now self.new }
    {
        let Some(heap) = take_reference(self.any, &mut self.operands) else {
            return Ok(false);
        };
        self.operands.push(non_null(classes, heap))?;
        Ok(true)
    }

    /// The type of a `br_on_null` to a label that takes these types. It fails only when out of memory.
    #[tactic(auto, using(w_rows::proofs::WordedOperands::row_pushed, w_rows::proofs::WordedOperands::worded_pushed, w_rows::proofs::WordedOperands::worded_taken, w_rows::proofs::WordedOperands::worded_same))]
    pub fn on_null(&mut self, classes: &Classes, label: TypeRow) -> Result<bool, AllocError>
        requires words { HasWords classes.now self.old }
        requires ready { IsReady classes.now label }
        ensures steps { IfOk result (λ applies. step classes.now (on_null (row_of label.entry.types.now)) self.old.any
            (row_in self.old.operands) ≡ flow_if applies self.new) }
        ensures words { HasWords classes.now self.new }
    {
        let Some(heap) = take_reference(self.any, &mut self.operands) else {
            return Ok(false);
        };
        if !take_many(classes, self.any, &mut self.operands, label) {
            return Ok(false);
        }
        give_types(classes, &mut self.operands, label)?;
        self.operands.push(non_null(classes, heap))?;
        Ok(true)
    }
}
