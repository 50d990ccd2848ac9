//! The types of instructions that take at most two operands and give at most one, each a step of a flow in place: no lists are made.
//! Each step gives back whether its operands can be taken.

use crate::flow::Flow;
use crate::operands::{matches_type, take_type};
use std::alloc::AllocError;
use w_canon::Classes;
use w_rows::Operand;
use w_types::PackedType;

impl Flow {
    ghost use Rattle.std.specs.Prelude.{◌≡◌, IfOk};
    ghost use Rattle.lists.specs.Rows.{ε, ◌▹◌};
    ghost use Rattle.w_rules.specs.InstructionTypes.{fixed};
    ghost use Rattle.w_rows.specs.Operands.{row_in};
    ghost use Rattle.w_flow.specs.Flow.{step};
    ghost use Rattle.w_flow.specs.View.{flow_if, HasWords};

    /// The type [] to [to]. It fails only when out of memory.
    #[tactic(auto, using(w_rows::proofs::WordedOperands::row_pushed, w_rows::proofs::WordedOperands::worded_pushed, w_rows::proofs::WordedOperands::worded_replaced, w_rows::proofs::WordedOperands::worded_same))]
    #[inline(always)]
    pub fn gives(&mut self, classes: &Classes, to: PackedType) -> Result<bool, AllocError>
        ensures steps { IfOk result (λ applies. step classes.now (fixed ε (ε ▹ to)) self.old.any
            (row_in self.old.operands) ≡ flow_if applies self.new) }
        ensures words { HasWords classes.now self.old → HasWords classes.now self.new }
    {
        self.operands.push(Operand::known(classes, to))?;
        Ok(true)
    }

    /// The type [from] to [].
    #[inline(always)]
    pub fn takes(&mut self, classes: &Classes, from: PackedType) -> bool
        ensures steps { step classes.now (fixed (ε ▹ from) ε) self.old.any
            (row_in self.old.operands) ≡ flow_if result self.new }
        ensures words { HasWords classes.now self.old → HasWords classes.now self.new }
    {
        take_type(classes, self.any, &mut self.operands, from)
    }

    /// The type [below top] to [].
    pub fn takes_two(&mut self, classes: &Classes, below: PackedType, top: PackedType) -> bool
        ensures steps { step classes.now (fixed (ε ▹ below ▹ top) ε) self.old.any
            (row_in self.old.operands) ≡ flow_if result self.new }
        ensures words { HasWords classes.now self.old → HasWords classes.now self.new }
    {
        self.takes(classes, top) && self.takes(classes, below)
    }

    /// The type [from] to [to]. It fails only when out of memory.
    #[tactic(auto, using(w_rows::proofs::WordedOperands::row_pushed, w_rows::proofs::WordedOperands::worded_pushed, w_rows::proofs::WordedOperands::worded_replaced, w_rows::proofs::WordedOperands::worded_same))]
    #[inline(always)]
    pub fn turns(
        &mut self,
        classes: &Classes,
        from: PackedType,
        to: PackedType,
    ) -> Result<bool, AllocError>
        ensures steps { IfOk result (λ applies. step classes.now (fixed (ε ▹ from) (ε ▹ to)) self.old.any
            (row_in self.old.operands) ≡ flow_if applies self.new) }
        ensures words { HasWords classes.now self.old → HasWords classes.now self.new }
    {
        let Some(top) = self.operands.last() else {
            return if self.any {
                self.gives(classes, to)
            } else {
                Ok(false)
            };
        };
        if !matches_type(classes, top, from) {
            return Ok(false);
        }
        self.operands.replace_last(Operand::known(classes, to));
        Ok(true)
    }

    /// The type [from from] to [to]. It fails only when out of memory.
    #[inline(always)]
    pub fn joins(
        &mut self,
        classes: &Classes,
        from: PackedType,
        to: PackedType,
    ) -> Result<bool, AllocError>
        ensures steps { IfOk result (λ applies. step classes.now (fixed (ε ▹ from ▹ from)
            (ε ▹ to)) self.old.any (row_in self.old.operands) ≡ flow_if applies self.new) }
        ensures words { HasWords classes.now self.old → HasWords classes.now self.new }
    {
        if !self.takes(classes, from) {
            return Ok(false);
        }
        self.turns(classes, from, to)
    }
}
