//! Lists of operands that keep their room.
ghost use Rattle.std.specs.Prelude.{◌≡◌, ◌≤◌, ◌+◌, ◌++◌, ◌∷◌, [], length, take, OnErr, OnOk};

use std::alloc::{AllocError, Global};
use std::marker::Model;
use w_rows::Operand;

/// The operands of a block, the topmost last. Where operands are taken their places stay, so that the next ones are put there with no
/// call for room. Contracts see the operands.
#[derive(Drop)]
pub struct OperandList {
    // the operands, and behind them places that are free
    places: Vec<Operand>,
    count: usize,
}

impl Model for OperandList {
    ghost use Rattle.std.specs.Prelude.{◌≤◌, List, length, take};
    ghost use Rattle.w_rows.specs.declared.operand.Operand.{Operand};

    ghost Value = { List Operand };

    ghost view = { λ a. take a.count a.places.items };

    ghost invariant = { λ a. a.count ≤ length a.places.items };
}

// One place more. It is rare, and stands out of line.
#[inline(never)]
fn add_place(places: &mut Vec<Operand>, operand: Operand) -> Result<(), AllocError>
    ensures added { OnOk result (places.new.items ≡ places.old.items ++ operand ∷ []) }
    ensures kept { OnErr result (places.new.items ≡ places.old.items) }
{
    places.push(operand)?;
    Ok(())
}

impl OperandList {
    ghost use Rattle.std.specs.Prelude.{◌≡◌, ◌≤◌, ◌-◌, ◌<◌, ◌++◌, ◌∷◌, [], length, take, IfSome, IfNone, OnErr, OnOk};

    /// No operands.
    pub fn new(alloc: Global) -> OperandList
        ensures { result ≡ [] }
    {
        OperandList {
            places: Vec::new(alloc),
            count: 0,
        }
    }

    /// How many there are.
    #[inline(always)]
    pub(crate) fn len(&self) -> usize
        ensures { result ≡ length self.now }
    {
        self.count
    }

    /// The operands.
    #[inline(always)]
    pub(crate) fn as_slice(&self) -> &[Operand]
        ensures { result.now ≡ self.now }
    {
        &self.places[..self.count]
    }

    /// One more, as the topmost. It fails only when out of memory.
    #[inline(always)]
    pub(crate) fn push(&mut self, operand: Operand) -> Result<(), AllocError>
        ensures added { OnOk result (self.new ≡ self.old ++ operand ∷ []) }
        ensures kept { OnErr result (self.new ≡ self.old) }
    {
        let count = self.count;
        if count < self.places.len() {
            self.places[count] = operand;
        } else {
            add_place(&mut self.places, operand)?;
        }
        self.count = count + 1;
        Ok(())
    }

    /// The topmost.
    #[inline(always)]
    pub(crate) fn last(&self) -> Option<Operand>
        ensures last { IfSome result (λ x. self.now ≡ take (length self.now - 1) self.now ++ x ∷ []) }
        ensures some { IfSome result (λ _. 0 < length self.now) }
        ensures none { IfNone result (self.now ≡ []) }
    {
        if self.count == 0 {
            return None;
        }
        Some(self.places[self.count - 1])
    }

    /// Takes the topmost.
    #[inline(always)]
    pub(crate) fn pop(&mut self) -> Option<Operand>
        ensures some { IfSome result (λ x. self.old ≡ self.new ++ x ∷ []) }
        ensures none { IfNone result ((self.old ≡ []) × (self.new ≡ [])) }
        ensures rest { self.new ≡ take (length self.old - 1) self.old }
    {
        if self.count == 0 {
            return None;
        }
        self.count -= 1;
        Some(self.places[self.count])
    }

    /// Leaves the first so many.
    pub(crate) fn truncate(&mut self, count: usize)
        requires { count ≤ length self.old }
        ensures { self.new ≡ take count self.old }
    {
        self.count = count;
    }

    /// Puts another operand in the place of the topmost.
    #[inline(always)]
    pub(crate) fn replace_last(&mut self, operand: Operand)
        requires { 0 < length self.old }
        ensures { self.new ≡ take (length self.old - 1) self.old ++ operand ∷ [] }
    {
        let last = self.count - 1;
        self.places[last] = operand;
    }

    /// Gives operands behind the first so many, in the place of those that stand there. It fails only when out of memory.
    pub(crate) fn give_behind(
        &mut self,
        from: usize,
        operands: &[Operand],
    ) -> Result<(), AllocError>
        requires { from ≤ length self.old }
        ensures given { OnOk result (self.new ≡ take from self.old ++ operands.now) }
        ensures none { OnErr result (self.new ≡ []) }
    {
        let room = self.places.len();
        let count = from + operands.len();
        if room < count {
            self.count = 0;
            self.places.resize(count, Operand::BOTTOM)?;
        }
        self.places[from..count].copy_from_slice(operands);
        self.count = count;
        Ok(())
    }
}
