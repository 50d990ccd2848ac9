//! Modules that were found valid and within their limits.

use crate::facts::Facts;
use crate::runnable::Runnable;
use std::marker::Model;
use w_canon::Classes;
use w_syntax::Module;

/// A valid module within its limits, with what the check of it found out. Contracts see the module.
#[derive(Drop)]
pub struct Checked {
    runnable: Runnable,
    declared: Vec<bool>,
}

impl Model for Checked {
    ghost use Rattle.std.specs.Prelude.{◌≡◌};
    ghost use Rattle.w_syntax.specs.declared.module.Module.{Module};
    ghost use Rattle.w_rules.specs.Limits.{Within};
    ghost use Rattle.w_rules.specs.Spaces.{declared_of};
    ghost use Rattle.w_rules.specs.Valid.{Valid};

    ghost Value = { Module };

    ghost use Rattle.w_syntax.specs.contracts.module.Module as module_contract;

    ghost coded = { module_contract.the_row.coded };

    ghost view = { λ a. a.runnable };

    ghost invariant = { λ a. Within a.runnable × (Valid a.runnable × (a.declared.items ≡ declared_of a.runnable)) };
}

impl Checked {
    ghost use Rattle.std.specs.Prelude.{◌≡◌, ◌↔◌, IsTrue, false, Some, None, slice_index_or};
    ghost use Rattle.w_types.specs.declared.types.FuncType.{FuncType};
    ghost use Rattle.w_syntax.specs.Functions.{type_of_function, code_of_function};
    ghost use Rattle.w_syntax.specs.declared.module.Func.{Func};
    ghost use Rattle.w_canon.specs.IsClassesOf.{IsClassesOf};
    ghost use Rattle.w_rules.specs.Facts.{AreFacts, height_of};
    ghost use Rattle.w_rules.specs.Limits.{Within};
    ghost use Rattle.w_rules.specs.Peak.{depth};
    ghost use Rattle.w_rules.specs.Spaces.{IsDeclared, declared_of};
    ghost use Rattle.w_rules.specs.Valid.{Valid};

    /// Keeps a module that is valid and within its limits, with what the check of it found out.
    #[tactic(auto, using(crate::proofs::SoundModules::valid_is_sound))]
    pub fn make(valid: Module, facts: Facts) -> Checked
        requires within { Within valid }
        requires valid { Valid valid }
        requires facts { AreFacts valid facts }
        ensures { result ≡ valid }
    {
        let Facts {
            heights,
            depths,
            declared,
            classes,
        } = facts;
        Checked {
            runnable: Runnable::make(valid, heights, depths, classes),
            declared,
        }
    }

    /// The module.
    pub fn module(&self) -> &Module
        ensures same { result.now ≡ self.now }
        ensures within { Within self.now }
        ensures valid { Valid self.now }
    {
        self.runnable.module()
    }

    /// The greatest number of operands at a counted place of the body of this function, of those that the module defines; 0 where
    /// there is none.
    pub fn height(&self, function: u32) -> u64
        ensures there { (t : FuncType) (f : Func) → type_of_function self.now function ≡ Some t
            → code_of_function self.now function ≡ Some f → result ≡ height_of self.now t f }
        ensures none { code_of_function self.now function ≡ None → result ≡ 0 }
    {
        self.runnable.height(function)
    }

    /// One plus the greatest number of blocks around a place of the body of this function, of those that the module defines; 0 where
    /// there is none.
    pub fn depth(&self, function: u32) -> u32
        ensures there { (t : FuncType) (f : Func) → type_of_function self.now function ≡ Some t
            → code_of_function self.now function ≡ Some f → result ≡ depth f.body }
        ensures none { code_of_function self.now function ≡ None → result ≡ 0 }
    {
        self.runnable.depth(function)
    }

    /// Whether `ref.func` may name the function of this index. Imported functions stand in front.
    pub fn declared(&self, function: u32) -> bool
        ensures flag { result ≡ slice_index_or (declared_of self.now) function false }
        ensures declared { IsTrue result ↔ IsDeclared self.now function }
    {
        match self.declared.get(function as usize) {
            Some(declared) => *declared,
            None => false,
        }
    }

    /// The classes of the module's types.
    pub fn classes(&self) -> &Classes
        ensures { IsClassesOf self.now.types result.now }
    {
        self.runnable.classes()
    }

    /// The module as one that can be run, to be looked at.
    pub fn runnable(&self) -> &Runnable
        ensures { result.now ≡ self.now }
    {
        &self.runnable
    }

    /// The module as one that can be run. This takes no memory.
    pub fn into_runnable(self) -> Runnable
        ensures { result ≡ self }
    {
        self.runnable
    }
}
