//! Modules that can be run.

use std::marker::Model;
use w_canon::Classes;
use w_syntax::Module;

/// A sound module, with what its runs need to know of it. Contracts see the module.
#[derive(Drop)]
pub struct Runnable {
    module: Module,
    heights: Vec<u64>,
    depths: Vec<u32>,
    classes: Classes,
}

impl Model for Runnable {
    ghost use Rattle.w_syntax.specs.declared.module.Module.{Module};
    ghost use Rattle.w_canon.specs.IsClassesOf.{IsClassesOf};
    ghost use Rattle.w_rules.specs.Facts.{AreMeasures};
    ghost use Rattle.w_rules.specs.Sound.{AreNarrow, Sound};

    ghost Value = { Module };

    ghost use Rattle.w_syntax.specs.contracts.module.Module as module_contract;

    ghost coded = { module_contract.the_row.coded };

    ghost view = { λ a. a.module };

    ghost invariant = { λ a. AreNarrow a.module × (Sound a.module × (AreMeasures a.module a.heights.items a.depths.items × IsClassesOf a.module.types a.classes)) };
}

impl Runnable {
    ghost use Rattle.std.specs.Prelude.{◌≡◌, Some, None};
    ghost use Rattle.w_types.specs.declared.types.FuncType.{FuncType};
    ghost use Rattle.w_syntax.specs.Functions.{type_of_function, code_of_function};
    ghost use Rattle.w_syntax.specs.declared.module.Func.{Func};
    ghost use Rattle.w_canon.specs.IsClassesOf.{IsClassesOf};
    ghost use Rattle.w_rules.specs.Facts.{AreMeasures, height_of};
    ghost use Rattle.w_rules.specs.Peak.{depth};
    ghost use Rattle.w_rules.specs.Sound.{AreNarrow, Sound};

    /// Keeps a module that is sound, with the heights and the depths of its functions, and the classes of its types.
    pub fn make(sound: Module, heights: Vec<u64>, depths: Vec<u32>, classes: Classes) -> Runnable
        requires narrow { AreNarrow sound }
        requires sound { Sound sound }
        requires measures { AreMeasures sound heights.items depths.items }
        requires classes { IsClassesOf sound.types classes }
        ensures { result ≡ sound }
    {
        Runnable {
            module: sound,
            heights,
            depths,
            classes,
        }
    }

    /// The module.
    #[inline]
    pub fn module(&self) -> &Module
        ensures same { result.now ≡ self.now }
        ensures narrow { AreNarrow self.now }
        ensures sound { Sound self.now }
    {
        &self.module
    }

    /// The module itself, with the heights and the depths of its functions.
    pub fn into_parts(self) -> (Module, Vec<u64>, Vec<u32>)
        ensures module { result.0 ≡ self }
        ensures measures { AreMeasures self result.1.items result.2.items }
    {
        (self.module, self.heights, self.depths)
    }

    /// The greatest number of operands at a counted place of the body of this function, of those that the module defines; 0 where
    /// there is none.
    pub fn height(&self, function: u32) -> u64
        ensures there { (t : FuncType) (f : Func) → type_of_function self.now function ≡ Some t
            → code_of_function self.now function ≡ Some f → result ≡ height_of self.now t f }
        ensures none { code_of_function self.now function ≡ None → result ≡ 0 }
    {
        match self.heights.get(function as usize) {
            Some(height) => *height,
            None => 0,
        }
    }

    /// One plus the greatest number of blocks around a place of the body of this function, of those that the module defines; 0 where
    /// there is none.
    pub fn depth(&self, function: u32) -> u32
        ensures there { (t : FuncType) (f : Func) → type_of_function self.now function ≡ Some t
            → code_of_function self.now function ≡ Some f → result ≡ depth f.body }
        ensures none { code_of_function self.now function ≡ None → result ≡ 0 }
    {
        match self.depths.get(function as usize) {
            Some(depth) => *depth,
            None => 0,
        }
    }

    /// The classes of the module's types.
    pub fn classes(&self) -> &Classes
        ensures { IsClassesOf self.now.types result.now }
    {
        &self.classes
    }
}
