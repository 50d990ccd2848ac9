//! What the names of declarations stand for.
ghost use Rattle.std.specs.Prelude.{IfOk};
ghost use Rattle.s_check.specs.Views.{Finds};

use s_syntax::{Declaration, Definition, Function, Handler, Name, Slots};
use std::alloc::{AllocError, Global};
use std::collections::BTreeMap;
use std::marker::Model;

/// The declarations of a script, by name. Contracts see them as they stand in the script.
#[derive(Drop)]
pub(crate) struct Declarations<'a> {
    all: &'a [Declaration],
    first: BTreeMap<&'a [u8], &'a Definition>,
}

impl<'a> Model for Declarations<'a> {
    ghost use Rattle.std.specs.Prelude.{List};
    ghost use Rattle.s_syntax.specs.declared.script.Declaration.{Declaration};
    ghost use Rattle.s_check.specs.Views.{Finds};

    ghost Value = { List Declaration };

    ghost use Rattle.std.specs.Coded.{coded_list};
    ghost use Rattle.s_syntax.specs.contracts.script.Declaration as declaration_contract;

    ghost coded = { coded_list declaration_contract.the_row.coded };

    ghost view = { λ a. a.all.now };

    ghost invariant = { λ a. Finds a.first a.all.now };
}

// The first definition of each name.
fn first_definitions<'a>(
    alloc: Global,
    all: &'a [Declaration],
) -> Result<BTreeMap<&'a [u8], &'a Definition>, AllocError>
    ensures finds { IfOk result (λ first. Finds first all.now) }
{
    let mut first = BTreeMap::new(alloc);
    for behind in 0..all.len() {
        let declaration = &all[all.len() - 1 - behind];
        first.insert(declaration.name.as_bytes(), &declaration.definition)?;
    }
    Ok(first)
}

impl<'a> Declarations<'a> {
    ghost use Rattle.std.specs.Prelude.{◌≡◌, IfOk};
    ghost use Rattle.std.specs.Option.{option_copied};
    ghost use Rattle.s_check.specs.Definitions.{definition_of, function_of, handler_of, effect_of, slots_of};

    /// Those of a script. It fails only for want of memory.
    pub fn new(alloc: Global, all: &'a [Declaration]) -> Result<Declarations<'a>, AllocError>
        ensures value { IfOk result (λ declarations. declarations ≡ all.now) }
    {
        let first = first_definitions(alloc, all)?;
        Ok(Declarations { all, first })
    }

    // What a name stands for.
    fn find(&self, name: &'a Name) -> Option<&'a Definition>
        ensures value { option_copied result ≡ definition_of self.now name.now }
    {
        match self.first.get(&name.as_bytes()) {
            Some(definition) => Some(*definition),
            None => None,
        }
    }

    /// The function of a name.
    pub fn function(&self, name: &'a Name) -> Option<&'a Function>
        ensures value { option_copied result ≡ function_of self.now name.now }
    {
        match self.find(name) {
            Some(Definition::Function(function)) => Some(function),
            _ => None,
        }
    }

    /// The handler of a name.
    pub fn handler(&self, name: &'a Name) -> Option<&'a Handler>
        ensures value { option_copied result ≡ handler_of self.now name.now }
    {
        match self.find(name) {
            Some(Definition::Handler(handler)) => Some(handler),
            _ => None,
        }
    }

    /// The slots of a name.
    pub fn slots(&self, name: &'a Name) -> Option<&'a Slots>
        ensures value { option_copied result ≡ slots_of self.now name.now }
    {
        match self.find(name) {
            Some(Definition::Slots(slots)) => Some(slots),
            _ => None,
        }
    }

    /// The number of arguments of the effect of a name.
    pub fn effect(&self, name: &'a Name) -> Option<u64>
        ensures value { result ≡ effect_of self.now name.now }
    {
        match self.find(name) {
            Some(Definition::Effect(number)) => Some(number.value),
            _ => None,
        }
    }
}
