//! What the bodies of a module are judged by.
ghost use Rattle.std.specs.Prelude.{◌≡◌, IfOk, OnOk};
ghost use Rattle.w_syntax.specs.declared.module.Module.{Module as TheModule};
ghost use Rattle.w_types.specs.Groups.{types_of};
ghost use Rattle.w_canon.specs.IsClassesOf.{IsClassesOf};
ghost use Rattle.w_rules.specs.DataNeeds.{with_datas};
ghost use Rattle.w_rules.specs.Spaces.{context_of};
ghost use Rattle.w_rules.specs.View.{context_in};
ghost use Rattle.w_syntax.specs.SameBefore.{SameBefore};
ghost use Rattle.w_rows.specs.TypeRows.{AreTypeRows};
ghost use Rattle.w_valid.specs.Tables.{AreDue, AreTablesIn, AreTablesOf};

use crate::module_types::ModuleTypes;
use std::alloc::{AllocError, Global};
use w_rows::TypeRows;
use w_rules::{Context, Spaces, declared_functions, keeps_type_limits};
use w_syntax::Module;

/// What the bodies of a module are judged by, made of the lists in front of its code section. It has lists of its own, so that the
/// module may grow meanwhile.
#[derive(Drop)]
pub(crate) struct ModuleTables {
    pub types: ModuleTypes,
    pub spaces: Spaces,
    pub declared: Vec<bool>,
}

/// What a body is judged in: a context without locals, and the parameters and results of its function types.
#[derive(Clone, Copy)]
pub(crate) struct BodySetting<'a> {
    pub context: Context<'a>,
    pub rows: &'a TypeRows,
}

impl ModuleTables {
    /// Those of a module. It fails only when out of memory.
    pub fn of_module(alloc: Global, candidate: &Module) -> Result<ModuleTables, AllocError>
        ensures { IfOk result (AreTablesOf candidate.now) }
    {
        let types = ModuleTypes::of_groups(alloc, &candidate.types)?;
        let spaces = Spaces::of_module(alloc, candidate)?;
        let declared = declared_functions(alloc, candidate, spaces.functions.len())?;
        Ok(ModuleTables {
            types,
            spaces,
            declared,
        })
    }

    /// What bodies are judged in where there are so many data segments.
    pub fn setting(&self, datas: usize) -> BodySetting<'_>
        ensures context { (m : TheModule) → AreTablesOf m self.now → context_in result.context ≡ with_datas datas (context_of m) }
        ensures classes { IsClassesOf result.context.types.now result.context.classes.now }
        ensures rows { AreTypeRows result.context.classes.now (types_of result.context.types.now) result.rows.now }
    {
        let lent = self.types.lent();
        BodySetting {
            context: Context {
                types: lent.types,
                classes: lent.classes,
                functions: self.spaces.functions.as_slice(),
                tables: self.spaces.tables.as_slice(),
                memories: self.spaces.memories.as_slice(),
                globals: self.spaces.globals.as_slice(),
                tags: self.spaces.tags.as_slice(),
                elements: self.spaces.elements.as_slice(),
                datas,
                declared: self.declared.as_slice(),
            },
            rows: lent.rows,
        }
    }
}

/// The tables of a module whose bodies are judged as they are read.
#[derive(Drop)]
pub(crate) enum TablesSoFar {
    /// No body was judged.
    NotYet,
    Made(ModuleTables),
    /// The module passes a limit on its types.
    PastLimits,
}

impl TablesSoFar {
    /// Makes them of a module where they are not there yet. It fails only when out of memory.
    pub fn make(&mut self, alloc: Global, candidate: &Module) -> Result<(), AllocError>
        ensures tables { (n : TheModule) → AreTablesIn n self.old → SameBefore candidate.now n → AreTablesIn n self.new }
        ensures due { OnOk result (AreDue self.new) }
    {
        if !matches!(self, TablesSoFar::NotYet) {
            return Ok(());
        }
        if !keeps_type_limits(candidate) {
            *self = TablesSoFar::PastLimits;
            return Ok(());
        }
        let tables = ModuleTables::of_module(alloc, candidate)?;
        *self = TablesSoFar::Made(tables);
        Ok(())
    }
}
