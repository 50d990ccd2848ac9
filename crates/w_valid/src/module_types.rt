//! The types of a module, made ready for judging bodies.
ghost use Rattle.std.specs.Prelude.{◌≡◌, IfOk};
ghost use Rattle.w_types.specs.Groups.{types_of};
ghost use Rattle.w_canon.specs.IsClassesOf.{IsClassesOf};
ghost use Rattle.w_rows.specs.TypeRows.{AreTypeRows};

use std::alloc::{AllocError, Global};
use std::marker::Model;
use w_canon::Classes;
use w_rows::TypeRows;
use w_types::RecGroups;

/// The types of a module with their classes, and the parameters and results of function types. It has lists of its own, so that the module
/// may change meanwhile. Contracts see the groups of types.
#[derive(Drop)]
pub(crate) struct ModuleTypes {
    types: RecGroups,
    classes: Classes,
    rows: TypeRows,
}

impl Model for ModuleTypes {
    ghost use Rattle.std.specs.Prelude.{List};
    ghost use Rattle.w_types.specs.declared.types.RecGroup.{RecGroup};
    ghost use Rattle.w_types.specs.Groups.{types_of};
    ghost use Rattle.w_canon.specs.IsClassesOf.{IsClassesOf};
    ghost use Rattle.w_rows.specs.TypeRows.{AreTypeRows};

    ghost Value = { List RecGroup };

    ghost view = { λ a. a.types };

    ghost invariant = { λ a. IsClassesOf a.types a.classes × AreTypeRows a.classes (types_of a.types) a.rows };
}

/// The same, lent.
#[derive(Clone, Copy)]
pub(crate) struct LentTypes<'a> {
    pub types: &'a RecGroups,
    pub classes: &'a Classes,
    pub rows: &'a TypeRows,
}

impl ModuleTypes {
    /// Those of these groups. It fails only when out of memory.
    pub fn of_groups(alloc: Global, groups: &RecGroups) -> Result<ModuleTypes, AllocError>
        ensures { IfOk result (λ types. types ≡ groups.now) }
    {
        let types = groups.copy(alloc)?;
        let classes = Classes::of_groups(alloc, types.as_slice())?;
        let rows = TypeRows::of_types(alloc, &classes, &types)?;
        Ok(ModuleTypes {
            types,
            classes,
            rows,
        })
    }

    /// What bodies are judged by.
    pub fn lent(&self) -> LentTypes<'_>
        ensures types { result.types.now ≡ self.now }
        ensures classes { IsClassesOf self.now result.classes.now }
        ensures rows { AreTypeRows result.classes.now (types_of self.now) result.rows.now }
    {
        LentTypes {
            types: &self.types,
            classes: &self.classes,
            rows: &self.rows,
        }
    }

    /// The classes alone.
    pub fn into_classes(self) -> Classes
        ensures { IsClassesOf self result }
    {
        let ModuleTypes {
            types: _,
            classes,
            rows: _,
        } = self;
        classes
    }
}
