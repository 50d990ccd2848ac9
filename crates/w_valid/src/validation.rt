//! Validation of a module.
ghost use Rattle.std.specs.Prelude.{◌≡◌, IfOk, IfErr, OnOk, Ok, Err};
ghost use Rattle.w_canon.specs.Supertypes.{KeepsKinds};
ghost use Rattle.w_rules.specs.Facts.{AreFacts};
ghost use Rattle.w_rules.specs.Limits.{Within, Passes};
ghost use Rattle.w_rules.specs.Valid.{Item, Valid, IsInvalidAt};
ghost use Rattle.w_rules.specs.declared.limits.SizeLimit.{SizeLimit as TheLimit};
ghost use Rattle.w_items.specs.Faults.{fault_of, IsFaultOf, IsAnswer};
ghost use Rattle.w_items.specs.Judged.{IsContextBefore};
ghost use Rattle.w_valid.specs.JudgedBodies.{AreJudged};
ghost use Rattle.w_valid.specs.Measured.{AreMeasures};
ghost use Rattle.w_valid.specs.Tables.{AreTablesOf, AreTablesIn};

use crate::functions::first_invalid_function;
use crate::gradual::Gradual;
use crate::judged_bodies::JudgedBodies;
use crate::tables::{ModuleTables, TablesSoFar};
use std::alloc::Global;
use w_items::{ModuleContext, ValidFault, first_invalid_item};
use w_rules::{Checked, Facts, limits_of};
use w_syntax::Module;
use w_vplain::Room;

// Finds the first item that is not valid, and else judges all bodies. The first ones were judged before.
fn judge_items(
    alloc: Global,
    candidate: &Module,
    tables: &ModuleTables,
    room: &mut Room,
    bodies: &mut JudgedBodies,
) -> Result<(), ValidFault>
    requires within { Within candidate.now }
    requires tables { AreTablesOf candidate.now tables.now }
    requires bodies { KeepsKinds candidate.now.types → AreJudged candidate.now bodies.old }
    ensures valid { OnOk result (Valid candidate.now) }
    ensures measured { OnOk result (AreMeasures candidate.now bodies.new.heights.items bodies.new.depths.items) }
    ensures err { IfErr result (λ fault. IsFaultOf candidate.now fault) }
{
    let cx = ModuleContext {
        candidate,
        context: tables.setting(candidate.datas.len()).context,
    };
    if let Some(fault) = first_invalid_item(alloc, &cx)? {
        return Err(fault);
    }
    if let Some(index) = first_invalid_function(alloc, candidate, tables, room, bodies)? {
        return Err(ValidFault::Function(index));
    }
    Ok(())
}

// The same by the module's tables, and what is known of the module.
fn judge_by(
    alloc: Global,
    candidate: &Module,
    tables: ModuleTables,
    mut bodies: JudgedBodies,
    room: &mut Room,
) -> Result<Facts, ValidFault>
    requires within { Within candidate.now }
    requires tables { AreTablesOf candidate.now tables }
    requires bodies { KeepsKinds candidate.now.types → AreJudged candidate.now bodies }
    ensures valid { OnOk result (Valid candidate.now) }
    ensures facts { IfOk result (λ facts. AreFacts candidate.now facts) }
    ensures err { IfErr result (λ fault. IsFaultOf candidate.now fault) }
{
    judge_items(alloc, candidate, &tables, room, &mut bodies)?;
    let ModuleTables {
        types,
        spaces: _,
        declared,
    } = tables;
    Ok(Facts {
        heights: bodies.heights,
        depths: bodies.depths,
        declared,
        classes: types.into_classes(),
    })
}

/// Finds the first fault of a module, and else what is known of it. Its first bodies were judged before; the tables are made where there
/// are none.
pub(crate) fn judge(
    alloc: Global,
    candidate: &Module,
    tables: TablesSoFar,
    bodies: JudgedBodies,
    room: &mut Room,
) -> Result<Facts, ValidFault>
    requires tables { AreTablesIn candidate.now tables }
    requires bodies { Within candidate.now → KeepsKinds candidate.now.types → AreJudged candidate.now bodies }
    ensures within { OnOk result (Within candidate.now) }
    ensures valid { OnOk result (Valid candidate.now) }
    ensures facts { IfOk result (λ facts. AreFacts candidate.now facts) }
    ensures err { IfErr result (λ fault. IsFaultOf candidate.now fault) }
{
    if let Some(name) = limits_of(candidate) {
        return Err(ValidFault::Limit(name));
    }
    match tables {
        TablesSoFar::Made(tables) => judge_by(alloc, candidate, tables, bodies, room),
        TablesSoFar::NotYet | TablesSoFar::PastLimits => {
            let tables = ModuleTables::of_module(alloc, candidate)?;
            judge_by(alloc, candidate, tables, bodies, room)
        }
    }
}

/// Validates a module (Core, validation, modules): keeps it where it is valid and within its limits, and else names its first
/// fault: the first limit that it passes, or its first item that is not valid, in the order of `ValidFault`.
///
/// `OutOfMemory` says nothing of the module.
pub fn validate(alloc: Global, candidate: Module) -> Result<Checked, ValidFault>
    ensures ok { IfOk result (λ checked. checked ≡ candidate) }
    ensures within { IfOk result (λ checked. Within checked) }
    ensures valid { IfOk result (λ checked. Valid checked) }
    ensures err { IfErr result (λ fault. IsFaultOf candidate fault) }
    // Each module has its answer, unless memory runs out.
    ensures only_ok { Within candidate → Valid candidate → IsAnswer (Ok candidate) result }
    ensures only_limit { (name : TheLimit) → Passes candidate name
        → IsAnswer (Err (ValidFault.Limit name)) result }
    ensures only_item { (x : Item) → Within candidate → IsInvalidAt candidate x
        → IsAnswer (Err (fault_of x)) result }
{
    match Gradual::begin(alloc) {
        Ok(gradual) => gradual.finish(candidate),
        Err(_) => {
            drop(candidate);
            Err(ValidFault::OutOfMemory)
        }
    }
}
