//! Validity of functions.
ghost use Rattle.std.specs.Prelude.{◌↔◌, All, IfOk, IfNone, IsTrue};
ghost use Rattle.w_types.specs.Groups.{types_of};
ghost use Rattle.w_syntax.specs.declared.locals.LocalRun.{LocalRun as Run};
ghost use Rattle.w_canon.specs.Supertypes.{KeepsKinds};
ghost use Rattle.w_rules.specs.Types.{IsValidType};
ghost use Rattle.w_rules.specs.Valid.{FunctionItem};
ghost use Rattle.w_rules.specs.View.{context_in, HasClasses};
ghost use Rattle.w_rows.specs.TypeRows.{AreTypeRows};
ghost use Rattle.w_items.specs.Firsts.{IsFirst};
ghost use Rattle.w_valid.specs.JudgedBodies.{AreJudged};
ghost use Rattle.w_valid.specs.Measured.{IsCodeMeasure, IsFunctionMeasure, AreMeasures};
ghost use Rattle.w_valid.specs.Tables.{AreTablesOf};

use crate::judged_bodies::JudgedBodies;
use crate::tables::{BodySetting, ModuleTables};
use std::alloc::{AllocError, Global};
use w_bodies::check_body;
use w_items::item_at;
use w_rules::has_type;
use w_steps::Setting;
use w_syntax::{Func, LocalRun, Module};
use w_vplain::Room;

// Whether the type of each of these locals is valid, among so many types.
fn are_locals_valid(count: usize, runs: &[LocalRun]) -> bool
    ensures { IsTrue result ↔ All (λ (run : Run). IsValidType count run.kind) runs.now }
{
    runs.iter().all(|run| has_type(count, run.kind))
}

/// Whether the type of this index is a function type, and the code has valid locals and a body of this type (Core, validation,
/// functions), and then its height and its depth, where each supertype of the context's types is of its subtypes' kind. It works in this
/// room, and leaves it to the next one.
pub(crate) fn measure_code(
    alloc: Global,
    setting: &BodySetting,
    room: &mut Room,
    kind: u32,
    code: &Func,
) -> Result<Option<(u64, u32)>, AllocError>
    requires { AreTypeRows setting.now.context.classes.now (types_of setting.now.context.types.now) setting.now.rows.now }
    ensures { HasClasses setting.now.context → IfOk result (IsCodeMeasure (context_in setting.now.context) kind code.now) }
{
    let BodySetting { context: cx, rows } = setting;
    let Some(kind) = rows.func_of(cx, kind) else {
        return Ok(None);
    };
    let runs = code.locals.as_slice();
    if !are_locals_valid(cx.types.type_count(), runs) {
        return Ok(None);
    }
    let body = Setting {
        cx,
        rows,
        results: kind.results,
    };
    check_body(alloc, body, room, kind.params.types, runs, &code.body)
}

// Whether the function of this index is valid, and then its height and its depth.
fn measure_function(
    alloc: Global,
    candidate: &Module,
    tables: &ModuleTables,
    room: &mut Room,
    index: usize,
) -> Result<Option<(u64, u32)>, AllocError>
    requires tables { AreTablesOf candidate.now tables.now }
    requires keeps { KeepsKinds candidate.now.types }
    ensures { IfOk result (IsFunctionMeasure candidate.now index) }
{
    let Some(kind) = item_at(&candidate.functions, index) else {
        return Ok(None);
    };
    let Some(code) = item_at(&candidate.codes, index) else {
        return Ok(None);
    };
    let setting = tables.setting(candidate.datas.len());
    measure_code(alloc, &setting, room, *kind, code)
}

/// The first function that is not valid, if there is one: each index of a type or of code is that of a function. The first bodies were
/// judged before. Where there is none, all are judged behind it.
pub(crate) fn first_invalid_function(
    alloc: Global,
    candidate: &Module,
    tables: &ModuleTables,
    room: &mut Room,
    bodies: &mut JudgedBodies,
) -> Result<Option<usize>, AllocError>
    requires tables { AreTablesOf candidate.now tables.now }
    requires keeps { KeepsKinds candidate.now.types }
    requires bodies { AreJudged candidate.now bodies.old }
    ensures first { IfOk result (λ first. IsFirst candidate.now FunctionItem first) }
    ensures measured { IfOk result (λ first. IfNone first
        (AreMeasures candidate.now bodies.new.heights.items bodies.new.depths.items)) }
{
    let count = candidate.functions.len().max(candidate.codes.len());
    bodies.truncate(count);
    if let Some(index) = bodies.first_refuted(candidate.datas.len()) {
        return Ok(Some(index));
    }
    for index in bodies.len()..count {
        let Some((height, depth)) = measure_function(alloc, candidate, tables, room, index)? else {
            return Ok(Some(index));
        };
        bodies.heights.push(height)?;
        bodies.depths.push(depth)?;
    }
    Ok(None)
}
