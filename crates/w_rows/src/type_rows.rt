//! What stands ready for the types of a module.
ghost use Rattle.std.specs.Prelude.{◌≡◌, IfOk};
ghost use Rattle.w_types.specs.Groups.{types_of};
ghost use Rattle.w_rows.specs.TypeRows.{IsReady, IsReadyFor, HasReady, AreTypeRows};

use crate::operand::Operand;
use crate::type_row::{RowWords, TypeRow};
use crate::words::{span_length, wanted_word};
use std::alloc::{AllocError, Global};
use w_canon::Classes;
use w_rules::Context;
use w_types::{CompType, PackedType, RecGroups};

/// Rows of so many types are compared and given whole.
pub const WIDE: usize = 8;

/// What stands ready for a row of types: see `RowWords`.
#[derive(Drop)]
pub(crate) struct ReadyRow {
    operands: Vec<Operand>,
    given: Vec<u32>,
    wanted: Vec<u32>,
    lengths: Vec<u32>,
}

/// What stands ready for a function type, where it is wide.
#[derive(Drop)]
pub(crate) struct ReadyType {
    params: Option<ReadyRow>,
    results: Option<ReadyRow>,
    // whether it was found that the parameters match the results, as an if without a second branch needs
    fits: bool,
}

/// Of each function type of a module the parameters and results, of which wide ones stand ready: see `AreTypeRows` of `specs/TypeRows.antt`.
#[derive(Drop)]
pub struct TypeRows {
    types: Vec<ReadyType>,
}

/// The parameters and the results of a function type.
#[derive(Clone, Copy)]
pub struct FuncRows<'r> {
    pub params: TypeRow<'r>,
    pub results: TypeRow<'r>,
    pub(crate) fits: bool,
}

// What stands ready for these types, where the row is wide. It fails only for want of memory.
fn ready_row(
    alloc: Global,
    classes: &Classes,
    types: &[PackedType],
) -> Result<Option<ReadyRow>, AllocError>
    ensures { IfOk result (λ r. IsReadyFor classes.now types.now r) }
{
    if types.len() < WIDE {
        return Ok(None);
    }
    let mut operands = Vec::with_capacity(alloc, types.len())?;
    let mut given = Vec::with_capacity(alloc, types.len())?;
    let mut wanted = Vec::with_capacity(alloc, types.len())?;
    let mut lengths = Vec::with_capacity(alloc, types.len())?;
    for kind in types {
        let operand = Operand::known(classes, *kind);
        operands.push(operand)?;
        given.push(operand.word)?;
        wanted.push(wanted_word(classes, *kind))?;
        lengths.push(span_length(classes, *kind))?;
    }
    Ok(Some(ReadyRow {
        operands,
        given,
        wanted,
        lengths,
    }))
}

// What stands ready for a type, which is a function type or needs nothing. It fails only for want of memory.
fn ready_type(alloc: Global, classes: &Classes, kind: &CompType) -> Result<ReadyType, AllocError>
    ensures { IfOk result (HasReady classes.now kind.now) }
{
    match kind {
        CompType::Func(function) => {
            let params = ready_row(alloc, classes, function.params.as_slice())?;
            let results = ready_row(alloc, classes, function.results.as_slice())?;
            let from = row_of(classes, function.params.as_slice(), &params);
            let to = row_of(classes, function.results.as_slice(), &results);
            let fits = from.lies_below(to);
            Ok(ReadyType {
                params,
                results,
                fits,
            })
        }
        CompType::Cont(_) => Ok(ReadyType {
            params: None,
            results: None,
            fits: false,
        }),
    }
}

// These types, with what stands ready for them.
fn row_of<'r>(
    classes: &Classes,
    types: &'r [PackedType],
    ready: &'r Option<ReadyRow>,
) -> TypeRow<'r>
    requires { IsReadyFor classes.now types.now ready.now }
    ensures types { result.types.now ≡ types.now }
    ensures ready { IsReady classes.now result }
{
    match ready {
        Some(ready) => TypeRow {
            types,
            words: Some(RowWords {
                operands: ready.operands.as_slice(),
                given: ready.given.as_slice(),
                wanted: ready.wanted.as_slice(),
                lengths: ready.lengths.as_slice(),
            }),
        },
        None => TypeRow::bare(types),
    }
}

impl<'r> FuncRows<'r> {
    ghost use Rattle.std.specs.Prelude.{◌≡◌, [], List};
    ghost use Rattle.w_canon.specs.declared.entry.Entry.{Entry};
    ghost use Rattle.w_canon.specs.Tests.{result_test};
    ghost use Rattle.w_rows.specs.TypeRows.{AreReadyRows, IsReady};

    /// No parameters, and these results.
    #[inline(always)]
    pub fn results_alone(results: TypeRow<'r>) -> FuncRows<'r>
        ensures from { result.params.types.now ≡ [] }
        ensures to { result.results.types.now ≡ results.entry.types.now }
        ensures ready { (es : List Entry) → IsReady es results.entry → AreReadyRows es result }
    {
        FuncRows {
            params: TypeRow::bare(&[]),
            results,
            fits: false,
        }
    }

    /// Whether the parameters match the results, each the one at its place, and they are as many (Core, validation, matching).
    pub fn fit(self, classes: &Classes) -> bool
        requires { AreReadyRows classes.now self }
        ensures { result ≡ result_test classes.now self.entry.params.types.now self.entry.results.types.now }
    {
        if self.fits {
            return true;
        }
        self.params.matches(classes, self.results)
    }
}

impl TypeRows {
    ghost use Rattle.std.specs.Prelude.{◌≡◌, List, IfOk, IfSome};
    ghost use Rattle.std.specs.Option.{option_map};
    ghost use Rattle.w_types.specs.declared.types.CompType.{CompType};
    ghost use Rattle.w_types.specs.Groups.{types_of};
    ghost use Rattle.w_canon.specs.declared.entry.Entry.{Entry};
    ghost use Rattle.w_rules.specs.Context.{func_of};
    ghost use Rattle.w_rules.specs.View.{context_in};
    ghost use Rattle.w_rows.specs.TypeRows.{AreTypeRows, AreReadyRows, rows_type};

    /// Nothing stands ready, whatever the types are.
    pub fn none(alloc: Global) -> TypeRows
        ensures { (es : List Entry) (ts : List CompType) → AreTypeRows es ts result }
    {
        TypeRows {
            types: Vec::new(alloc),
        }
    }

    /// What stands ready for these types. It fails only for want of memory.
    pub fn of_types(
        alloc: Global,
        classes: &Classes,
        groups: &RecGroups,
    ) -> Result<TypeRows, AllocError>
        ensures { IfOk result (λ rows. AreTypeRows classes.now (types_of groups.now) rows) }
    {
        let mut types = Vec::new(alloc);
        for index in 0..groups.type_count() {
            match groups.get(index) {
                Some(kind) => types.push(ready_type(alloc, classes, kind)?)?,
                None => unreachable!(),
            }
        }
        Ok(TypeRows { types })
    }

    /// The function type of this index, where the type of this index is one.
    pub fn func_of<'r>(&'r self, cx: &Context<'r>, index: u32) -> Option<FuncRows<'r>>
        requires { AreTypeRows cx.now.classes.now (types_of cx.now.types.now) self.now }
        ensures kind { option_map rows_type result ≡ func_of (context_in cx.now) index }
        ensures ready { IfSome result (λ rows. AreReadyRows cx.now.classes.now rows) }
    {
        let kind = cx.func_of(index)?;
        match self.types.get(index as usize) {
            Some(ready) => Some(FuncRows {
                params: row_of(cx.classes, kind.params.as_slice(), &ready.params),
                results: row_of(cx.classes, kind.results.as_slice(), &ready.results),
                fits: ready.fits,
            }),
            None => Some(FuncRows {
                params: TypeRow::bare(kind.params.as_slice()),
                results: TypeRow::bare(kind.results.as_slice()),
                fits: false,
            }),
        }
    }
}
