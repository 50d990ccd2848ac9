//! Validity of types.
ghost use Rattle.std.specs.Prelude.{ℕ, ◌≡◌, ◌↔◌, ◌+◌, ◌≤◌, All, IsTrue, length, List};
ghost use Rattle.w_types.specs.Groups.{types_of};
ghost use Rattle.w_types.specs.declared.types.CompType.{CompType as TheType};
ghost use Rattle.w_rules.specs.Types.{IsValidType, IsValidCompType, IsSupertype, AreSupertypes};
ghost use Rattle.w_rules.specs.Valid.{IsFunctionType, TypeItem};
ghost use Rattle.w_items.specs.Firsts.{IsFirst, IsFirstFailing};
ghost use Rattle.w_items.specs.Judged.{IsContextBefore};
ghost use Rattle.w_items.specs.SubTypes.{IsValidSubType};

use crate::context::ModuleContext;
use w_rules::{func_type, has_type};
use w_syntax::Module;
use w_types::{CompType, PackedType, SubType};

// Whether each of these value types is valid, among so many types.
fn are_valid(end: usize, kinds: &[PackedType]) -> bool
    ensures { IsTrue result ↔ All (IsValidType end) kinds.now }
{
    kinds.iter().all(|kind| has_type(end, *kind))
}

/// Whether the type of this index is a function type.
pub(crate) fn is_function_type(candidate: &Module, index: u32) -> bool
    ensures { IsTrue result ↔ IsFunctionType candidate.now index }
{
    func_type(candidate, index as usize).is_some()
}

// Whether a composite type of the module is valid, where its group ends at this index.
fn is_composite_valid(candidate: &Module, end: usize, kind: &CompType) -> bool
    ensures { IsTrue result ↔ IsValidCompType (types_of candidate.now.types) end kind.now }
{
    match kind {
        CompType::Func(kind) => {
            are_valid(end, kind.params.as_slice()) && are_valid(end, kind.results.as_slice())
        }
        CompType::Cont(index) => {
            (*index as usize) < end && func_type(candidate, *index as usize).is_some()
        }
    }
}

// Whether a type of this index and composite type may have this supertype.
fn is_supertype(cx: &ModuleContext, index: usize, kind: &CompType, supertype: u32) -> bool
    requires { IsContextBefore cx.now }
    ensures { IsTrue result ↔ IsSupertype cx.now.candidate.now.types index kind.now supertype }
{
    match cx.candidate.types.subtype(supertype as usize) {
        Some(above) => {
            (supertype as usize) < index
                && !above.is_final
                && cx.context.classes.matches_comp(kind, &above.composite)
        }
        None => false,
    }
}

// Whether a type of this index may have its supertypes: it has at most one.
fn are_supertypes_valid(cx: &ModuleContext, index: usize, kind: &SubType) -> bool
    requires { IsContextBefore cx.now }
    ensures { IsTrue result ↔ AreSupertypes cx.now.candidate.now.types index kind.now.composite kind.now.supertypes }
{
    match kind.supertypes.as_slice() {
        [] => true,
        [supertype] => is_supertype(cx, index, &kind.composite, *supertype),
        _ => false,
    }
}

// Whether the type of this index is valid, where its group ends at this one.
fn is_valid(cx: &ModuleContext, end: usize, index: usize, kind: &SubType) -> bool
    requires { IsContextBefore cx.now }
    ensures { IsTrue result ↔ IsValidSubType cx.now.candidate.now end index kind.now }
{
    is_composite_valid(cx.candidate, end, &kind.composite) && are_supertypes_valid(cx, index, kind)
}

// The position of the first type that is not valid, of those of a group that stands between these indices.
fn first_in_group(cx: &ModuleContext, start: usize, end: usize, types: &[SubType]) -> Option<usize>
    requires whole { IsContextBefore cx.now }
    requires ends { end ≡ start + length types.now }
    ensures { IsFirstFailing (λ (k : ℕ). IsValidSubType cx.now.candidate.now end (start + k)) types.now result }
{
    for (position, kind) in types.iter().enumerate() {
        if !is_valid(cx, end, start + position, kind) {
            return Some(position);
        }
    }
    None
}

/// The first type that is not valid, if there is one.
pub(crate) fn first_invalid_type(cx: &ModuleContext) -> Option<usize>
    requires { IsContextBefore cx.now }
    ensures { IsFirst cx.now.candidate.now TypeItem result }
{
    // no index of a type, nor the end of a group, is above it
    let _count = cx.candidate.types.type_count();
    let mut start = 0;
    for group in cx.candidate.types.as_slice() {
        let end = start + group.types.len();
        if let Some(position) = first_in_group(cx, start, end, group.types.as_slice()) {
            return Some(start + position);
        }
        start = end;
    }
    None
}
