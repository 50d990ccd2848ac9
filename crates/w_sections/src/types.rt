//! Types of a module (Core, binary format, types; the explainer, binary format).
ghost use Rattle.std.specs.Prelude.{◌≡◌, IfOk, [], ◌∷◌};
ghost use Rattle.w_leb.specs.Format.{ReadsAt, BeginsAt};
ghost use Rattle.w_leb.specs.Formats.{vec, ◌⊗◌, ◌⇒◌, number};
ghost use Rattle.w_syntax.specs.Types.{functype, comptype, subtype_with, subtype, rectype};

use lists::ListOf;
use std::alloc::{AllocError, Global};
use w_fields::{Field, IndexField, ValTypeField, vec_at};
use w_leb::{read_byte, read_u32};
use w_types::{CompType, FuncType, RecGroup, RecGroups, SubType};

/// A function type, as a kind of field: what stands behind its byte.
pub struct FuncTypeField;

impl Field for FuncTypeField {
    type Item = FuncType;

    ghost format = { functype };

    #[tactic(auto, unfolding(w_syntax::specs::Types::functype))]
    fn read(
        alloc: Global,
        bytes: &[u8],
        at: usize,
    ) -> Result<Option<(FuncType, usize)>, AllocError> {
        let Some((params, next)) = vec_at::<ValTypeField>(alloc, bytes, at)? else {
            return Ok(None);
        };
        let Some((results, next)) = vec_at::<ValTypeField>(alloc, bytes, next)? else {
            return Ok(None);
        };
        Ok(Some((FuncType { params, results }, next)))
    }
}

// Reads a composite type.
#[tactic(auto, unfolding(w_syntax::specs::Types::comptype))]
fn read_comptype(
    alloc: Global,
    bytes: &[u8],
    at: usize,
) -> Result<Option<(CompType, usize)>, AllocError>
    ensures { IfOk result (ReadsAt comptype.read bytes.now at) }
{
    let Some((tag, next)) = read_byte(bytes, at) else {
        return Ok(None);
    };
    match tag {
        0x60 => {
            let Some((kind, next)) = FuncTypeField::read(alloc, bytes, next)? else {
                return Ok(None);
            };
            Ok(Some((CompType::Func(kind), next)))
        }
        0x5D => {
            let Some((index, next)) = read_u32(bytes, next) else {
                return Ok(None);
            };
            Ok(Some((CompType::Cont(index), next)))
        }
        _ => Ok(None),
    }
}

/// The composite type at a place. `None` exactly where no spelling of one begins.
pub fn comptype_at(
    alloc: Global,
    bytes: &[u8],
    at: usize,
) -> Result<Option<(CompType, usize)>, AllocError>
    ensures reads { IfOk result (ReadsAt comptype.read bytes.now at) }
    ensures begins { IfOk result (BeginsAt comptype.Spells bytes.now at) }
{
    read_comptype(alloc, bytes, at)
}

// A type behind the byte that says whether it is final: its supertypes, and its composite type.
fn read_supertypes(
    alloc: Global,
    bytes: &[u8],
    at: usize,
    is_final: bool,
) -> Result<Option<(SubType, usize)>, AllocError>
    ensures { IfOk result (ReadsAt (vec (number 32) ⊗ comptype ⇒ subtype_with is_final).read bytes.now at) }
{
    let Some((supertypes, next)) = vec_at::<IndexField>(alloc, bytes, at)? else {
        return Ok(None);
    };
    let Some((composite, next)) = read_comptype(alloc, bytes, next)? else {
        return Ok(None);
    };
    Ok(Some((
        SubType {
            is_final,
            supertypes,
            composite,
        },
        next,
    )))
}

// Reads a type with its supertypes, or a composite type alone.
#[tactic(auto, unfolding(w_syntax::specs::Types::subtype))]
fn read_subtype(
    alloc: Global,
    bytes: &[u8],
    at: usize,
) -> Result<Option<(SubType, usize)>, AllocError>
    ensures { IfOk result (ReadsAt subtype.read bytes.now at) }
{
    let Some((tag, next)) = read_byte(bytes, at) else {
        return Ok(None);
    };
    match tag {
        0x50 => read_supertypes(alloc, bytes, next, false),
        0x4F => read_supertypes(alloc, bytes, next, true),
        _ => {
            let Some((composite, next)) = read_comptype(alloc, bytes, at)? else {
                return Ok(None);
            };
            Ok(Some((SubType::alone(alloc, composite), next)))
        }
    }
}

/// The type at a place, with its supertypes. `None` exactly where no spelling of one begins.
pub fn subtype_at(
    alloc: Global,
    bytes: &[u8],
    at: usize,
) -> Result<Option<(SubType, usize)>, AllocError>
    ensures reads { IfOk result (ReadsAt subtype.read bytes.now at) }
    ensures begins { IfOk result (BeginsAt subtype.Spells bytes.now at) }
{
    read_subtype(alloc, bytes, at)
}

/// A type with its supertypes, as a kind of field.
pub struct SubTypeField;

impl Field for SubTypeField {
    type Item = SubType;

    ghost format = { subtype };

    fn read(
        alloc: Global,
        bytes: &[u8],
        at: usize,
    ) -> Result<Option<(SubType, usize)>, AllocError> {
        subtype_at(alloc, bytes, at)
    }
}

// The group of one type.
fn group_of_one(alloc: Global, kind: SubType) -> Result<RecGroup, AllocError>
    ensures { IfOk result (λ group. group ≡ record { types = kind ∷ [] }) }
{
    let mut types = ListOf::new(alloc);
    types.push(kind)?;
    Ok(RecGroup { types })
}

/// A group of types, as a kind of field.
pub struct RecGroupField;

impl Field for RecGroupField {
    type Item = RecGroup;

    ghost format = { rectype };

    #[tactic(auto, unfolding(w_syntax::specs::Types::rectype))]
    fn read(
        alloc: Global,
        bytes: &[u8],
        at: usize,
    ) -> Result<Option<(RecGroup, usize)>, AllocError> {
        let Some((tag, next)) = read_byte(bytes, at) else {
            return Ok(None);
        };
        match tag {
            0x4E => {
                let Some((types, next)) = vec_at::<SubTypeField>(alloc, bytes, next)? else {
                    return Ok(None);
                };
                Ok(Some((RecGroup { types }, next)))
            }
            _ => {
                let Some((kind, next)) = subtype_at(alloc, bytes, at)? else {
                    return Ok(None);
                };
                Ok(Some((group_of_one(alloc, kind)?, next)))
            }
        }
    }
}

/// The types of a module, in groups, as a kind of field.
pub struct RecGroupsField;

impl Field for RecGroupsField {
    type Item = RecGroups;

    ghost format = { vec rectype };

    fn read(
        alloc: Global,
        bytes: &[u8],
        at: usize,
    ) -> Result<Option<(RecGroups, usize)>, AllocError> {
        let Some((groups, next)) = vec_at::<RecGroupField>(alloc, bytes, at)? else {
            return Ok(None);
        };
        Ok(Some((RecGroups::from_vec(alloc, groups.into_vec())?, next)))
    }
}
