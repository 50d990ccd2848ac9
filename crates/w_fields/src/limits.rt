//! Limits, and the types of tables and globals (Core, binary format, types).
ghost use Rattle.w_leb.specs.Format.{ReadsAt, BeginsAt};
ghost use Rattle.w_syntax.specs.Types.{limits, tabletype, mutability, globaltype};

use crate::fields::Field;
use crate::types::{reftype_at, valtype_at};
use std::alloc::{AllocError, Global};
use w_leb::{read_byte, read_u64};
use w_syntax::{GlobalType, Limits, Mutability, TableType};

// Reads limits.
#[tactic(auto, unfolding(w_syntax::specs::Types::limits))]
fn read_limits(bytes: &[u8], at: usize) -> Option<(Limits, usize)>
    ensures { ReadsAt limits.read bytes.now at result }
{
    let Some((flag, next)) = read_byte(bytes, at) else {
        return None;
    };
    if flag > 0x01 {
        return None;
    }
    let Some((min, next)) = read_u64(bytes, next) else {
        return None;
    };
    if flag == 0x00 {
        return Some((Limits { min, max: None }, next));
    }
    let Some((max, next)) = read_u64(bytes, next) else {
        return None;
    };
    Some((
        Limits {
            min,
            max: Some(max),
        },
        next,
    ))
}

/// The limits at a place. `None` exactly where no spelling of one begins.
#[tactic(auto, using(w_leb::specs::ReadingLaws::begins_at))]
pub fn limits_at(bytes: &[u8], at: usize) -> Option<(Limits, usize)>
    ensures reads { ReadsAt limits.read bytes.now at result }
    ensures begins { BeginsAt limits.Spells bytes.now at result }
{
    read_limits(bytes, at)
}

// Reads the type of a table.
#[tactic(auto, unfolding(w_syntax::specs::Types::tabletype))]
fn read_tabletype(bytes: &[u8], at: usize) -> Option<(TableType, usize)>
    ensures { ReadsAt tabletype.read bytes.now at result }
{
    let Some((element, next)) = reftype_at(bytes, at) else {
        return None;
    };
    let Some((limits, next)) = limits_at(bytes, next) else {
        return None;
    };
    Some((TableType { element, limits }, next))
}

/// The type of a table, at a place. `None` exactly where no spelling of one begins.
#[tactic(auto, using(w_leb::specs::ReadingLaws::begins_at))]
pub fn tabletype_at(bytes: &[u8], at: usize) -> Option<(TableType, usize)>
    ensures reads { ReadsAt tabletype.read bytes.now at result }
    ensures begins { BeginsAt tabletype.Spells bytes.now at result }
{
    read_tabletype(bytes, at)
}

// Whether a global may be written.
#[tactic(auto, unfolding(w_syntax::specs::Types::mutability))]
fn mutability_at(bytes: &[u8], at: usize) -> Option<(Mutability, usize)>
    ensures { ReadsAt mutability.read bytes.now at result }
{
    let Some((flag, next)) = read_byte(bytes, at) else {
        return None;
    };
    match flag {
        0x00 => Some((Mutability::Const, next)),
        0x01 => Some((Mutability::Var, next)),
        _ => None,
    }
}

// Reads the type of a global.
#[tactic(auto, unfolding(w_syntax::specs::Types::globaltype))]
fn read_globaltype(bytes: &[u8], at: usize) -> Option<(GlobalType, usize)>
    ensures { ReadsAt globaltype.read bytes.now at result }
{
    let Some((kind, next)) = valtype_at(bytes, at) else {
        return None;
    };
    let Some((mutability, next)) = mutability_at(bytes, next) else {
        return None;
    };
    Some((GlobalType { kind, mutability }, next))
}

/// The type of a global, at a place. `None` exactly where no spelling of one begins.
#[tactic(auto, using(w_leb::specs::ReadingLaws::begins_at))]
pub fn globaltype_at(bytes: &[u8], at: usize) -> Option<(GlobalType, usize)>
    ensures reads { ReadsAt globaltype.read bytes.now at result }
    ensures begins { BeginsAt globaltype.Spells bytes.now at result }
{
    read_globaltype(bytes, at)
}

/// Limits, as a kind of field.
pub struct LimitsField;

impl Field for LimitsField {
    type Item = Limits;

    ghost format = { limits };

    fn read(
        _alloc: Global,
        bytes: &[u8],
        at: usize,
    ) -> Result<Option<(Limits, usize)>, AllocError> {
        Ok(limits_at(bytes, at))
    }
}
