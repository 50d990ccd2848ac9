//! Imports (Core, binary format, import section).
ghost use Rattle.w_leb.specs.Format.{ReadsAt, BeginsAt};
ghost use Rattle.w_syntax.specs.Fields.{externtype, import};

use crate::tags::tag_at;
use std::alloc::{AllocError, Global};
use w_fields::{Field, globaltype_at, limits_at, name_at, tabletype_at};
use w_leb::{read_byte, read_u32};
use w_syntax::{ExternType, Import};

// Reads the type of what is imported.
#[tactic(auto, unfolding(w_syntax::specs::Fields::externtype))]
fn read_externtype(bytes: &[u8], at: usize) -> Option<(ExternType, usize)>
    ensures { ReadsAt externtype.read bytes.now at result }
{
    let Some((kind, next)) = read_byte(bytes, at) else {
        return None;
    };
    match kind {
        0x00 => {
            let Some((index, next)) = read_u32(bytes, next) else {
                return None;
            };
            Some((ExternType::Func(index), next))
        }
        0x01 => {
            let Some((table, next)) = tabletype_at(bytes, next) else {
                return None;
            };
            Some((ExternType::Table(table), next))
        }
        0x02 => {
            let Some((memory, next)) = limits_at(bytes, next) else {
                return None;
            };
            Some((ExternType::Memory(memory), next))
        }
        0x03 => {
            let Some((global, next)) = globaltype_at(bytes, next) else {
                return None;
            };
            Some((ExternType::Global(global), next))
        }
        0x04 => {
            let Some((index, next)) = tag_at(bytes, next) else {
                return None;
            };
            Some((ExternType::Tag(index), next))
        }
        _ => None,
    }
}

/// The type of what is imported, at a place. `None` exactly where no spelling of one begins.
#[tactic(auto, using(w_leb::specs::ReadingLaws::begins_at))]
pub fn externtype_at(bytes: &[u8], at: usize) -> Option<(ExternType, usize)>
    ensures reads { ReadsAt externtype.read bytes.now at result }
    ensures begins { BeginsAt externtype.Spells bytes.now at result }
{
    read_externtype(bytes, at)
}

/// An import, as a kind of field.
pub struct ImportField;

impl Field for ImportField {
    type Item = Import;

    ghost format = { import };

    #[tactic(auto, unfolding(w_syntax::specs::Fields::import))]
    fn read(alloc: Global, bytes: &[u8], at: usize) -> Result<Option<(Import, usize)>, AllocError> {
        let Some((module_name, next)) = name_at(alloc, bytes, at)? else {
            return Ok(None);
        };
        let Some((item_name, next)) = name_at(alloc, bytes, next)? else {
            return Ok(None);
        };
        let Some((kind, next)) = externtype_at(bytes, next) else {
            return Ok(None);
        };
        Ok(Some((
            Import {
                module_name,
                item_name,
                kind,
            },
            next,
        )))
    }
}
