//! Data segments (Core, binary format, data section).
ghost use Rattle.std.specs.Prelude.{IfOk};
ghost use Rattle.w_leb.specs.Format.{ReadsAt};
ghost use Rattle.w_leb.specs.Formats.{bytes as byte_string};
ghost use Rattle.w_syntax.specs.Fields.{data_segment};

use crate::bodies::expr_at;
use lists::ListOf;
use std::alloc::{AllocError, Global};
use w_fields::{Field, sized_at};
use w_leb::read_u32;
use w_syntax::{Data, DataMode};

// The bytes behind their count.
fn byte_string_at(
    alloc: Global,
    bytes: &[u8],
    at: usize,
) -> Result<Option<(ListOf<u8>, usize)>, AllocError>
    ensures { IfOk result (ReadsAt byte_string.read bytes.now at) }
{
    let Some((start, end)) = sized_at(bytes, at) else {
        return Ok(None);
    };
    let copy = bytes[start..end].to_vec(alloc)?;
    Ok(Some((ListOf::from_vec(copy), end)))
}

/// A data segment, as a kind of field (Core, binary format, data section).
pub struct DataField;

impl Field for DataField {
    type Item = Data;

    ghost format = { data_segment };

    #[tactic(auto, unfolding(w_syntax::specs::Fields::data_segment, w_syntax::specs::Fields::expr))]
    fn read(alloc: Global, bytes: &[u8], at: usize) -> Result<Option<(Data, usize)>, AllocError> {
        let Some((form, next)) = read_u32(bytes, at) else {
            return Ok(None);
        };
        let (mode, next) = match form {
            0 => {
                let Some((place, next)) = expr_at(alloc, bytes, next)? else {
                    return Ok(None);
                };
                (DataMode::Active(0, place), next)
            }
            1 => (DataMode::Passive, next),
            2 => {
                let Some((memory, next)) = read_u32(bytes, next) else {
                    return Ok(None);
                };
                let Some((place, next)) = expr_at(alloc, bytes, next)? else {
                    return Ok(None);
                };
                (DataMode::Active(memory, place), next)
            }
            _ => return Ok(None),
        };
        let Some((bytes, next)) = byte_string_at(alloc, bytes, next)? else {
            return Ok(None);
        };
        Ok(Some((Data { bytes, mode }, next)))
    }
}
