//! Tables (Core, binary format, table section).
ghost use Rattle.w_syntax.specs.Fields.{table_of};

use crate::bodies::expr_at;
use std::alloc::{AllocError, Global};
use w_fields::{Field, tabletype_at};
use w_leb::read_byte;
use w_syntax::Table;

/// A table, as a kind of field (Core, binary format, table section).
pub struct TableField;

impl Field for TableField {
    type Item = Table;

    ghost format = { table_of };

    #[tactic(auto, unfolding(w_syntax::specs::Fields::table_of, w_syntax::specs::Fields::expr))]
    fn read(alloc: Global, bytes: &[u8], at: usize) -> Result<Option<(Table, usize)>, AllocError> {
        let Some((tag, next)) = read_byte(bytes, at) else {
            return Ok(None);
        };
        if tag != 0x40 {
            let Some((kind, next)) = tabletype_at(bytes, at) else {
                return Ok(None);
            };
            return Ok(Some((Table { kind, init: None }, next)));
        }
        let Some((reserved, next)) = read_byte(bytes, next) else {
            return Ok(None);
        };
        if reserved != 0x00 {
            return Ok(None);
        }
        let Some((kind, next)) = tabletype_at(bytes, next) else {
            return Ok(None);
        };
        let Some((init, next)) = expr_at(alloc, bytes, next)? else {
            return Ok(None);
        };
        let init = Some(init);
        Ok(Some((Table { kind, init }, next)))
    }
}
