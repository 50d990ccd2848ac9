//! Expressions (Core, binary format, expressions).
ghost use Rattle.std.specs.Prelude.{IfOk};
ghost use Rattle.w_leb.specs.Format.{ReadsAt, BeginsAt};
ghost use Rattle.w_syntax.specs.Expr.{Expr, read_expr};
ghost use Rattle.w_syntax.specs.Fields.{expr};

use crate::common::common_at;
use crate::tokens::token_at;
use std::alloc::{AllocError, Global};
use w_fields::{Field, field_at};
use w_syntax::{Body, BodyBuilder, Progress};

// The body that stands at a place, token by token.
fn body_at(alloc: Global, bytes: &[u8], at: usize) -> Result<Option<(Body, usize)>, AllocError>
    ensures { IfOk result (ReadsAt read_expr bytes.now at) }
{
    let mut builder = BodyBuilder::new(alloc)?;
    let mut place = at;
    while place < bytes.len() {
        if let Some((packed, next)) = common_at(bytes, place) {
            builder.push_plain(packed)?;
            place = next;
            continue;
        }
        let Some((token, next)) = token_at(alloc, bytes, place)? else {
            return Ok(None);
        };
        place = next;
        match builder.push(token)? {
            Progress::More => {}
            Progress::Finished => return Ok(Some((builder.into_body()?, next))),
            Progress::Wrong => return Ok(None),
        }
    }
    Ok(None)
}

/// An expression, as a kind of field (Core, binary format, expressions).
pub struct BodyField;

impl Field for BodyField {
    type Item = Body;

    ghost format = { expr };

    #[tactic(auto, unfolding(w_syntax::specs::Fields::expr))]
    fn read(alloc: Global, bytes: &[u8], at: usize) -> Result<Option<(Body, usize)>, AllocError> {
        body_at(alloc, bytes, at)
    }
}

/// The expression at a place (Core, binary format, expressions). `None` exactly where no spelling of one begins.
#[tactic(auto, unfolding(w_syntax::specs::Fields::expr))]
pub fn expr_at(alloc: Global, bytes: &[u8], at: usize) -> Result<Option<(Body, usize)>, AllocError>
    ensures reads { IfOk result (ReadsAt read_expr bytes.now at) }
    ensures begins { IfOk result (BeginsAt Expr bytes.now at) }
{
    field_at::<BodyField>(alloc, bytes, at)
}
