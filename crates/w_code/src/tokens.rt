//! Tokens: instructions, and the marks of their nesting (Core, binary format, control instructions).
ghost use Rattle.std.specs.Prelude.{IfOk};
ghost use Rattle.w_leb.specs.Format.{ReadsAt, BeginsAt};
ghost use Rattle.w_syntax.specs.Tokens.{blocktype, token};

use crate::instructions::instruction_at;
use std::alloc::{AllocError, Global};
use w_fields::{Field, field_at, index_at, valtype_at};
use w_leb::read_byte;
use w_syntax::{BlockKind, BlockType, Token};

// The type of a block.
#[tactic(auto, unfolding(w_syntax::specs::Tokens::blocktype, w_syntax::specs::Types::valtype))]
fn blocktype_at(bytes: &[u8], at: usize) -> Option<(BlockType, usize)>
    ensures { ReadsAt blocktype.read bytes.now at result }
{
    let Some((tag, next)) = read_byte(bytes, at) else {
        return None;
    };
    match tag {
        0x40 => Some((BlockType::Empty, next)),
        0x7F | 0x7E | 0x63 | 0x64 | 0x70 | 0x73 | 0x68 | 0x75 => {
            let Some((kind, next)) = valtype_at(bytes, at) else {
                return None;
            };
            Some((BlockType::Value(kind), next))
        }
        _ => {
            let Some((index, next)) = index_at(bytes, at) else {
                return None;
            };
            Some((BlockType::Index(index), next))
        }
    }
}

// A token, as a kind of field.
struct TokenField;

impl Field for TokenField {
    type Item = Token;

    ghost format = { token };

    #[tactic(auto, unfolding(w_syntax::specs::Tokens::token))]
    fn read(alloc: Global, bytes: &[u8], at: usize) -> Result<Option<(Token, usize)>, AllocError> {
        let Some((tag, next)) = read_byte(bytes, at) else {
            return Ok(None);
        };
        let (token, next) = match tag {
            0x02 => {
                let Some((block, next)) = blocktype_at(bytes, next) else {
                    return Ok(None);
                };
                (Token::Block(BlockKind::Block, block), next)
            }
            0x03 => {
                let Some((block, next)) = blocktype_at(bytes, next) else {
                    return Ok(None);
                };
                (Token::Block(BlockKind::Loop, block), next)
            }
            0x04 => {
                let Some((block, next)) = blocktype_at(bytes, next) else {
                    return Ok(None);
                };
                (Token::If(block), next)
            }
            0x05 => (Token::Else, next),
            0x0B => (Token::End, next),
            _ => {
                let Some((op, next)) = instruction_at(alloc, bytes, at)? else {
                    return Ok(None);
                };
                (Token::Plain(op), next)
            }
        };
        Ok(Some((token, next)))
    }
}

/// The token at a place: an instruction, or a mark of the nesting (Core, binary format, instructions). `None` exactly where no
/// spelling of one begins.
pub fn token_at(
    alloc: Global,
    bytes: &[u8],
    at: usize,
) -> Result<Option<(Token, usize)>, AllocError>
    ensures reads { IfOk result (ReadsAt token.read bytes.now at) }
    ensures begins { IfOk result (BeginsAt token.Spells bytes.now at) }
{
    field_at::<TokenField>(alloc, bytes, at)
}
