//! What the parser reads.
ghost use Rattle.std.specs.Prelude.{length};
ghost use Rattle.s_lex.specs.Lexes.{AreInOrder};
ghost use Rattle.s_expr.specs.Order.{AreInOrder-prop};

use s_syntax::Token;
use std::alloc::Global;

/// What the parser reads: the bytes of a script and its tokens, which stand in the bytes one behind another. `alloc` gives the memory for what
/// is made of them.
#[derive(Clone, Copy)]
pub struct Source<'a> {
    pub alloc: Global,
    pub bytes: &'a [u8],
    pub tokens: &'a [Token],
    ghost order: { AreInOrder 0 (length bytes.now) tokens.now } by { AreInOrder-prop 0 (length bytes.now) tokens.now },
}
