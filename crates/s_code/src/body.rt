//! Bodies of the tokens that are written.
ghost use Rattle.std.specs.Prelude.{◌≡◌, ◌≤◌, ◌+◌, IfOk, reverse};
ghost use Rattle.w_syntax.specs.Code.{Code};
ghost use Rattle.w_syntax.specs.Builds.{Builds};
ghost use Rattle.w_syntax.specs.Expr.{Top, tokens as tokens_of};
ghost use Rattle.s_check.specs.Size.{block_size};
ghost use Rattle.s_code.specs.Statements.{body as body_code};
ghost use Rattle.s_index.specs.Limits.{number_limit};

use crate::layout::Layout;
use crate::statement::write_body;
use s_index::Program;
use s_syntax::Block;
use std::alloc::{AllocError, Global};
use w_syntax::{Body, BodyBuilder, Token};

// The builder that has taken these tokens, the last one first.
fn built(alloc: Global, mut backwards: Vec<Token>) -> Result<BodyBuilder, AllocError>
    requires { (c : Code) × (reverse backwards.items ≡ tokens_of c) }
    ensures builds { IfOk result (λ builder. (c : Code) → reverse backwards.items ≡ tokens_of c → Builds Top c builder) }
{
    let mut builder = BodyBuilder::new(alloc)?;
    while let Some(token) = backwards.pop() {
        builder.push(token)?;
    }
    Ok(builder)
}

/// The body of these tokens. It fails only for want of memory.
pub(crate) fn body_of(alloc: Global, mut tokens: Vec<Token>) -> Result<Body, AllocError>
    requires { (c : Code) × (tokens.items ≡ tokens_of c) }
    ensures value { IfOk result (λ body. (c : Code) → tokens.items ≡ tokens_of c → body ≡ c) }
{
    tokens.reverse();
    let mut builder = built(alloc, tokens)?;
    builder.push(Token::End)?;
    builder.into_body()
}

/// The body of a function, whose parts these are. It fails only for want of memory.
pub fn function_body<'a>(
    alloc: Global,
    program: &Program<'a>,
    layout: &Layout<'a>,
    body: &'a Block,
) -> Result<Body, AllocError>
    requires { layout.now.temporaries + block_size body.now ≤ number_limit }
    ensures value { IfOk result (λ made. made ≡ body_code program.now layout.now 0 body.now) }
{
    let mut tokens = Vec::new(alloc);
    write_body(program, layout, 0, body, &mut tokens)?;
    body_of(alloc, tokens)
}
