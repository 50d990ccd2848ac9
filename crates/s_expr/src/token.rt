//! Single tokens.
ghost use Rattle.std.specs.Prelude.{◌≡◌, ◌≤◌, length, drop};
ghost use Rattle.s_lex.specs.Texts.{value};
ghost use Rattle.s_grammar.specs.Kinds.{kind_of, is};
ghost use Rattle.s_grammar.specs.Texts.{text_of, number};
ghost use Rattle.s_grammar.specs.Reads.{key, name, int};
ghost use Rattle.s_expr.specs.Places.{ReadsAt};

use crate::source::Source;
use crate::stop::Stop;
use s_lex::number_of;
use s_syntax::{Kind, Name, Number, Token};

/// The kind of the token at the place, or that of the end.
pub fn kind_at(source: &Source, at: usize) -> Kind
    ensures value { result ≡ kind_of (drop at source.now.tokens.now) }
{
    if at < source.tokens.len() {
        source.tokens[at].kind
    } else {
        Kind::End
    }
}

/// Whether the second is of the first kind.
pub fn is_kind(kind: Kind, other: Kind) -> bool
    ensures answer { result ≡ is kind other }
{
    kind as u8 == other as u8
}

/// A token of this kind.
pub fn expect(source: &Source, at: usize, kind: Kind) -> Result<(Token, usize), Stop>
    requires within { at ≤ length source.now.tokens.now }
    ensures reads { ReadsAt (key kind) source.now.tokens.now at result }
{
    if at >= source.tokens.len() {
        return Err(Stop::Wrong(at));
    }
    let token = source.tokens[at];
    if !is_kind(kind, token.kind) {
        return Err(Stop::Wrong(at));
    }
    Ok((token, at + 1))
}

// The bytes of a token.
fn text(bytes: &[u8], token: Token) -> &[u8]
    requires forward { token.start ≤ token.end }
    requires within { token.end ≤ length bytes.now }
    ensures value { result.now ≡ text_of bytes.now token }
{
    &bytes[token.start..token.end]
}

// The number of digits, cut to the greatest one; the text of no token stands for more.
fn number(digits: &[u8]) -> Number
    ensures value { result ≡ number (value digits.now) }
{
    match number_of(digits) {
        Some(number) => number,
        None => Number {
            value: 9223372036854775807,
        },
    }
}

/// A name.
pub fn name_at(source: &Source, at: usize) -> Result<(Name, usize), Stop>
    requires within { at ≤ length source.now.tokens.now }
    ensures reads { ReadsAt (name source.now.bytes.now) source.now.tokens.now at result }
{
    let (token, next) = expect(source, at, Kind::Name)?;
    let name = Name::new(source.alloc, text(source.bytes, token))?;
    Ok((name, next))
}

/// A number.
pub fn int_at(source: &Source, at: usize) -> Result<(Number, usize), Stop>
    requires within { at ≤ length source.now.tokens.now }
    ensures reads { ReadsAt (int source.now.bytes.now) source.now.tokens.now at result }
{
    let (token, next) = expect(source, at, Kind::Int)?;
    Ok((number(text(source.bytes, token)), next))
}
