//! What stands in front of bytes.

use s_syntax::Kind;

/// What stands in front of bytes, and how many of them it takes.
#[derive(Clone, Copy)]
pub(crate) enum Piece {
    /// A separator or a comment.
    Blank(usize),
    Token(Kind, usize),
    /// Neither of these.
    Bad,
}
