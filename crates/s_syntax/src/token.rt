//! Tokens.

/// What a token is: a name, a number, one of the keywords, one of the symbols, or the end.
#[derive(Clone, Copy, Debug, PartialEq, Eq)]
pub enum Kind {
    /// A name: a word that is no keyword.
    Name,
    /// A number, at most 9223372036854775807.
    Int,
    /// `effect`.
    Effect,
    /// `fn`.
    Fn,
    /// `handler`.
    Handler,
    /// `return`.
    Return,
    /// `on`.
    On,
    /// `let`.
    Let,
    /// `if`.
    If,
    /// `else`.
    Else,
    /// `while`.
    While,
    /// `print`.
    Print,
    /// `fail`.
    Fail,
    /// `do`.
    Do,
    /// `handle`.
    Handle,
    /// `with`.
    With,
    /// `resume`.
    Resume,
    /// `res`.
    Res,
    /// `slots`.
    Slots,
    /// `store`.
    Store,
    /// `take`.
    Take,
    /// `spawn`.
    Spawn,
    /// `switch`.
    Switch,
    /// `group`.
    Group,
    /// `coro`.
    Coro,
    /// `==`.
    Equal,
    /// `!=`.
    NotEqual,
    /// `<=`.
    AtMost,
    /// `>=`.
    AtLeast,
    /// `&&`.
    And,
    /// `||`.
    Or,
    /// `(`.
    OpenParenthesis,
    /// `)`.
    CloseParenthesis,
    /// `{`.
    OpenBrace,
    /// `}`.
    CloseBrace,
    /// `[`.
    OpenBracket,
    /// `]`.
    CloseBracket,
    /// `,`.
    Comma,
    /// `;`.
    Semicolon,
    /// `:`.
    Colon,
    /// `/`.
    Slash,
    /// `=`.
    Assign,
    /// `+`.
    Plus,
    /// `-`.
    Minus,
    /// `*`.
    Star,
    /// `%`.
    Percent,
    /// `<`.
    Less,
    /// `>`.
    Greater,
    /// `!`.
    Not,
    /// The end of the file, which stands behind the last token and has no text.
    End,
}

/// A token, and where its text stands in the source: from byte `start` up to byte `end`, which is not in it.
#[derive(Clone, Copy, Debug, PartialEq, Eq)]
pub struct Token {
    pub kind: Kind,
    pub start: usize,
    pub end: usize,
}
