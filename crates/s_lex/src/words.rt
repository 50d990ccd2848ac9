//! Texts of words, numbers and symbols.
ghost use Rattle.std.specs.Prelude.{◌≡◌, ◌-◌, ◌<◌, [], ◌∷◌, IfSome, IfNone};
ghost use Rattle.s_lex.specs.Texts.{kind_in, kind_by, inner_keywords, word_kind, value, greatest, long_symbols, short_symbols};

use s_syntax::{Kind, Number};

// The kind of a word that is a keyword of types or expressions, or else a name.
fn inner_word_kind(text: &[u8]) -> Kind
    ensures value { result ≡ kind_by inner_keywords text.now }
{
    if text == "do".as_bytes() {
        Kind::Do
    } else if text == "handle".as_bytes() {
        Kind::Handle
    } else if text == "with".as_bytes() {
        Kind::With
    } else if text == "resume".as_bytes() {
        Kind::Resume
    } else if text == "group".as_bytes() {
        Kind::Group
    } else if text == "res".as_bytes() {
        Kind::Res
    } else if text == "coro".as_bytes() {
        Kind::Coro
    } else {
        Kind::Name
    }
}

/// The kind of a word: that of a keyword, or else a name.
#[tactic(auto, unfolding(crate::specs::Texts::word_kind))]
pub(crate) fn word_kind(text: &[u8]) -> Kind
    ensures value { result ≡ word_kind text.now }
{
    if text == "effect".as_bytes() {
        Kind::Effect
    } else if text == "fn".as_bytes() {
        Kind::Fn
    } else if text == "handler".as_bytes() {
        Kind::Handler
    } else if text == "slots".as_bytes() {
        Kind::Slots
    } else if text == "return".as_bytes() {
        Kind::Return
    } else if text == "on".as_bytes() {
        Kind::On
    } else if text == "let".as_bytes() {
        Kind::Let
    } else if text == "if".as_bytes() {
        Kind::If
    } else if text == "else".as_bytes() {
        Kind::Else
    } else if text == "while".as_bytes() {
        Kind::While
    } else if text == "print".as_bytes() {
        Kind::Print
    } else if text == "fail".as_bytes() {
        Kind::Fail
    } else if text == "store".as_bytes() {
        Kind::Store
    } else if text == "take".as_bytes() {
        Kind::Take
    } else if text == "spawn".as_bytes() {
        Kind::Spawn
    } else if text == "switch".as_bytes() {
        Kind::Switch
    } else {
        inner_word_kind(text)
    }
}

/// The kind of a symbol of two bytes; `None` where they are none.
pub(crate) fn long_symbol(first: u8, second: u8) -> Option<Kind>
    ensures value { result ≡ kind_in long_symbols (first ∷ second ∷ []) }
{
    match (first, second) {
        (b'=', b'=') => Some(Kind::Equal),
        (b'!', b'=') => Some(Kind::NotEqual),
        (b'<', b'=') => Some(Kind::AtMost),
        (b'>', b'=') => Some(Kind::AtLeast),
        (b'&', b'&') => Some(Kind::And),
        (b'|', b'|') => Some(Kind::Or),
        _ => None,
    }
}

/// The kind of a symbol of one byte; `None` where it is none.
pub(crate) fn short_symbol(byte: u8) -> Option<Kind>
    ensures value { result ≡ kind_in short_symbols (byte ∷ []) }
{
    match byte {
        b'(' => Some(Kind::OpenParenthesis),
        b')' => Some(Kind::CloseParenthesis),
        b'{' => Some(Kind::OpenBrace),
        b'}' => Some(Kind::CloseBrace),
        b'[' => Some(Kind::OpenBracket),
        b']' => Some(Kind::CloseBracket),
        b',' => Some(Kind::Comma),
        b';' => Some(Kind::Semicolon),
        b':' => Some(Kind::Colon),
        b'/' => Some(Kind::Slash),
        b'=' => Some(Kind::Assign),
        b'+' => Some(Kind::Plus),
        b'-' => Some(Kind::Minus),
        b'*' => Some(Kind::Star),
        b'%' => Some(Kind::Percent),
        b'<' => Some(Kind::Less),
        b'>' => Some(Kind::Greater),
        b'!' => Some(Kind::Not),
        _ => None,
    }
}

// What a digit stands for.
fn digit(byte: u8) -> u64
    ensures value { result ≡ byte - 48 }
{
    u64::from(byte.saturating_sub(b'0'))
}

/// The number that digits stand for; `None` where it is above 9223372036854775807.
pub fn number_of(digits: &[u8]) -> Option<Number>
    ensures some { IfSome result (λ n. n.value ≡ value digits.now) }
    ensures none { IfNone result (greatest < value digits.now) }
{
    let mut value: u64 = 0;
    for byte in digits {
        let digit = digit(*byte);
        if value > (9223372036854775807 - digit) / 10 {
            return None;
        }
        value = value * 10 + digit;
    }
    Some(Number { value })
}
