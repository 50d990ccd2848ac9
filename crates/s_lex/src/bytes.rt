//! Kinds of bytes, and runs of bytes of a kind.
ghost use Rattle.std.specs.Prelude.{◌≡◌, ◌≤◌, ◌+◌, length, drop};
ghost use Rattle.s_lex.specs.Bytes.{is_separator, is_digit, is_letter, is_of};
ghost use Rattle.s_lex.specs.Pieces.{run};

/// The bytes that a word, a number or a comment goes on with.
#[derive(Clone, Copy)]
pub(crate) enum ByteClass {
    Word,
    Number,
    Comment,
}

/// Space, tab, line feed and carriage return.
pub(crate) fn is_separator(byte: u8) -> bool
    ensures answer { result ≡ is_separator byte }
{
    matches!(byte, b' ' | b'\t' | b'\n' | b'\r')
}

/// A decimal digit.
pub(crate) fn is_digit(byte: u8) -> bool
    ensures answer { result ≡ is_digit byte }
{
    matches!(byte, b'0'..=b'9')
}

/// A letter of ASCII, or `_`.
pub(crate) fn is_letter(byte: u8) -> bool
    ensures answer { result ≡ is_letter byte }
{
    matches!(byte, b'a'..=b'z' | b'A'..=b'Z' | b'_')
}

impl ByteClass {
    // Whether a byte is one of them.
    fn has(self, byte: u8) -> bool
        ensures answer { result ≡ is_of self byte }
    {
        match self {
            ByteClass::Word => is_letter(byte) || is_digit(byte),
            ByteClass::Number => is_digit(byte),
            ByteClass::Comment => byte != b'\n',
        }
    }
}

/// The place behind all the bytes of a class that stand from a place on.
pub(crate) fn end_of(bytes: &[u8], start: usize, class: ByteClass) -> usize
    requires within { start ≤ length bytes.now }
    ensures runs { result ≡ start + run (is_of class) (drop start bytes.now) }
    ensures within { result ≤ length bytes.now }
{
    let mut at = start;
    while at < bytes.len() && class.has(bytes[at]) {
        at += 1;
    }
    at
}
