//! Bytes cut into tokens.
ghost use Rattle.std.specs.Prelude.{◌≡◌, ◌≢◌, ◌<◌, ◌+◌, List, Result, Ok, Err, IfOk, IfErr, All, length, drop, take, suc, slice_range};
ghost use Rattle.s_lex.specs.Bytes.{is_letter, is_digit};
ghost use Rattle.s_lex.specs.Texts.{IsText, kind_in, long_symbols};
ghost use Rattle.s_lex.specs.Stands.{begins};
ghost use Rattle.s_lex.specs.Pieces.{run, number_piece, symbol_piece, piece_of};
ghost use Rattle.s_lex.specs.Lexes.{Lexed, Lexes, AreInOrder, IsAnswer};
ghost use Rattle.s_lex.specs.declared.fault.LexFault.TheVariants.{OutOfMemory};

use crate::bytes::{ByteClass, end_of, is_digit, is_letter, is_separator};
use crate::fault::LexFault;
use crate::piece::Piece;
use crate::words::{long_symbol, number_of, short_symbol, word_kind};
use lists::ListOf;
use s_syntax::{Kind, Token};
use std::alloc::Global;

// Whether a letter stands at the place.
fn letter_at(bytes: &[u8], at: usize) -> bool
    ensures answer { result ≡ begins is_letter (drop at bytes.now) }
{
    at < bytes.len() && is_letter(bytes[at])
}

// The symbol of two bytes at the place.
fn long_symbol_at(bytes: &[u8], at: usize) -> Option<Kind>
    requires within { at < length bytes.now }
    ensures value { result ≡ kind_in long_symbols (take 2 (drop at bytes.now)) }
{
    if at + 1 < bytes.len() {
        long_symbol(bytes[at], bytes[at + 1])
    } else {
        None
    }
}

// The symbol at the place, the longer one where two begin there.
fn symbol_at(bytes: &[u8], at: usize) -> Piece
    requires within { at < length bytes.now }
    ensures value { result ≡ symbol_piece (drop at bytes.now) }
{
    match (long_symbol_at(bytes, at), short_symbol(bytes[at])) {
        (Some(kind), _) => Piece::Token(kind, 2),
        (None, Some(kind)) => Piece::Token(kind, 1),
        (None, None) => Piece::Bad,
    }
}

// The number that begins with the digit at the place.
fn number_at(bytes: &[u8], at: usize) -> Piece
    requires within { at < length bytes.now }
    ensures value { result ≡ number_piece (suc (run is_digit (drop (at + 1) bytes.now))) (drop at bytes.now) }
{
    let end = end_of(bytes, at + 1, ByteClass::Number);
    if letter_at(bytes, end) {
        return Piece::Bad;
    }
    match number_of(&bytes[at..end]) {
        Some(_) => Piece::Token(Kind::Int, end - at),
        None => Piece::Bad,
    }
}

// What stands at the place.
fn piece_at(bytes: &[u8], at: usize) -> Piece
    requires within { at < length bytes.now }
    ensures value { result ≡ piece_of (drop at bytes.now) }
{
    let byte = bytes[at];
    if is_separator(byte) {
        return Piece::Blank(1);
    }
    if byte == b'#' {
        return Piece::Blank(end_of(bytes, at + 1, ByteClass::Comment) - at);
    }
    if is_letter(byte) {
        let end = end_of(bytes, at + 1, ByteClass::Word);
        return Piece::Token(word_kind(&bytes[at..end]), end - at);
    }
    if is_digit(byte) {
        return number_at(bytes, at);
    }
    symbol_at(bytes, at)
}

/// The tokens of a script, from front to back, without its separators and comments. `Lex` is the place of the first byte where no token,
/// separator or comment begins. `OutOfMemory` may come of any bytes. Each byte is looked at a few times at most.
pub fn lex(alloc: Global, bytes: &[u8]) -> Result<ListOf<Token>, LexFault>
    // What is answered is how the bytes are cut, and a fault stands where they cannot be.
    ensures ok { IfOk result (λ ts. Lexes 0 bytes.now (Ok ts)) }
    ensures err { IfErr result (λ e. e ≢ OutOfMemory → Lexes 0 bytes.now (Err e)) }

    // However they are cut, that is answered, unless memory runs out.
    ensures only { (r : Lexed) → Lexes 0 bytes.now r → IsAnswer r result }

    // The tokens stand one behind another, and what stands at each is a text of its kind.
    ensures order { IfOk result (λ ts. AreInOrder 0 (length bytes.now) ts) }
    ensures texts { IfOk result (λ ts. All (λ t. IsText t.kind (slice_range bytes.now t.start t.end)) ts) }
{
    let mut tokens = ListOf::new(alloc);
    let mut at = 0;
    while at < bytes.len() {
        match piece_at(bytes, at) {
            Piece::Blank(count) => at += count,
            Piece::Token(kind, count) => {
                let (start, end) = (at, at + count);
                tokens.push(Token { kind, start, end })?;
                at = end;
            }
            Piece::Bad => return Err(LexFault::Lex(at)),
        }
    }
    Ok(tokens)
}
