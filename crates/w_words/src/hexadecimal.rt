//! Bytes in hexadecimal.
ghost use Rattle.std.specs.Prelude.{◌≡◌, ◌++◌, IfOk, OnOk};
ghost use Rattle.w_words.specs.Hexadecimal.{in_lower_case, bytes_of, bytes_word, as_name, name_of};
ghost use Rattle.hex.specs.Hex.{decode_of};

use hex::FromHexError;
use lists::ListOf;
use std::alloc::{AllocError, Global};
use w_syntax::Name;

// The bytes of digits, which are all in lower case.
fn bytes_of_digits(alloc: Global, digits: &[u8]) -> Result<Option<ListOf<u8>>, AllocError>
    ensures { IfOk result (λ bytes. bytes ≡ in_lower_case digits.now (decode_of digits.now)) }
{
    match hex::decode(alloc, digits) {
        Ok(bytes) => {
            let in_lower_case = hex::encode(alloc, bytes.as_slice())?;
            if digits != in_lower_case.as_bytes() {
                return Ok(None);
            }
            Ok(Some(ListOf::from_vec(bytes)))
        }
        Err(FromHexError::OutOfMemory) => Err(AllocError),
        Err(_) => Ok(None),
    }
}

/// The bytes that a word is, in hexadecimal behind `x`. It fails only for want of memory.
pub fn bytes_of(alloc: Global, word: &[u8]) -> Result<Option<ListOf<u8>>, AllocError>
    ensures { IfOk result (λ bytes. bytes ≡ bytes_of word.now) }
{
    match word {
        [] => Ok(None),
        [first, digits @ ..] => {
            if *first != b'x' {
                return Ok(None);
            }
            bytes_of_digits(alloc, digits)
        }
    }
}

// The name that is these bytes, where they are UTF-8.
#[tactic(auto, using(crate::proofs::HexadecimalWords::is_no_name))]
fn as_name(bytes: ListOf<u8>) -> Option<Name>
    ensures { result ≡ as_name bytes }
{
    match String::from_utf8(bytes.into_vec()) {
        Ok(text) => Some(Name::new(text)),
        Err(_) => None,
    }
}

/// The name that a word is: bytes that are UTF-8. It fails only for want of memory.
pub fn name_of(alloc: Global, word: &[u8]) -> Result<Option<Name>, AllocError>
    ensures { IfOk result (λ name. name ≡ name_of word.now) }
{
    let Some(bytes) = bytes_of(alloc, word)? else {
        return Ok(None);
    };
    Ok(as_name(bytes))
}

/// Writes bytes in hexadecimal behind `x`.
pub fn put_bytes(bytes: &[u8], out: &mut Vec<u8>) -> Result<(), AllocError>
    ensures { OnOk result (out.new.items ≡ out.old.items ++ bytes_word bytes.now) }
{
    let alloc = *out.allocator();
    let digits = hex::encode(alloc, bytes)?;
    out.push(b'x')?;
    out.extend_from_slice(digits.as_bytes())?;
    Ok(())
}
