//! Words that are read and written.
ghost use Rattle.std.specs.Prelude.{◌≡◌, ◌++◌, Some, None, IfSome, IfNone, OnOk};
ghost use Rattle.std.specs.Str.{bytes_eq};
ghost use Rattle.w_words.specs.Words.{behind};

use std::alloc::AllocError;

/// What a word spells.
pub trait ReadWord: Sized {
    ghost use Rattle.std.specs.Prelude.{◌≡◌, Option};
    ghost use Rattle.w_words.specs.Words.{Word};

    /// What a word is.
    ghost of: { Word → Option Self };

    /// What a word is, where it is one of these.
    fn read(word: &[u8]) -> Option<Self>
        ensures { result ≡ of word.now };
}

/// What is written as one word.
pub trait PutWord {
    ghost use Rattle.std.specs.Prelude.{◌≡◌, ◌++◌, OnOk};
    ghost use Rattle.w_words.specs.Words.{Word};

    /// Its word.
    ghost word: { Self → Word };

    /// Writes it behind the bytes so far. It fails only for want of memory.
    fn put(&self, out: &mut Vec<u8>) -> Result<(), AllocError>
        ensures { OnOk result (out.new.items ≡ out.old.items ++ word self.now) };
}

/// Whether a word is this one.
pub fn is(word: &[u8], text: &str) -> bool
    ensures { result ≡ bytes_eq word.now text.now }
{
    word == text.as_bytes()
}

/// What stands behind a prefix.
#[tactic(auto, using(crate::proofs::Readings::begins_so, crate::proofs::Readings::begins_otherwise))]
pub fn behind<'a>(word: &'a [u8], prefix: &str) -> Option<&'a [u8]>
    ensures some { IfSome result (λ rest. behind prefix.now word.now ≡ Some rest.now) }
    ensures none { IfNone result (behind prefix.now word.now ≡ None) }
{
    match word.strip_prefix(prefix.as_bytes()) {
        Some(rest) => Some(rest),
        None => None,
    }
}

/// Writes a text.
pub fn put_text(text: &str, out: &mut Vec<u8>) -> Result<(), AllocError>
    ensures { OnOk result (out.new.items ≡ out.old.items ++ text.now) }
{
    out.extend_from_slice(text.as_bytes())?;
    Ok(())
}
