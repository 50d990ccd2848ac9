//! Lines of a first word and others.
ghost use Rattle.std.specs.Prelude.{◌≡◌, ◌++◌, [], ◌∷◌, OnOk, decimal, map};
ghost use Rattle.w_words.specs.Words.{behind_spaces};
ghost use Rattle.w_lines.specs.Written.{named_bytes};

use std::alloc::AllocError;
use w_words::{PutWord, put_each, put_number, put_text};

/// Ends a line.
pub(crate) fn end_line(out: &mut Vec<u8>) -> Result<(), AllocError>
    ensures { OnOk result (out.new.items ≡ out.old.items ++ 10 ∷ []) }
{
    out.push(b'\n')?;
    Ok(())
}

/// Writes a word behind a space.
pub(crate) fn put_spaced<T: PutWord>(item: &T, out: &mut Vec<u8>) -> Result<(), AllocError>
    ensures { OnOk result (out.new.items ≡ out.old.items ++ behind_spaces (T.word item.now ∷ [])) }
{
    out.push(b' ')?;
    item.put(out)
}

/// Writes a text behind a space.
pub(crate) fn put_spaced_text(text: &str, out: &mut Vec<u8>) -> Result<(), AllocError>
    ensures { OnOk result (out.new.items ≡ out.old.items ++ behind_spaces (text.now ∷ [])) }
{
    out.push(b' ')?;
    put_text(text, out)
}

/// Writes a number behind a space.
pub(crate) fn put_spaced_number(number: u64, out: &mut Vec<u8>) -> Result<(), AllocError>
    ensures { OnOk result (out.new.items ≡ out.old.items ++ behind_spaces (decimal number ∷ [])) }
{
    out.push(b' ')?;
    put_number(number, out)
}

/// Writes a line that is its name alone.
pub(crate) fn put_alone(name: &str, out: &mut Vec<u8>) -> Result<(), AllocError>
    ensures { OnOk result (out.new.items ≡ out.old.items ++ named_bytes name.now []) }
{
    put_text(name, out)?;
    end_line(out)
}

/// Writes a line of a name and a word.
pub(crate) fn put_word<T: PutWord>(
    name: &str,
    item: &T,
    out: &mut Vec<u8>,
) -> Result<(), AllocError>
    ensures { OnOk result (out.new.items ≡ out.old.items ++ named_bytes name.now (T.word item.now ∷ [])) }
{
    put_text(name, out)?;
    put_spaced(item, out)?;
    end_line(out)
}

/// Writes a line of a name and an index.
pub(crate) fn put_index(name: &str, index: u32, out: &mut Vec<u8>) -> Result<(), AllocError>
    ensures { OnOk result (out.new.items ≡ out.old.items ++ named_bytes name.now (decimal index ∷ [])) }
{
    put_word(name, &index, out)
}

/// Writes a line of a name and two numbers.
pub(crate) fn put_numbers(
    name: &str,
    first: u64,
    second: u64,
    out: &mut Vec<u8>,
) -> Result<(), AllocError>
    ensures { OnOk result (out.new.items ≡ out.old.items ++ named_bytes name.now (decimal first ∷ decimal second ∷ [])) }
{
    put_text(name, out)?;
    put_spaced_number(first, out)?;
    put_spaced_number(second, out)?;
    end_line(out)
}

/// Writes a line of a name and two indices.
pub(crate) fn put_indices(
    name: &str,
    first: u32,
    second: u32,
    out: &mut Vec<u8>,
) -> Result<(), AllocError>
    ensures { OnOk result (out.new.items ≡ out.old.items ++ named_bytes name.now (decimal first ∷ decimal second ∷ [])) }
{
    put_numbers(name, u64::from(first), u64::from(second), out)
}

/// Writes a line of a name and a list of words.
pub(crate) fn put_words<T: PutWord>(
    name: &str,
    items: &[T],
    out: &mut Vec<u8>,
) -> Result<(), AllocError>
    ensures { OnOk result (out.new.items ≡ out.old.items ++ named_bytes name.now (map T.word items.now)) }
{
    put_text(name, out)?;
    put_each(items, out)?;
    end_line(out)
}
