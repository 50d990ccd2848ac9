//! Lists of words.
ghost use Rattle.std.specs.Prelude.{◌≡◌, ◌++◌, map, option_map, IfOk, OnOk};
ghost use Rattle.w_words.specs.Words.{behind_spaces, one_of, two_of, each_of, each_until};

use crate::word::{PutWord, ReadWord, is};
use crate::words::Words;
use lists::ListOf;
use std::alloc::{AllocError, Global};

/// What each of the words to come is. It fails only for want of memory.
pub fn read_each<T: ReadWord + Drop>(
    alloc: Global,
    words: &mut Words,
) -> Result<Option<ListOf<T>>, AllocError>
    ensures { IfOk result (λ items. items ≡ each_of T.of words.old) }
{
    let mut items = Vec::new(alloc);
    while let Some(word) = words.next() {
        let Some(item) = T::read(word) else {
            return Ok(None);
        };
        items.push(item)?;
    }
    Ok(Some(ListOf::from_vec(items)))
}

/// What each of the words to come is up to the first that is `end`, behind which it stops. It fails only for want of memory.
pub fn read_until<T: ReadWord + Drop>(
    alloc: Global,
    end: &str,
    words: &mut Words,
) -> Result<Option<ListOf<T>>, AllocError>
    ensures { IfOk result (λ items. option_map (λ xs. (xs, words.new)) items ≡ each_until end.now T.of words.old) }
{
    let mut items = Vec::new(alloc);
    while let Some(word) = words.next() {
        if is(word, end) {
            return Ok(Some(ListOf::from_vec(items)));
        }
        let Some(item) = T::read(word) else {
            return Ok(None);
        };
        items.push(item)?;
    }
    Ok(None)
}

/// Writes words, each behind a space.
pub fn put_each<T: PutWord>(items: &[T], out: &mut Vec<u8>) -> Result<(), AllocError>
    ensures { OnOk result (out.new.items ≡ out.old.items ++ behind_spaces (map T.word items.now)) }
{
    for item in items {
        out.push(b' ')?;
        item.put(out)?;
    }
    Ok(())
}

/// What the word to come is, where there is just one.
pub fn read_one<T: ReadWord>(words: &mut Words) -> Option<T>
    ensures { result ≡ one_of T.of words.old }
{
    let word = words.only()?;
    T::read(word)
}

/// What the words to come are, where there are just two.
pub fn read_two<T: ReadWord + Drop, U: ReadWord>(words: &mut Words) -> Option<(T, U)>
    ensures { result ≡ two_of T.of U.of words.old }
{
    let (first, second) = words.pair()?;
    let first = T::read(first)?;
    let second = U::read(second)?;
    Some((first, second))
}
