//! The words of labels and of clauses of handlers.
ghost use Rattle.std.specs.Prelude.{◌≡◌, Some, None, IfOk, IfSome, IfNone};
ghost use Rattle.w_words.specs.Clauses.{last_apart, labels_of, parted, clause_word, label_in, label_of, switch_of, clause_of};
ghost use Rattle.w_words.specs.Numbers.{number_of};

use crate::numbers::{index_of, put_number};
use crate::word::{PutWord, ReadWord, behind, put_text};
use crate::word_lists::read_each;
use crate::words::Words;
use lists::ListOf;
use std::alloc::{AllocError, Global};
use w_syntax::Clause;

// The last of some labels apart.
#[tactic(auto, using(crate::proofs::ClauseWords::last_behind))]
fn last_apart(labels: ListOf<u32>) -> Option<(ListOf<u32>, u32)>
    ensures { result ≡ last_apart labels }
{
    let mut labels = labels.into_vec();
    let last = labels.pop()?;
    Some((ListOf::from_vec(labels), last))
}

/// The labels that the words to come are, of which the last stands apart. It fails only for want of memory.
pub fn labels_of(alloc: Global, words: &mut Words) -> Result<Option<(ListOf<u32>, u32)>, AllocError>
    ensures { IfOk result (λ labels. labels ≡ labels_of words.old) }
{
    let Some(labels) = read_each(alloc, words)? else {
        return Ok(None);
    };
    Ok(last_apart(labels))
}

// What stands before the first colon, and behind it.
#[tactic(auto, using(crate::proofs::Colons::seek_begins, crate::proofs::Colons::seek_goes_on, crate::proofs::Colons::colon_found, crate::proofs::Colons::no_colon_left))]
fn parted(word: &[u8]) -> Option<(&[u8], &[u8])>
    ensures some { IfSome result (λ p. parted word.now ≡ Some (p.0.now, p.1.now)) }
    ensures none { IfNone result (parted word.now ≡ None) }
{
    for place in 0..word.len() {
        if word[place] == b':' {
            return Some((&word[..place], &word[place + 1..]));
        }
    }
    None
}

// The clause of a label that a word is.
fn label_of(word: &[u8]) -> Option<Clause>
    ensures { result ≡ label_of word.now }
{
    let rest = behind(word, "on:")?;
    let (tag, label) = parted(rest)?;
    let tag = index_of(tag)?;
    let label = index_of(label)?;
    Some(Clause::Label(tag, label))
}

// The clause for switches that a word is.
fn switch_of(word: &[u8]) -> Option<Clause>
    ensures { result ≡ switch_of word.now }
{
    let rest = behind(word, "switch:")?;
    let tag = index_of(rest)?;
    Some(Clause::Switch(tag))
}

impl ReadWord for Clause {
    ghost of = { clause_of };

    fn read(word: &[u8]) -> Option<Clause> {
        match label_of(word) {
            Some(clause) => Some(clause),
            None => switch_of(word),
        }
    }
}

impl PutWord for Clause {
    ghost word = { clause_word };

    fn put(&self, out: &mut Vec<u8>) -> Result<(), AllocError> {
        match *self {
            Clause::Label(tag, label) => {
                put_text("on:", out)?;
                put_number(u64::from(tag), out)?;
                put_text(":", out)?;
                put_number(u64::from(label), out)
            }
            Clause::Switch(tag) => {
                put_text("switch:", out)?;
                put_number(u64::from(tag), out)
            }
        }
    }
}
