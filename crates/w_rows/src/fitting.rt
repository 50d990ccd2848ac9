//! Whether words tell that rows of types match. Each loop goes through all, so that the comparison has no branches.
ghost use Rattle.std.specs.Prelude.{◌≡◌, IsTrue, length};
ghost use Rattle.w_rows.specs.Fitting.{AreApart, AreBelow, words_of};
ghost use Rattle.w_rows.specs.Words.{bit_of, TellBelow};

use crate::operand::Operand;

// A bit as a number.
#[inline(always)]
fn bit(set: bool) -> u32
    ensures { result ≡ bit_of set }
{
    if set { 1 } else { 0 }
}

// Zero where a given word and a wanted one, with the length of its span, tell that the first type matches the second: they have no bit in
// common, or only of their classes, and the class of the one begins within the span of the other.
#[inline(always)]
fn apart_by(given: u32, wanted: u32, length: u32) -> u32
    ensures { result ≡ 0 → TellBelow given wanted length }
{
    let common = given & wanted;
    let class = given / 262144;
    let from = wanted / 16 % 16384;
    let before = bit(class < from);
    let behind = bit(class.wrapping_sub(from) >= length);
    let differ = bit(common != 0);
    common % 16 | (before | behind) & differ
}

/// Whether no word has a bit in common with the other at its place.
pub(crate) fn are_apart(given: &[u32], wanted: &[u32]) -> bool
    requires { length given.now ≡ length wanted.now }
    ensures { IsTrue result → AreApart given.now wanted.now }
{
    let mut common = 0;
    for i in 0..wanted.len() {
        let one = given[i];
        let other = wanted[i];
        common |= one & other;
    }
    common == 0
}

// Whether each given word and the wanted one at its place, with the length of its span, tell that the types match (`TellBelow`).
fn are_below(given: &[u32], wanted: &[u32], lengths: &[u32]) -> bool
    requires words { length given.now ≡ length wanted.now }
    requires lengths { length lengths.now ≡ length wanted.now }
    ensures { IsTrue result → AreBelow given.now wanted.now lengths.now }
{
    let mut apart = 0;
    for i in 0..wanted.len() {
        apart |= apart_by(given[i], wanted[i], lengths[i]);
    }
    apart == 0
}

/// Whether there are as many words on both sides, and each given one and the wanted one at its place, with the length of its span, tell that
/// the types match (`TellBelow`). Mostly the loop that has less to do tells it.
#[tactic(auto, using(crate::proofs::WordRows::apart_below))]
pub(crate) fn words_fit(given: &[u32], wanted: &[u32], lengths: &[u32]) -> bool
    ensures { IsTrue result → (length given.now ≡ length wanted.now) × AreBelow given.now wanted.now lengths.now }
{
    if given.len() != wanted.len() || lengths.len() != wanted.len() {
        return false;
    }
    are_apart(given, wanted) || are_below(given, wanted, lengths)
}

// Whether no operand has a bit in common with the word at its place.
fn operands_are_apart(operands: &[Operand], words: &[u32]) -> bool
    requires { length operands.now ≡ length words.now }
    ensures { IsTrue result → AreApart (words_of operands.now) words.now }
{
    let mut common = 0;
    for i in 0..words.len() {
        let given = operands[i].word;
        let wanted = words[i];
        common |= given & wanted;
    }
    common == 0
}

// Whether the word of each operand tells that it matches the type of the word at its place, with the length of its span (`TellBelow`).
fn operands_are_below(operands: &[Operand], words: &[u32], lengths: &[u32]) -> bool
    requires words { length operands.now ≡ length words.now }
    requires lengths { length lengths.now ≡ length words.now }
    ensures { IsTrue result → AreBelow (words_of operands.now) words.now lengths.now }
{
    let mut apart = 0;
    for i in 0..words.len() {
        let given = operands[i].word;
        apart |= apart_by(given, words[i], lengths[i]);
    }
    apart == 0
}

/// Whether the word of each operand tells that it matches the type of the word at its place, with the length of its span (`TellBelow`). Mostly
/// the loop that has less to do tells it.
#[tactic(auto, using(crate::proofs::WordRows::apart_below))]
pub fn operands_fit(operands: &[Operand], words: &[u32], lengths: &[u32]) -> bool
    requires words { length operands.now ≡ length words.now }
    requires lengths { length lengths.now ≡ length words.now }
    ensures { IsTrue result → AreBelow (words_of operands.now) words.now lengths.now }
{
    operands_are_apart(operands, words) || operands_are_below(operands, words, lengths)
}
