//! The words of a line, one after the other.
ghost use Rattle.std.specs.Prelude.{◌≡◌, ◌<◌, ◌+◌, [], ◌∷◌, length, take, drop, IfSome, IfNone};
ghost use Rattle.w_words.specs.Words.{words_of};

use std::marker::Model;

/// The words of a line that are still to come: what is parted by single spaces. A word may be empty.
#[derive(Drop)]
pub struct Words<'a> {
    rest: Option<&'a [u8]>,
}

impl<'a> Model for Words<'a> {
    ghost use Rattle.std.specs.Prelude.{List};
    ghost use Rattle.w_words.specs.Words.{Word, words_in};

    ghost Value = { List Word };

    ghost view = { λ a. words_in a.rest };
}

// The place of the first space.
#[tactic(auto, using(crate::proofs::Lines::word_begins, crate::proofs::Lines::word_goes_on, crate::proofs::Lines::word_ends, crate::proofs::Lines::line_ends))]
fn space_in(line: &[u8]) -> Option<usize>
    ensures some { IfSome result (λ place. (place < length line.now) × (words_of line.now ≡ take place line.now ∷ words_of (drop (place + 1) line.now))) }
    ensures none { IfNone result (words_of line.now ≡ line.now ∷ []) }
{
    for place in 0..line.len() {
        if line[place] == b' ' {
            return Some(place);
        }
    }
    None
}

impl<'a> Words<'a> {
    ghost use Rattle.std.specs.Prelude.{◌≡◌, [], ◌∷◌, None, IfSome, IfNone};
    ghost use Rattle.w_words.specs.Words.{words_of, only, pair};

    /// The words of a line, of which there is at least one.
    pub fn of_line(line: &'a [u8]) -> Words<'a>
        ensures { result ≡ words_of line.now }
    {
        Words { rest: Some(line) }
    }

    /// The next word.
    pub fn next(&mut self) -> Option<&'a [u8]>
        ensures some { IfSome result (λ word. self.old ≡ word.now ∷ self.new) }
        ensures none { IfNone result ((self.old ≡ []) × (self.new ≡ [])) }
    {
        let line = self.rest?;
        match space_in(line) {
            Some(place) => {
                self.rest = Some(&line[place + 1..]);
                Some(&line[..place])
            }
            None => {
                self.rest = None;
                Some(line)
            }
        }
    }

    /// The rest of the line, whose words are those still to come; `None` where none is.
    pub fn rest(&self) -> Option<&'a [u8]>
        ensures some { IfSome result (λ rest. self.now ≡ words_of rest.now) }
        ensures none { IfNone result (self.now ≡ []) }
    {
        self.rest
    }

    /// The word to come, where there is just one. What is left behind it is not said.
    pub fn only(&mut self) -> Option<&'a [u8]>
        ensures some { IfSome result (λ word. self.old ≡ word.now ∷ []) }
        ensures none { IfNone result (only self.old ≡ None) }
    {
        let word = self.next()?;
        match self.next() {
            Some(_) => None,
            None => Some(word),
        }
    }

    /// The words to come, where there are just two. What is left behind them is not said.
    pub fn pair(&mut self) -> Option<(&'a [u8], &'a [u8])>
        ensures some { IfSome result (λ words. self.old ≡ words.0.now ∷ words.1.now ∷ []) }
        ensures none { IfNone result (pair self.old ≡ None) }
    {
        let first = self.next()?;
        let second = self.only()?;
        Some((first, second))
    }
}
