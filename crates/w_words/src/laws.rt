//! Laws of the definitions, each the contract of a function that does nothing.
ghost use Rattle.std.specs.Prelude.{◌≡◌, ℕ, List};
ghost use Rattle.w_words.specs.Words.{spaced, words_of};

/// A line is its words, parted by spaces.
#[tactic(auto, using(crate::proofs::Lines::words_spaced))]
pub fn lines_are_words()
    ensures { (line : List ℕ) → spaced (words_of line) ≡ line }
{}
