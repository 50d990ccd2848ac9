//! Lines, and the words of texts: numbers, bytes, types, and clauses of handlers (`specs/`).
#![tactic(auto)]

mod clauses;
mod hexadecimal;
mod laws;
mod line_feeds;
mod numbers;
mod types;
mod word;
mod word_lists;
mod words;

pub use clauses::labels_of;
pub use hexadecimal::{bytes_of, name_of, put_bytes};
pub use laws::lines_are_words;
pub use line_feeds::line_end;
pub use numbers::{count_of, index_of, number_of, put_count, put_number, put_signed, signed_of};
pub use word::{PutWord, ReadWord, behind, is, put_text};
pub use word_lists::{put_each, read_each, read_one, read_two, read_until};
pub use words::Words;
