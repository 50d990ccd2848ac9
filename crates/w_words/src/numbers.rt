//! Decimal numbers.
ghost use Rattle.std.specs.Prelude.{◌≡◌, ◌≤◌, ◌^◌, ◌-◌, ◌++◌, true, min, option_map, IfSome, IfNone, OnOk, decimal};
ghost use Rattle.std.specs.List.{list_all};
ghost use Rattle.std.specs.Fmt.{signed_decimal};
ghost use Rattle.w_leb.specs.Number.{IsInBits};
ghost use Rattle.w_words.specs.Numbers.{is_digit as the_digit, value, is_numeral as the_numeral, is_short, number_of, as_positive, as_negative, signed_of, count_of, count_word, kept_count};

use crate::word::{PutWord, ReadWord};
use itoa::Buffer;
use std::alloc::AllocError;

// Whether a byte is a digit.
fn is_digit(byte: u8) -> bool
    ensures { result ≡ the_digit byte }
{
    matches!(byte, b'0'..=b'9')
}

// Whether all bytes are digits.
fn all_digits(word: &[u8]) -> bool
    ensures { result ≡ list_all the_digit word.now }
{
    for byte in word {
        if !is_digit(*byte) {
            return false;
        }
    }
    true
}

// Whether there is a first byte, which is no 0 in front of others.
fn is_short(word: &[u8]) -> bool
    ensures { result ≡ is_short word.now }
{
    match word {
        [] => false,
        [_] => true,
        [first, ..] => *first != b'0',
    }
}

// Whether a word is a number in decimal, without leading zeros.
fn is_numeral(word: &[u8]) -> bool
    ensures { result ≡ the_numeral word.now }
{
    is_short(word) && all_digits(word)
}

// What a digit stands for.
fn digit(byte: u8) -> u64
    ensures { result ≡ byte - 48 }
{
    u64::from(byte.saturating_sub(b'0'))
}

// What digits stand for. `None` where that is 2^64 or more.
fn value_of(digits: &[u8]) -> Option<u64>
    ensures some { IfSome result (λ n. n ≡ value digits.now) }
    ensures none { IfNone result (2 ^ 64 ≤ value digits.now) }
{
    let mut value: u64 = 0;
    for byte in digits {
        let digit = digit(*byte);
        if value > (u64::MAX - digit) / 10 {
            return None;
        }
        value = value * 10 + digit;
    }
    Some(value)
}

/// The number of so many bits that a word is, in decimal without leading zeros.
#[tactic(auto, unfolding(crate::specs::Numbers::number_of))]
pub fn number_of(word: &[u8], bits: u32) -> Option<u64>
    requires { bits ≤ 64 }
    ensures { result ≡ number_of bits word.now }
{
    if !is_numeral(word) {
        return None;
    }
    let number = value_of(word)?;
    if bits < 64 && number >= 1 << bits {
        return None;
    }
    Some(number)
}

/// The index that a word is.
#[tactic(auto, using(crate::proofs::Numerals::number_below))]
pub fn index_of(word: &[u8]) -> Option<u32>
    ensures { result ≡ number_of 32 word.now }
{
    let number = number_of(word, 32)?;
    Some(number as u32)
}

impl ReadWord for u32 {
    ghost use Rattle.w_words.specs.Numbers.{number_of};

    ghost of = { number_of 32 };

    fn read(word: &[u8]) -> Option<u32> {
        index_of(word)
    }
}

/// The count that a word is. Counts of 2^64 and more are all one.
#[tactic(auto, unfolding(crate::specs::Numbers::count_of))]
pub fn count_of(word: &[u8]) -> Option<u64>
    ensures { result ≡ option_map kept_count (count_of word.now) }
{
    if !is_numeral(word) {
        return None;
    }
    match value_of(word) {
        Some(count) => Some(count),
        None => Some(u64::MAX),
    }
}

// A number that has no sign, as a signed one of so many bits.
fn as_positive(size: u64, bits: u32) -> Option<i64>
    requires least { 1 ≤ bits }
    requires most { bits ≤ 64 }
    ensures value { result ≡ as_positive bits size }
    ensures fits { IfSome result (IsInBits bits) }
{
    if size >= 1 << (bits - 1) {
        return None;
    }
    Some(size as i64)
}

// A number behind a sign, which is not 0.
fn as_negative(size: u64, bits: u32) -> Option<i64>
    requires least { 1 ≤ bits }
    requires most { bits ≤ 64 }
    ensures value { result ≡ as_negative bits size }
    ensures fits { IfSome result (IsInBits bits) }
{
    if size == 0 || size > 1 << (bits - 1) {
        return None;
    }
    Some(-1 - (size - 1) as i64)
}

/// The signed number of so many bits that a word is.
#[tactic(auto, unfolding(crate::specs::Numbers::signed_of))]
pub fn signed_of(word: &[u8], bits: u32) -> Option<i64>
    requires least { 1 ≤ bits }
    requires most { bits ≤ 64 }
    ensures value { result ≡ signed_of bits word.now }
    ensures fits { IfSome result (IsInBits bits) }
{
    match word {
        [] => None,
        [first, digits @ ..] => {
            if *first == b'-' {
                as_negative(number_of(digits, 64)?, bits)
            } else {
                as_positive(number_of(word, 64)?, bits)
            }
        }
    }
}

impl ReadWord for i32 {
    ghost use Rattle.w_words.specs.Numbers.{signed_of};

    ghost of = { signed_of 32 };

    fn read(word: &[u8]) -> Option<i32> {
        let number = signed_of(word, 32)?;
        Some(number as i32)
    }
}

impl ReadWord for i64 {
    ghost use Rattle.w_words.specs.Numbers.{signed_of};

    ghost of = { signed_of 64 };

    fn read(word: &[u8]) -> Option<i64> {
        signed_of(word, 64)
    }
}

/// Writes a number.
pub fn put_number(number: u64, out: &mut Vec<u8>) -> Result<(), AllocError>
    ensures { OnOk result (out.new.items ≡ out.old.items ++ decimal number) }
{
    let mut buffer = Buffer::new();
    out.extend_from_slice(buffer.format(number).as_bytes())?;
    Ok(())
}

impl PutWord for u32 {
    ghost word = { decimal };

    fn put(&self, out: &mut Vec<u8>) -> Result<(), AllocError> {
        put_number(u64::from(*self), out)
    }
}

/// Writes a signed number.
pub fn put_signed(number: i64, out: &mut Vec<u8>) -> Result<(), AllocError>
    ensures { OnOk result (out.new.items ≡ out.old.items ++ signed_decimal number) }
{
    let mut buffer = Buffer::new();
    out.extend_from_slice(buffer.format(number).as_bytes())?;
    Ok(())
}

/// Writes a count.
#[tactic(auto, using(crate::proofs::Counts::small_count))]
pub fn put_count(count: usize, out: &mut Vec<u8>) -> Result<(), AllocError>
    ensures { OnOk result (out.new.items ≡ out.old.items ++ count_word count) }
{
    put_number(count as u64, out)
}

impl PutWord for i32 {
    ghost word = { signed_decimal };

    fn put(&self, out: &mut Vec<u8>) -> Result<(), AllocError> {
        put_signed(i64::from(*self), out)
    }
}

impl PutWord for i64 {
    ghost word = { signed_decimal };

    fn put(&self, out: &mut Vec<u8>) -> Result<(), AllocError> {
        put_signed(*self, out)
    }
}
