//! Words, and the numbers that they write.

ghost use Rattle.std.specs.Prelude.{◌≡◌, ◌∷◌, ◌≤◌, ◌^◌, [], true, length};
ghost use Rattle.std.specs.List.{list_all};
ghost use Rattle.std.specs.Option.{option_copied};
ghost use Rattle.text_lines.specs.Lines.{pieces_from, pieces_left, left_length};
ghost use Rattle.text_lines.specs.Meaning.{is_digit, decimal_from, same_bytes, if_below, number_below, number_in};

use memchr::memchr;

/// Returns the bytes before the first separator and those after it, or all bytes and `None` if there is no separator.
pub fn cut(bytes: &[u8], separator: u8) -> (&[u8], Option<&[u8]>)
    ensures pieces { pieces_from separator [] bytes.now ≡ result.0.now ∷ pieces_left separator (option_copied result.1) }
    ensures shorter { left_length (option_copied result.1) ≤ length bytes.now }
{
    match memchr(separator, bytes) {
        Some(at) => (&bytes[..at], Some(&bytes[at + 1..])),
        None => (bytes, None),
    }
}

/// Whether a word is this name, byte for byte.
pub fn is_word(word: &[u8], name: &[u8]) -> bool
    ensures { result ≡ same_bytes word.now name.now }
{
    word == name
}

// Whether each byte is a decimal digit.
fn is_all_digits(word: &[u8]) -> bool
    ensures { result ≡ list_all is_digit word.now }
{
    word.iter().all(|byte| byte.is_ascii_digit())
}

// The number that digits write, if it is below 2^64.
#[tactic(auto, using(crate::proofs::NumberLemmas::too_large, crate::proofs::NumberLemmas::all_read))]
fn value_of_digits(digits: &[u8]) -> Option<u64>
    requires { list_all is_digit digits.now ≡ true }
    ensures { result ≡ if_below (2 ^ 64) (decimal_from 0 digits.now) }
{
    let mut value = 0u64;
    for digit in digits {
        value = value.checked_mul(10)?.checked_add(u64::from(digit - b'0'))?;
    }
    Some(value)
}

// The number that digits write, if it is below 2^128.
#[tactic(auto, using(crate::proofs::NumberLemmas::too_large, crate::proofs::NumberLemmas::all_read))]
fn wide_value_of_digits(digits: &[u8]) -> Option<u128>
    requires { list_all is_digit digits.now ≡ true }
    ensures { result ≡ if_below (2 ^ 128) (decimal_from 0 digits.now) }
{
    let mut value = 0u128;
    for digit in digits {
        value = value
            .checked_mul(10)?
            .checked_add(u128::from(digit - b'0'))?;
    }
    Some(value)
}

/// Returns the number that a word writes, or `None` if it writes none.
///
/// A number is `0`, or decimal digits without a leading zero, below 2^64.
pub fn number(word: &[u8]) -> Option<u64>
    ensures { result ≡ number_in word.now }
{
    if !is_all_digits(word) || word.is_empty() {
        return None;
    }
    if word[0] == b'0' {
        return (word.len() == 1).then_some(0);
    }
    value_of_digits(word)
}

/// Returns the number that a word writes, as `number` does, below 2^128.
pub fn wide_number(word: &[u8]) -> Option<u128>
    ensures { result ≡ number_below (2 ^ 128) word.now }
{
    if !is_all_digits(word) || word.is_empty() {
        return None;
    }
    if word[0] == b'0' {
        return (word.len() == 1).then_some(0u128);
    }
    wide_value_of_digits(word)
}
