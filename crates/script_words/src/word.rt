//! Words: numbers, byte strings and hex bytes.
ghost use Rattle.std.specs.Prelude.{◌≡◌, ◌^◌, ◌<◌, ◌++◌, ◌∷◌, [], true, false, length};
ghost use Rattle.std.specs.Prelude.{MatchOption, IfOk};
ghost use Rattle.std.specs.Fmt.{decimal};
ghost use Rattle.std.specs.Str.Parse.{digits_value};
ghost use Rattle.script_words.specs.Words.{AreBytes, byte_text, bytes_text, are_bytes};
ghost use Rattle.script_words.specs.Words.{is_byte_string, is_number, is_hex, hex_value};
ghost use Rattle.script_words.specs.Words.{IsPositive, is_positive};
ghost use Rattle.script_words.specs.Junks.{are_pairs, hex_text};

use crate::plain::{is_itself, split_plain};
use kv_types::Number;
use std::alloc::{AllocError, Global};

/// The greatest number that a script may name.
const GREATEST: u64 = (1 << 63) - 1;

/// The number that a word spells.
pub fn number(word: &[u8]) -> Option<u64>
    ensures { MatchOption result (is_number word.now ≡ false) (λ n. (is_number word.now ≡ true)
        × (n < 2 ^ 63) × (word.now ≡ decimal n) × (digits_value 10 word.now ≡ n)) }
{
    if word.is_empty() || word[0] == b'+' || (word[0] == b'0' && word.len() > 1) {
        return None;
    }
    let Ok(text) = str::from_utf8(word) else {
        return None;
    };
    match text.parse::<u64>() {
        Ok(number) if number <= GREATEST => Some(number),
        _ => None,
    }
}

/// The number from 1 that a word spells.
pub fn positive_number(word: &[u8]) -> Option<u64>
    ensures { MatchOption result (is_positive word.now ≡ false) (λ n.
        (is_positive word.now ≡ true) × IsPositive n × (word.now ≡ decimal n)) }
{
    match number(word) {
        None | Some(0) => None,
        found => found,
    }
}

/// The number of a batch that a word spells.
pub fn batch_number(word: &[u8]) -> Option<Number>
    ensures { MatchOption result (is_number word.now ≡ false) (λ n. (is_number word.now ≡ true)
        × (n < 2 ^ 63) × (word.now ≡ decimal n) × (digits_value 10 word.now ≡ n)) }
{
    Number::new(number(word)?)
}

/// The value of a hex digit.
fn hex_digit(byte: u8) -> Option<u8>
    ensures { MatchOption result (is_hex byte ≡ false)
        (λ d. (is_hex byte ≡ true) × (d ≡ hex_value byte) × (d < 16)) }
{
    match byte {
        b'0'..=b'9' => Some(byte - b'0'),
        b'a'..=b'f' => Some(byte - b'a' + 10),
        _ => None,
    }
}

/// The byte that two hex digits spell.
pub fn byte_of(high: u8, low: u8) -> Option<u8>
    ensures { MatchOption result (are_pairs (high ∷ low ∷ []) ≡ false)
        (λ b. (are_pairs (high ∷ low ∷ []) ≡ true) × (b < 256)
        × (high ∷ low ∷ [] ≡ hex_text (b ∷ []))) }
{
    Some(hex_digit(high)? * 16 + hex_digit(low)?)
}

/// The byte that the front of a text spells, and what follows it.
fn first_byte(text: &[u8]) -> Option<(u8, &[u8])>
    requires { 0 < length text.now }
    ensures { MatchOption result (are_bytes text.now ≡ false) (λ found.
        (text.now ≡ byte_text found.0 ++ found.1.now)
        × (are_bytes text.now ≡ are_bytes found.1.now) × (found.0 < 256)) }
{
    match text {
        [b'%', high, low, rest @ ..] => {
            let byte = byte_of(*high, *low)?;
            if is_itself(byte) {
                return None;
            }
            Some((byte, rest))
        }
        [byte, rest @ ..] if is_itself(*byte) => Some((*byte, rest)),
        _ => None,
    }
}

/// The byte string that a word spells.
pub fn bytes_of(alloc: Global, word: &[u8]) -> Result<Option<Vec<u8>>, AllocError>
    ensures { IfOk result (λ found. MatchOption found (is_byte_string word.now ≡ false)
        (λ bytes. (is_byte_string word.now ≡ true) × AreBytes bytes.items
        × (word.now ≡ bytes_text bytes.items))) }
{
    if word.is_empty() {
        return Ok(None);
    }
    if word == b"@".as_slice() {
        return Ok(Some(Vec::new(alloc)));
    }
    let (plain, mut rest) = split_plain(word);
    let mut bytes = Vec::from_slice(alloc, plain)?;
    while !rest.is_empty() {
        let Some((byte, after)) = first_byte(rest) else {
            return Ok(None);
        };
        bytes.push(byte)?;
        let (plain, behind) = split_plain(after);
        bytes.extend_from_slice(plain)?;
        rest = behind;
    }
    Ok(Some(bytes))
}
