//! The words of edits: KEY=VALUE and -KEY.
ghost use Rattle.std.specs.Prelude.{◌≡◌, ◌==◌, true, false, position, MatchOption, IfOk};
ghost use Rattle.script_words.specs.Edits.{is_edit, edit_of, edit_word, AreBytesIn};

use crate::bytes::Bytes;
use crate::word::bytes_of;
use std::alloc::{AllocError, Global};

/// An edit whose key and value are of any length.
#[derive(Drop)]
pub enum RawEdit {
    Put(Bytes, Bytes),
    Delete(Bytes),
}

/// Where the first `=` stands.
fn place_of_equals(word: &[u8]) -> Option<usize>
    ensures { result ≡ position (λ b. b == 61) word.now }
{
    word.iter().position(|b| *b == b'=')
}

/// The edit that a word spells.
pub fn raw_edit_of(alloc: Global, word: &[u8]) -> Result<Option<RawEdit>, AllocError>
    ensures { IfOk result (λ found. MatchOption found (is_edit word.now ≡ false)
        (λ e. (is_edit word.now ≡ true) × AreBytesIn (edit_of e)
        × (word.now ≡ edit_word (edit_of e)))) }
{
    if let Some(key) = word.strip_prefix(b"-") {
        return match bytes_of(alloc, key)? {
            None => Ok(None),
            Some(key) => Ok(Some(RawEdit::Delete(Bytes::new(key)))),
        };
    }
    let Some(place) = place_of_equals(word) else {
        return Ok(None);
    };
    let Some(key) = bytes_of(alloc, &word[..place])? else {
        return Ok(None);
    };
    let Some(value) = bytes_of(alloc, &word[place + 1..])? else {
        return Ok(None);
    };
    Ok(Some(RawEdit::Put(Bytes::new(key), Bytes::new(value))))
}
