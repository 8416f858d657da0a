//! The words for what a crash leaves.
ghost use Rattle.std.specs.Prelude.{◌≡◌, true, false, MatchOption, IfOk};
ghost use Rattle.script_words.specs.Words.{AreBytes};
ghost use Rattle.script_words.specs.Junks.{are_pairs, hex_text, is_junk, AreBytesOf, IsJunk};

use crate::word::byte_of;
use disk::{Junk, JunkBytes};
use std::alloc::{AllocError, Global};

/// The bytes that pairs of hex digits spell.
fn pairs_of(alloc: Global, word: &[u8]) -> Result<Option<Vec<u8>>, AllocError>
    ensures { IfOk result (λ found. MatchOption found (are_pairs word.now ≡ false)
        (λ bytes. (are_pairs word.now ≡ true) × AreBytes bytes.items
        × (word.now ≡ hex_text bytes.items))) }
{
    let mut bytes = Vec::new(alloc);
    let mut rest = word;
    while let [high, low, after @ ..] = rest {
        let Some(byte) = byte_of(*high, *low) else {
            return Ok(None);
        };
        bytes.push(byte)?;
        rest = after;
    }
    Ok(if rest.is_empty() { Some(bytes) } else { None })
}

/// What a crash leaves, by the word for it.
pub fn junk_of(alloc: Global, word: &[u8]) -> Result<Option<Junk>, AllocError>
    ensures { IfOk result (λ found. MatchOption found (is_junk word.now ≡ false)
        (λ junk. (is_junk word.now ≡ true) × AreBytesOf junk × IsJunk junk word.now)) }
{
    match word {
        b"old" => Ok(Some(Junk::Old)),
        b"new" => Ok(Some(Junk::New)),
        b"" => Ok(None),
        _ => match pairs_of(alloc, word)? {
            None => Ok(None),
            Some(bytes) => Ok(Some(Junk::Bytes(JunkBytes::new(bytes)))),
        },
    }
}
