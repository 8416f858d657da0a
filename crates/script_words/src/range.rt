//! The words of ranges: a key, a bound or `*`, and a limit.
ghost use Rattle.std.specs.Prelude.{◌≡◌, ◌&&◌, true, false, IfOk, IfSome, MatchOption};
ghost use Rattle.script_words.specs.Words.{AreBytes, bound_text, bytes_text, is_bound};
ghost use Rattle.script_words.specs.Words.{is_byte_string};

use crate::bytes::Bytes;
use crate::word::bytes_of;
use std::alloc::{AllocError, Global};
use std::marker::Model;

/// A range whose keys are of any length, and whose limit is any number.
#[derive(Drop)]
pub struct RawRange {
    from: Bytes,
    to: Option<Bytes>,
    backward: bool,
    limit: u64,
}

impl Model for RawRange {
    ghost use Rattle.kv_types.specs.{Span};

    ghost Value = { Span };

    ghost view = { λ range. record {
      from = range.from;
      to = range.to;
      backward = range.backward;
      limit = range.limit;
    } };
}

impl RawRange {
    /// The range from the least key up to the bound, walked in this direction, with this limit.
    pub fn new(from: Bytes, to: Option<Bytes>, backward: bool, limit: u64) -> RawRange
        ensures { result ≡ record { from = from; to = to; backward = backward; limit = limit } }
    {
        RawRange {
            from,
            to,
            backward,
            limit,
        }
    }

    /// The least key, the bound, whether it is walked backward, and the limit.
    pub fn into_parts(self) -> (Bytes, Option<Bytes>, bool, u64)
        ensures { self ≡ record {
          from = result.0;
          to = result.1;
          backward = result.2;
          limit = result.3;
        } }
    {
        (self.from, self.to, self.backward, self.limit)
    }
}

/// The upper bound that a word spells, which may be none.
fn bound_of(alloc: Global, word: &[u8]) -> Result<Option<Option<Bytes>>, AllocError>
    ensures { IfOk result (λ found. MatchOption found (is_bound word.now ≡ false)
        (λ to. (is_bound word.now ≡ true) × IfSome to AreBytes × (word.now ≡ bound_text to))) }
{
    if word == b"*".as_slice() {
        return Ok(Some(None));
    }
    match bytes_of(alloc, word)? {
        None => Ok(None),
        Some(key) => Ok(Some(Some(Bytes::new(key)))),
    }
}

/// The keys that two words spell: the least one, and the upper bound.
pub fn bounds_of(
    alloc: Global,
    from: &[u8],
    to: &[u8],
) -> Result<Option<(Bytes, Option<Bytes>)>, AllocError>
    ensures { IfOk result (λ found.
        MatchOption found ((is_byte_string from.now && is_bound to.now) ≡ false) (λ bounds.
        (is_byte_string from.now ≡ true) × (is_bound to.now ≡ true)
        × AreBytes bounds.0 × IfSome bounds.1 AreBytes
        × (from.now ≡ bytes_text bounds.0) × (to.now ≡ bound_text bounds.1))) }
{
    let Some(from) = bytes_of(alloc, from)? else {
        return Ok(None);
    };
    match bound_of(alloc, to)? {
        None => Ok(None),
        Some(to) => Ok(Some((Bytes::new(from), to))),
    }
}
