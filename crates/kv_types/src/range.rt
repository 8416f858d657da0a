// Ranges of keys, read forward or backward.
ghost use Rattle.std.specs.Prelude.{◌≡◌, ◌⊎◌, ◌<◌, ◌≤◌, ◌↔◌, IfOk, IfErr, IsTrue};
ghost use Rattle.std.specs.Prelude.{option_copied};

use crate::bounds::MAX_ROWS;
use crate::{Key, KvError};
use byte_fields::LentKey;
use std::alloc::AllocError;
use std::marker::Model;

/// A range of keys, with the direction of its walk and the greatest number of rows in an answer.
#[derive(Debug, Drop)]
pub struct Range {
    from: Key,
    to: Option<Key>,
    backward: bool,
    limit: u32,
}

impl Model for Range {
    ghost use Rattle.std.specs.Prelude.{◌≤◌};
    ghost use Rattle.kv_types.specs.Spans.{Span};
    ghost use Rattle.kv_types.specs.declared.bounds.TheConstants.{MAX_ROWS};

    ghost Value = { Span };

    ghost view = { λ range. record {
      from = range.from;
      to = range.to;
      backward = range.backward;
      limit = range.limit;
    } };

    ghost invariant = { λ range. (1 ≤ range.limit) × (range.limit ≤ MAX_ROWS) };
}

impl Range {
    ghost use Rattle.byte_fields.specs.{lent_key};
    ghost use Rattle.kv_types.specs.Pages.{IsWithin};
    ghost use Rattle.kv_types.specs.Spans.{end_of_rows};

    /// The keys from `from` on, below `to` where there is one. An answer has at most `limit` rows.
    /// `BadLimit` refuses a limit of 0 or above 1,024, and nothing else is refused.
    pub fn new(from: Key, to: Option<Key>, backward: bool, limit: u32) -> Result<Range, KvError>
        ensures made { IfOk result (λ range. (1 ≤ limit) × (limit ≤ MAX_ROWS) × (range ≡
            record { from = from; to = to; backward = backward; limit = limit })) }
        ensures refused { IfErr result (λ e. (e ≡ KvError.BadLimit)
            × ((limit ≡ 0) ⊎ (MAX_ROWS < limit))) }
    {
        if limit == 0 || limit > MAX_ROWS {
            return Err(KvError::BadLimit);
        }
        Ok(Range {
            from,
            to,
            backward,
            limit,
        })
    }

    /// The least key that the range may have.
    pub fn from(&self) -> &Key
        ensures { result.now ≡ self.now.from }
    {
        &self.from
    }

    /// The key that all keys of the range are below, if there is one.
    pub fn to(&self) -> Option<&Key>
        ensures { option_copied result ≡ self.now.to }
    {
        self.to.as_ref()
    }

    /// The least stored key behind the rows of the range, whether it is bounded or not.
    pub fn end_of_rows(&self) -> LentKey<'_>
        ensures { lent_key result ≡ end_of_rows self.now.to }
    {
        match &self.to {
            Some(to) => to.lent(),
            None => LentKey::behind_rows(),
        }
    }

    /// Whether the walk goes from the greatest key to the least.
    pub fn is_backward(&self) -> bool
        ensures { result ≡ self.now.backward }
    {
        self.backward
    }

    /// The greatest number of rows in an answer, from 1 to 1,024.
    pub fn limit(&self) -> u32
        ensures limit { result ≡ self.now.limit }
        ensures some { 1 ≤ self.now.limit }
        ensures most { self.now.limit ≤ MAX_ROWS }
    {
        self.limit
    }

    /// Whether the key lies in the range.
    pub fn contains(&self, key: &Key) -> bool
        ensures { IsTrue result ↔ IsWithin self.now key.now }
    {
        if key.is_below(&self.from) {
            return false;
        }
        match &self.to {
            Some(to) => key.is_below(to),
            None => true,
        }
    }

    pub fn clone(&self) -> Result<Range, AllocError>
        ensures { IfOk result (λ range. range ≡ self.now) }
    {
        let to = match &self.to {
            Some(key) => Some(key.clone()?),
            None => None,
        };
        Ok(Range {
            from: self.from.clone()?,
            to,
            backward: self.backward,
            limit: self.limit,
        })
    }
}
