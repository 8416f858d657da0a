// Keys: byte strings of at most 1,024 bytes, in byte order.
ghost use Rattle.std.specs.Prelude.{◌≡◌, ◌<◌, ◌≤◌, ◌↔◌, length, nat_eq, IfOk, IfErr};
ghost use Rattle.std.specs.Prelude.{IsTrue, Ok, Some, None, List, ℕ, ◌++◌, OnOk, IfSome};
ghost use Rattle.std.specs.Cmp.{partial_equiv_from_equiv};
ghost use Rattle.std.specs.Cmp.Lexicographic.{pointwise, slice_cmp, nat_list_eq_equiv};
ghost use Rattle.std.specs.Cmp.Lexicographic.{nat_list_cmp_total, texts_po, texts_ties};
ghost use Rattle.std.specs.Ordering.{nat_cmp};
ghost use Rattle.std.proofs.Common.{refl};
ghost use Rattle.byte_fields.specs.{text_bytes, text_at};
ghost use Rattle.byte_fields.specs.Order.{IsBelow};
ghost use Rattle.byte_fields.specs.{ReadsBytes, lent_key, row_key};

use crate::KvError;
use byte_fields::{LentKey, MAX_KEY, Space, StoredKey, put_text, read_text};
use std::alloc::{AllocError, Global};
use std::cmp::Ordering;
use std::marker::Model;

/// A key: at most 1,024 bytes. Keys compare byte by byte.
#[derive(Debug, Drop)]
pub struct Key {
    // The key as that of a row's entry, so that entries are looked up without a copy.
    stored: StoredKey,
}

impl Model for Key {
    ghost use Rattle.std.specs.Prelude.{◌≡◌, ◌≤◌, List, ℕ, length};
    ghost use Rattle.byte_fields.specs.declared.stored_key.TheConstants.{MAX_KEY};
    ghost use Rattle.byte_fields.specs.{bytes_of, row_key};

    ghost Value = { List ℕ };

    ghost view = { λ key. bytes_of key.stored };

    ghost invariant = { λ key. (key.stored ≡ row_key (bytes_of key.stored))
        × (length (bytes_of key.stored) ≤ MAX_KEY) };
}

impl Key {
    /// The key of these bytes. `KeyTooLong` refuses more than 1,024, and nothing else is refused.
    pub fn new(bytes: Vec<u8>) -> Result<Key, KvError>
        ensures made { IfOk result (λ key. (key ≡ bytes.items) × (length key ≤ MAX_KEY)) }
        ensures too_long { IfErr result (λ e. (e ≡ KvError.KeyTooLong)
            × (MAX_KEY < length bytes.items)) }
    {
        if bytes.len() > MAX_KEY {
            return Err(KvError::KeyTooLong);
        }
        Ok(Key {
            stored: StoredKey::new(Space::Rows, bytes),
        })
    }

    pub fn as_bytes(&self) -> &[u8]
        ensures bytes { result.now ≡ self.now }
        ensures limit { length self.now ≤ MAX_KEY }
    {
        self.stored.lent().as_bytes()
    }

    /// The key as that of a row's entry.
    #[inline(always)]
    pub fn stored(&self) -> &StoredKey
        ensures { result.now ≡ row_key self.now }
    {
        &self.stored
    }

    /// The key as that of a row's entry, lent.
    #[inline(always)]
    pub fn lent(&self) -> LentKey<'_>
        ensures key { lent_key result ≡ row_key self.now }
        ensures limit { length self.now ≤ MAX_KEY }
    {
        self.stored.lent()
    }

    /// Appends the spelling of the key to `out`.
    pub fn spell_into(&self, out: &mut Vec<u8>) -> Result<(), AllocError>
        ensures spelled { OnOk result (out.new.items ≡ out.old.items ++ text_bytes self.now) }
        ensures limit { length self.now ≤ MAX_KEY }
    {
        put_text(out, self.as_bytes())
    }

    /// The key at the front of the bytes, and the bytes behind it, if there is one.
    pub fn read_from(alloc: Global, bytes: &[u8]) -> Result<Option<(Key, &[u8])>, AllocError>
        ensures found { IfOk result (λ read. IfSome read (λ x.
            (bytes.now ≡ text_bytes x.0 ++ x.1.now) × (length x.0 ≤ MAX_KEY))) }
        ensures bad { result ≡ Ok None → (key rest : List ℕ)
            → length key ≤ MAX_KEY → bytes.now ≡ text_bytes key ++ rest → ⊥ }
        ensures exact { ReadsBytes (λ x. (x.0, x.1.now)) result (text_at MAX_KEY bytes.now) }
    {
        let Some((text, rest)) = read_text(MAX_KEY, bytes) else {
            return Ok(None);
        };
        let stored = LentKey::new(Space::Rows, text).to_stored(alloc)?;
        Ok(Some((Key { stored }, rest)))
    }

    pub fn is_below(&self, other: &Key) -> bool
        ensures { IsTrue result ↔ IsBelow self.now other.now }
    {
        self < other
    }

    pub fn clone(&self) -> Result<Key, AllocError>
        ensures { IfOk result (λ key. key ≡ self.now) }
    {
        Ok(Key {
            stored: self.stored.clone()?,
        })
    }
}

impl PartialEq for Key {
    ghost eq = { pointwise nat_eq };

    ghost laws = { partial_equiv_from_equiv nat_list_eq_equiv };

    fn eq(&self, other: &Key) -> bool {
        self.as_bytes() == other.as_bytes()
    }
}

impl Eq for Key {
    ghost laws = { nat_list_eq_equiv };
}

impl PartialOrd for Key {
    ghost partial_cmp = { λ a b. Some (slice_cmp nat_cmp a b) };

    ghost laws = { texts_po };

    fn partial_cmp(&self, other: &Key) -> Option<Ordering> {
        Some(self.cmp(other))
    }
}

impl Ord for Key {
    ghost cmp = { slice_cmp nat_cmp };

    ghost total = { nat_list_cmp_total };

    ghost matches_partial_cmp = { λ a b. refl };

    ghost matches_eq = { texts_ties };

    fn cmp(&self, other: &Key) -> Ordering {
        self.lent().cmp(other.lent())
    }
}
