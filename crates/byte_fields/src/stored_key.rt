// Stored keys: those of entries, as tables, memtables and cursors order them.
ghost use Rattle.std.specs.Prelude.{◌≡◌, ◌≤◌, ◌↔◌, [], length, nat_eq, IfOk, IsTrue, OnErr, OnOk};
ghost use Rattle.std.specs.Prelude.{◌++◌, IfSome, Some};
ghost use Rattle.std.specs.Cmp.{partial_equiv_from_equiv};
ghost use Rattle.std.specs.Cmp.Lexicographic.{pointwise, slice_cmp, nat_list_eq_equiv};
ghost use Rattle.std.specs.Cmp.Lexicographic.{nat_list_cmp_total, texts_po, texts_ties};
ghost use Rattle.std.specs.Ordering.{nat_cmp};
ghost use Rattle.std.proofs.Common.{refl};
ghost use Rattle.byte_fields.specs.{ReadsFront};
ghost use Rattle.byte_fields.specs.Reading.{ReadsBytes};
ghost use Rattle.byte_fields.specs.StoredKeys.{IsStoredKey, bytes_of, key_at, key_at_in, key_bytes};
ghost use Rattle.byte_fields.specs.StoredKeys.{lent_key};
ghost use Rattle.byte_fields.specs.StoredKeys.{mark_key, row_key, stored_cmp, stored_key};

use crate::{Format, Space, put_text, read_text, read_u32, read_u64};
use std::alloc::{AllocError, Global};
use std::cmp::Ordering;
use std::marker::Model;

/// The greatest length of a key, in bytes.
pub const MAX_KEY: usize = 1024;

/// The key of an entry, with memory of its own: a key of a space.
#[derive(Debug, Drop)]
pub struct StoredKey {
    space: Space,
    bytes: Vec<u8>,
}

impl Model for StoredKey {
    ghost use Rattle.std.specs.Prelude.{◌≤◌, length};
    ghost use Rattle.byte_fields.specs.StoredKeys.{StoredKey, stored_key};
    ghost use Rattle.byte_fields.specs.declared.stored_key.TheConstants.{MAX_KEY};

    ghost Value = { StoredKey };

    ghost view = { λ it. stored_key it.space it.bytes.items };

    ghost invariant = { λ it. length it.bytes.items ≤ MAX_KEY };
}

impl StoredKey {
    /// The key of this space that has these bytes.
    pub fn new(space: Space, bytes: Vec<u8>) -> StoredKey
        requires { length bytes.items ≤ MAX_KEY }
        ensures { result ≡ stored_key space bytes.items }
    {
        StoredKey { space, bytes }
    }

    /// The key at which the last mark of this client stands.
    pub fn of_client(alloc: Global, client: u64) -> Result<StoredKey, AllocError>
        ensures { IfOk result (λ key. key ≡ mark_key client) }
    {
        let bytes = Vec::from_slice(alloc, &client.to_be_bytes())?;
        Ok(StoredKey::new(Space::Marks, bytes))
    }

    /// The key, lent.
    #[inline(always)]
    pub fn lent(&self) -> LentKey<'_>
        ensures key { lent_key result ≡ self.now }
        ensures limit { IsStoredKey self.now }
    {
        LentKey::new(self.space, &self.bytes)
    }

    /// Appends the spelling of the key to `out`.
    pub fn spell_into(&self, out: &mut Vec<u8>) -> Result<(), AllocError>
        ensures { OnOk result (out.new.items ≡ out.old.items ++ key_bytes self.now) }
    {
        self.lent().spell_into(out)
    }

    /// The key at the front of the bytes, as a file of the format spells it, and the bytes behind
    /// it, if there is one.
    pub fn read_from(
        alloc: Global,
        format: Format,
        bytes: &[u8],
    ) -> Result<Option<(StoredKey, &[u8])>, AllocError>
        ensures { ReadsBytes (λ x. (x.0, x.1.now)) result (key_at_in format bytes.now) }
    {
        match LentKey::read_from(format, bytes) {
            Some((key, rest)) => Ok(Some((key.to_stored(alloc)?, rest))),
            None => Ok(None),
        }
    }

    pub fn clone(&self) -> Result<StoredKey, AllocError>
        ensures { IfOk result (λ key. key ≡ self.now) }
    {
        Ok(StoredKey {
            space: self.space,
            bytes: Vec::from_slice(*self.bytes.allocator(), &self.bytes)?,
        })
    }
}

impl PartialEq for StoredKey {
    ghost eq = { pointwise nat_eq };

    ghost laws = { partial_equiv_from_equiv nat_list_eq_equiv };

    fn eq(&self, other: &StoredKey) -> bool {
        self.lent().is_same(other.lent())
    }
}

impl Eq for StoredKey {
    ghost laws = { nat_list_eq_equiv };
}

impl PartialOrd for StoredKey {
    ghost partial_cmp = { λ a b. Some (slice_cmp nat_cmp a b) };

    ghost laws = { texts_po };

    fn partial_cmp(&self, other: &StoredKey) -> Option<Ordering> {
        Some(self.cmp(other))
    }
}

impl Ord for StoredKey {
    ghost cmp = { slice_cmp nat_cmp };

    ghost total = { nat_list_cmp_total };

    ghost matches_partial_cmp = { λ a b. refl };

    ghost matches_eq = { texts_ties };

    fn cmp(&self, other: &StoredKey) -> Ordering {
        self.lent().cmp(other.lent())
    }
}

/// The key of an entry, lent. Contracts see it through `lent_key`.
#[derive(Clone, Copy)]
pub struct LentKey<'a> {
    space: Space,
    bytes: &'a [u8],
}

impl<'a> LentKey<'a> {
    /// The key of this space that has these bytes.
    #[inline(always)]
    pub fn new(space: Space, bytes: &'a [u8]) -> LentKey<'a>
        ensures { lent_key result ≡ stored_key space bytes.entry.now }
    {
        LentKey { space, bytes }
    }

    /// The least key: that of the row whose key has no bytes.
    pub fn least() -> LentKey<'a>
        ensures { lent_key result ≡ row_key [] }
    {
        LentKey {
            space: Space::Rows,
            bytes: &[],
        }
    }

    /// The least key behind all keys of rows.
    pub fn behind_rows() -> LentKey<'a>
        ensures { lent_key result ≡ stored_key Space.Marks [] }
    {
        LentKey {
            space: Space::Marks,
            bytes: &[],
        }
    }

    /// The space of the key.
    #[inline(always)]
    pub fn space(self) -> Space
        ensures { lent_key self.entry ≡ stored_key result (bytes_of (lent_key self.entry)) }
    {
        self.space
    }

    /// The bytes of the key behind its space.
    #[inline(always)]
    pub fn as_bytes(self) -> &'a [u8]
        ensures { result.now ≡ bytes_of (lent_key self.entry) }
    {
        self.bytes
    }

    /// How many bytes the key has behind its space.
    #[inline(always)]
    pub fn len(self) -> usize
        ensures { result ≡ length (bytes_of (lent_key self.entry)) }
    {
        self.bytes.len()
    }

    /// The order of two stored keys.
    pub fn cmp(self, other: LentKey) -> Ordering
        ensures { result ≡ stored_cmp (lent_key self.entry) (lent_key other.entry) }
    {
        match self.space {
            Space::Rows => match other.space {
                Space::Rows => order(self.bytes, other.bytes),
                Space::Marks => Ordering::Less,
            },
            Space::Marks => match other.space {
                Space::Rows => Ordering::Greater,
                Space::Marks => order(self.bytes, other.bytes),
            },
        }
    }

    /// Whether two stored keys are equal.
    pub fn is_same(self, other: LentKey) -> bool
        ensures { IsTrue result ↔ (lent_key self.entry ≡ lent_key other.entry) }
    {
        match self.space {
            Space::Rows => match other.space {
                Space::Rows => self.bytes == other.bytes,
                Space::Marks => false,
            },
            Space::Marks => match other.space {
                Space::Rows => false,
                Space::Marks => self.bytes == other.bytes,
            },
        }
    }

    /// Appends the spelling of the key to `out`.
    pub fn spell_into(self, out: &mut Vec<u8>) -> Result<(), AllocError>
        requires { IsStoredKey (lent_key self) }
        ensures { OnOk result (out.new.items ≡ out.old.items ++ key_bytes (lent_key self.entry)) }
    {
        out.push(self.space.number())?;
        put_text(out, self.bytes)
    }

    /// The key at the front of the bytes, as a file of the format spells it, and the bytes behind
    /// it, if there is one.
    #[inline(always)]
    #[tactic(auto, unfolding(crate::specs::StoredKeys::key_at_in))]
    pub fn read_from(format: Format, bytes: &'a [u8]) -> Option<(LentKey<'a>, &'a [u8])>
        ensures key { ReadsFront (λ x. (lent_key x.0, x.1.now)) result
            (key_at_in format bytes.now) }
        ensures limit { IfSome result (λ x. IsStoredKey (lent_key x.0)) }
    {
        match format {
            Format::One => {
                let (text, rest) = read_text(MAX_KEY, bytes)?;
                Some((LentKey::new(Space::Rows, text), rest))
            }
            Format::Two => LentKey::read_spaced(bytes),
        }
    }

    // The key at the front of the bytes, behind the number of its space.
    #[inline(always)]
    #[tactic(auto, unfolding(crate::specs::StoredKeys::key_at))]
    fn read_spaced(bytes: &'a [u8]) -> Option<(LentKey<'a>, &'a [u8])>
        ensures key { ReadsFront (λ x. (lent_key x.0, x.1.now)) result (key_at bytes.now) }
        ensures limit { IfSome result (λ x. IsStoredKey (lent_key x.0)) }
    {
        match bytes {
            [0, rest @ ..] => {
                let (text, rest) = read_text(MAX_KEY, rest)?;
                Some((LentKey::new(Space::Rows, text), rest))
            }
            [1, rest @ ..] => {
                let (text, rest) = read_text(MAX_KEY, rest)?;
                Some((LentKey::new(Space::Marks, text), rest))
            }
            _ => None,
        }
    }

    /// A copy of the key.
    pub fn to_stored(self, alloc: Global) -> Result<StoredKey, AllocError>
        requires { IsStoredKey (lent_key self) }
        ensures { IfOk result (λ key. key ≡ lent_key self.entry) }
    {
        let bytes = Vec::from_slice(alloc, self.bytes)?;
        Ok(StoredKey::new(self.space, bytes))
    }
}

// The order of bytes. Eight at a time are compared, as numbers.
fn order(a: &[u8], b: &[u8]) -> Ordering
    ensures { result ≡ slice_cmp nat_cmp a.now b.now }
{
    let (mut bytes, mut others) = (a, b);
    while let (Some((x, rest)), Some((y, other_rest))) = (read_u64(bytes), read_u64(others)) {
        if x != y {
            return x.cmp(&y);
        }
        (bytes, others) = (rest, other_rest);
    }
    order_four(bytes, others)
}

// The order of bytes: of the first four as numbers, where both have so many, and of the rest.
fn order_four(a: &[u8], b: &[u8]) -> Ordering
    ensures { result ≡ slice_cmp nat_cmp a.now b.now }
{
    let (Some((x, rest)), Some((y, other_rest))) = (read_u32(a), read_u32(b)) else {
        return order_few(a, b);
    };
    if x != y {
        return x.cmp(&y);
    }
    order_few(rest, other_rest)
}

// The order of bytes, one by one.
fn order_few(a: &[u8], b: &[u8]) -> Ordering
    ensures { result ≡ slice_cmp nat_cmp a.now b.now }
{
    let [x, rest @ ..] = a else {
        return if b.is_empty() {
            Ordering::Equal
        } else {
            Ordering::Less
        };
    };
    let [y, other_rest @ ..] = b else {
        return Ordering::Greater;
    };
    if x != y {
        return x.cmp(y);
    }
    order_few(rest, other_rest)
}

/// Memory for a stored key, which is used again for others.
#[derive(Drop)]
pub struct KeyBuffer {
    space: Space,
    bytes: Vec<u8>,
}

impl Model for KeyBuffer {
    ghost use Rattle.byte_fields.specs.StoredKeys.{StoredKey, stored_key};

    ghost Value = { StoredKey };

    ghost view = { λ buffer. stored_key buffer.space buffer.bytes.items };
}

impl KeyBuffer {
    /// The least key, without memory yet.
    pub fn new(alloc: Global) -> KeyBuffer
        ensures { result ≡ row_key [] }
    {
        KeyBuffer {
            space: Space::Rows,
            bytes: Vec::new(alloc),
        }
    }

    /// Copies a key into the memory. Without room for it the key is the least one.
    pub fn set(&mut self, key: LentKey) -> Result<(), AllocError>
        ensures set { OnOk result (self.new ≡ lent_key key.entry) }
        ensures refused { OnErr result (self.new ≡ row_key []) }
    {
        self.space = Space::Rows;
        self.bytes.clear();
        self.bytes.extend_from_slice(key.bytes)?;
        self.space = key.space;
        Ok(())
    }

    /// The key that was copied last.
    #[inline(always)]
    pub fn lent(&self) -> LentKey<'_>
        ensures { lent_key result ≡ self.now }
    {
        LentKey::new(self.space, &self.bytes)
    }

    /// The key that was copied last, with the memory.
    pub fn into_stored(self) -> StoredKey
        requires { IsStoredKey self }
        ensures { result ≡ self }
    {
        StoredKey::new(self.space, self.bytes)
    }
}
