//! What a builder keeps of the keys of its entries.
ghost use Rattle.std.specs.Prelude.{◌≡◌, length};
ghost use Rattle.byte_fields.specs.{IsStoredKey};

use bloom::KeyHashes;
use byte_fields::{KeyBuffer, LentKey};
use merge_iter::order;
use std::alloc::{AllocError, Global};

/// The number of entries, the hashes of each different key, the least key, and key and number of
/// the last entry.
#[derive(Drop)]
pub struct AddedKeys {
    pub count: u64,
    pub hashes: Vec<KeyHashes>,
    pub least: KeyBuffer,
    pub last: KeyBuffer,
    pub number: u64,
    ghost least_kept: { IsStoredKey least },
    ghost last_kept: { IsStoredKey last },
}

impl AddedKeys {
    ghost use Rattle.std.specs.Prelude.{◌<◌, ◌^◌, ◌+◌, ◌++◌, ◌∷◌, [], ◌↔◌, List};
    ghost use Rattle.std.specs.Prelude.{OnOk, IsTrue};
    ghost use Rattle.bloom.specs.{hashes_of};
    ghost use Rattle.byte_fields.specs.{lent_key};
    ghost use Rattle.kv_types.specs.{Entry};
    ghost use Rattle.table_format.specs.{CanFollow};
    ghost use Rattle.table_builder.specs.Keys.{KnowsKeys};

    pub fn new(alloc: Global) -> AddedKeys
        ensures { KnowsKeys result [] }
    {
        AddedKeys {
            count: 0,
            hashes: Vec::new(alloc),
            least: KeyBuffer::new(alloc),
            last: KeyBuffer::new(alloc),
            number: 0,
        }
    }

    // Adds a key that no entry had.
    fn add_key(&mut self, key: LentKey) -> Result<(), AllocError>
        requires { IsStoredKey (lent_key key) }
        ensures hashes { OnOk result
            (self.new.hashes.items ≡ self.old.hashes.items ++ hashes_of (lent_key key.entry) ∷ []) }
        ensures last { OnOk result (self.new.last ≡ lent_key key.entry) }
        ensures same { (self.new.count ≡ self.old.count)
            × (self.new.least ≡ self.old.least) }
    {
        self.hashes.push(KeyHashes::of_stored(key))?;
        self.last.set(key)
    }

    /// Adds an entry with this key and number behind the others.
    pub fn add(&mut self, key: LentKey, number: u64) -> Result<(), AllocError>
        requires { IsStoredKey (lent_key key) }
        ensures { (entries : List Entry) (entry : Entry) → KnowsKeys self.old entries →
            entry.key ≡ lent_key key.entry → entry.number ≡ number → length entries + 1 < 2 ^ 64 →
            OnOk result (KnowsKeys self.new (entries ++ entry ∷ [])) }
    {
        if self.count == 0 {
            self.least.set(key)?;
            self.add_key(key)?;
            self.number = number;
            self.count = 1;
            return Ok(());
        }
        if self.last.lent().is_same(key) {
            self.number = number;
            self.count = self.count.saturating_add(1);
            return Ok(());
        }
        self.add_key(key)?;
        self.number = number;
        self.count = self.count.saturating_add(1);
        Ok(())
    }

    /// Whether an entry with this key and number may stand behind the others.
    pub fn can_follow(&self, key: LentKey, number: u64) -> bool
        ensures { (entries : List Entry) (entry : Entry) → KnowsKeys self.now entries →
            entry.key ≡ lent_key key.entry → entry.number ≡ number →
            IsTrue result ↔ CanFollow entries entry }
    {
        self.count == 0 || order(self.last.lent(), self.number, key, number).is_lt()
    }
}
