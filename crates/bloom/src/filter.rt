// The filter of a list of keys: its construction and its lookup.
ghost use Rattle.std.specs.Prelude.{◌≡◌, ◌⊎◌, ◌↔◌, ◌*◌, ◌<◌, ◌^◌, ℕ, List, length, map, IfOk};
ghost use Rattle.std.specs.Prelude.{IsTrue};
ghost use Rattle.bloom.specs.Filters.{HasBit, IsProbeOf, IsFilter, bytes_for, hashes_of};
ghost use Rattle.bloom.specs.Filters.{Covers, CoversAll, CoversHashed};

use crate::bits::{bits_of, has_bit, set_bit};
use crate::hashes::{KeyHashes, Probes};
use kv_types::Key;
use std::alloc::{AllocError, Global};

/// The number of probes of a key.
const PROBES: u8 = 7;

/// The length in bytes of a filter of this many keys: ten bits a key, and at least 64 bits.
fn bytes_for(keys: usize) -> usize
    requires { keys < 2 ^ 63 }
    ensures { result ≡ bytes_for keys }
{
    (keys + keys.div_ceil(4)).max(8)
}

// Inserts the key that has these hashes into a filter.
fn put(filter: &mut [u8], hashes: KeyHashes)
    requires { 0 < length filter.old }
    ensures len { length filter.new ≡ length filter.old }
    ensures put { (p : ℕ) → p < 8 * length filter.old → HasBit filter.new p ↔
        (HasBit filter.old p ⊎ IsProbeOf (8 * length filter.old) hashes p) }
{
    let mut probes = Probes::first(hashes, bits_of(filter));
    for i in 0..PROBES {
        set_bit(filter, probes.place);
        probes.advance();
    }
}

/// Builds the filter of these keys. Its size follows from their number, so no key should occur
/// twice.
pub fn build(alloc: Global, keys: &[Key]) -> Result<Vec<u8>, AllocError>
    ensures filter { IfOk result (λ filter. IsFilter keys.now filter.items) }
    ensures covers { IfOk result (λ filter. CoversAll filter.items keys.now) }
{
    let mut filter = vec![in alloc; 0u8; bytes_for(keys.len())]?;
    for key in keys {
        put(&mut filter, KeyHashes::of(key.as_bytes()));
    }
    Ok(filter)
}

/// `build` of the keys that have these hashes. Who collects keys for a filter needs to keep no more
/// of each than its hashes, which are 16 bytes.
pub fn build_hashed(alloc: Global, hashes: &[KeyHashes]) -> Result<Vec<u8>, AllocError>
    ensures { (keys : List (List ℕ)) → hashes.now ≡ map hashes_of keys →
        IfOk result (λ filter. IsFilter keys filter.items) }
{
    let mut filter = vec![in alloc; 0u8; bytes_for(hashes.len())]?;
    for of_key in hashes {
        put(&mut filter, *of_key);
    }
    Ok(filter)
}

/// Whether the filter may hold the key. It never denies a key that it was built from, and it
/// allocates no memory.
pub fn may_hold(filter: &[u8], key: &[u8]) -> bool
    ensures { IsTrue result ↔ Covers filter.now key.now }
{
    may_hold_hashed(filter, KeyHashes::of(key))
}

/// `may_hold` of the key that has these hashes.
pub fn may_hold_hashed(filter: &[u8], hashes: KeyHashes) -> bool
    ensures { IsTrue result ↔ CoversHashed filter.now hashes }
{
    if filter.is_empty() {
        return true;
    }
    let mut probes = Probes::first(hashes, bits_of(filter));
    for i in 0..PROBES {
        if !has_bit(filter, probes.place) {
            return false;
        }
        probes.advance();
    }
    true
}
