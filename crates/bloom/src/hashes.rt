// The two hashes of a key, and the probes computed from them.
ghost use Rattle.std.specs.Prelude.{◌≡◌, ◌<◌, ◌+◌, ◌%◌, ℕ};
ghost use Rattle.byte_fields.specs.{lent_key};
ghost use Rattle.bloom.specs.Filters.{hashes_of};

use byte_fields::LentKey;
use byteorder::{BigEndian, ByteOrder};
use sha2::{Digest, Sha256};
use std::marker::Model;

/// The two hashes of a key. A lookup in the filters of many tables digests its key once, by `of`,
/// and asks each filter with `may_hold_hashed`.
#[derive(Clone, Copy)]
pub struct KeyHashes {
    first: u64,
    second: u64,
}

impl Model for KeyHashes {
    ghost Value = { ℕ × ℕ };

    ghost view = { λ hashes. (hashes.first, hashes.second) };

    ghost inverse = { λ words. record { first = words.0; second = words.1 } };
}

impl KeyHashes {
    /// The hashes of a key: the first eight bytes of its SHA-256, and the next eight.
    pub fn of(key: &[u8]) -> KeyHashes
        ensures { result ≡ hashes_of key.now }
    {
        let digest = Sha256::digest(key);
        KeyHashes {
            first: BigEndian::read_u64(&digest[..8]),
            second: BigEndian::read_u64(&digest[8..16]),
        }
    }

    /// The hashes of a stored key: those of the number of its space and its bytes.
    pub fn of_stored(key: LentKey) -> KeyHashes
        ensures { result ≡ hashes_of (lent_key key.entry) }
    {
        let mut hasher = Sha256::new();
        hasher.update(&[key.space().number()]);
        hasher.update(key.as_bytes());
        let hash = hasher.finalize();
        KeyHashes {
            first: BigEndian::read_u64(&hash[..8]),
            second: BigEndian::read_u64(&hash[8..16]),
        }
    }
}

/// A place among some bits that probes walk over, in steps of one length.
#[derive(Drop)]
pub struct Probes {
    pub place: u128,
    step: u128,
    bits: u128,
    ghost placed: { place < bits },
    ghost short: { step < bits },
}

/// What a word leaves when it is divided by a number of bits.
fn remainder(word: u64, bits: u128) -> u128
    requires { 0 < bits }
    ensures { result ≡ word % bits }
{
    // A division of 64 bits is several times as fast as one of 128.
    if bits <= u64::MAX as u128 {
        (word % bits as u64) as u128
    } else {
        word as u128
    }
}

/// The sum of two remainders, reduced again.
fn sum_of(a: u128, b: u128, bits: u128) -> u128
    requires first { a < bits }
    requires second { b < bits }
    ensures { result ≡ (a + b) % bits }
{
    let room = bits - b;
    if a < room { a + b } else { a - room }
}

impl Probes {
    ghost use Rattle.bloom.specs.Probes.{IsAtProbe};

    /// The first probe of a key with these hashes, among this many bits.
    pub fn first(hashes: KeyHashes, bits: u128) -> Probes
        requires { 0 < bits }
        ensures { IsAtProbe bits hashes 0 result }
    {
        Probes {
            place: remainder(hashes.first, bits),
            step: remainder(hashes.second, bits),
            bits,
        }
    }

    /// Goes to the next probe.
    pub fn advance(&mut self)
        ensures { (bits : ℕ) (hashes : ℕ × ℕ) (i : ℕ) →
            IsAtProbe bits hashes i self.old → IsAtProbe bits hashes (i + 1) self.new }
    {
        self.place = sum_of(self.place, self.step, self.bits);
    }
}
