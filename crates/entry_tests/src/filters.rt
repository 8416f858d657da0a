//! The bytes of complete filters, and the keys that they deny.

use crate::cases::{holds_at, is_so};
use crate::counts::is_count;
use crate::items::{is_same, key_of, put};
use bloom::{KeyHashes, build, may_hold, may_hold_hashed};
use kv_types::Key;
use std::alloc::Global;
use std::process::Abort;

/// Keys of one letter each, or one of several, and the bytes of their filter.
static FILTERS: [(&[&[u8]], &[u8]); 3] = [
    (&[], &[0, 0, 0, 0, 0, 0, 0, 0]),
    (&[b"abc"], &[0x00, 0x20, 0x08, 0x02, 0x00, 0x04, 0x41, 0x10]),
    (&[b"a", b"b", b"c", b"d", b"e", b"f", b"g"], OF_SEVEN),
];

/// The filter of the keys from `a` to `g`.
const OF_SEVEN: &[u8] = &[0xec, 0x51, 0x81, 0x67, 0x6e, 0x78, 0x7c, 0x25, 0x76];

/// Whether the keys have this filter.
fn is_filter(rt: &impl Abort, alloc: Global, texts: &[&[u8]], want: &[u8]) -> bool {
    let mut keys = Vec::new(alloc);
    for text in texts {
        put(rt, &mut keys, key_of(rt, alloc, *text));
    }
    let filter = build(alloc, &keys).expect(rt, "memory");
    is_same(&filter, want)
}

#[test]
fn filters_in_bytes(rt: HostRuntime) {
    for (index, (texts, want)) in FILTERS.iter().enumerate() {
        holds_at(&rt, index, is_filter(&rt, rt.alloc(), *texts, *want));
    }
}

/// Whether a filter says so of the key, by its bytes and by its hashes.
fn is_answer(filter: &[u8], key: &[u8], is_held: bool) -> bool {
    may_hold(filter, key) == is_held && may_hold_hashed(filter, KeyHashes::of(key)) == is_held
}

// The filter of the keys from `a` to `g` denies those from `h` to `n`.
#[test]
fn what_was_put_in_is_not_denied(rt: HostRuntime) {
    for (index, key) in b"abcdefghijklmn".iter().enumerate() {
        holds_at(&rt, index, is_answer(OF_SEVEN, &[*key], index < 7));
    }
    is_so(&rt, may_hold(&[], b"h"), "no bytes deny no key");
}

/// A key for each number of two bytes below this one.
fn many_keys(rt: &impl Abort, alloc: Global, count: u16) -> Vec<Key> {
    let mut keys = Vec::new(alloc);
    for i in 0..count {
        put(rt, &mut keys, key_of(rt, alloc, &i.to_be_bytes()));
    }
    keys
}

/// How many of the keys the filter may hold.
fn held_of(filter: &[u8], keys: &[Key]) -> usize {
    let mut count = 0usize;
    for key in keys {
        count = count.wrapping_add(is_answer(filter, key.as_bytes(), true) as usize);
    }
    count
}

#[test]
fn the_filter_of_many_keys(rt: HostRuntime) {
    let keys = many_keys(&rt, rt.alloc(), 1_000);
    let filter = build(rt.alloc(), &keys).expect(&rt, "memory");
    is_count(&rt, filter.len(), 1_250);
    is_count(&rt, held_of(&filter, &keys), 1_000);
}
