//! The parts of the table in which `1` was put at `a` by the batch with number 1.

use crate::items::{copy_of, row_key_of};
use std::alloc::Global;
use std::process::Abort;
use table_format::{IndexLine, put_line, seal};

/// The block of its one entry.
pub const BLOCK: &[u8] = &[
    0, 0, 0, 1, 0, 0, 1, 97, 0, 0, 0, 0, 0, 0, 0, 1, 1, 0, 1, 49, 164, 242, 148, 39, 74, 251, 126,
    24,
];

/// The part of the filter of the key `a`.
pub const FILTER: &[u8] = &[
    0, 0, 0, 8, 66, 0, 0, 33, 0, 132, 16, 0, 4, 199, 123, 171, 144, 83, 63, 107,
];

/// The index of that block.
pub const INDEX: &[u8] = &[
    0, 0, 0, 1, 0, 0, 0, 0, 0, 0, 0, 0, 0, 0, 0, 28, 0, 0, 1, 97, 0, 0, 0, 0, 0, 0, 0, 1, 125, 50,
    35, 120, 194, 158, 245, 103,
];

/// The footer behind them.
pub const FOOTER: &[u8] = &[
    0, 0, 0, 0, 0, 0, 0, 48, 0, 0, 0, 36, 0, 0, 0, 0, 0, 0, 0, 28, 0, 0, 0, 20, 0, 0, 0, 0, 0, 0,
    0, 1, 0, 0, 0, 2, 67, 82, 76, 83, 77, 84, 48, 49, 84, 63, 200, 119, 222, 185, 12, 36,
];

/// The block of format 1 of that entry.
pub const OLD_BLOCK: &[u8] = &[
    0, 0, 0, 1, 0, 1, 97, 0, 0, 0, 0, 0, 0, 0, 1, 1, 0, 1, 49, 176, 228, 216, 211, 250, 103, 200, 7,
];

/// The part of the filter of format 1, which holds the key without its space.
pub const OLD_FILTER: &[u8] = &[
    0, 0, 0, 8, 0, 12, 128, 1, 16, 0, 2, 64, 180, 15, 122, 118, 18, 42, 63, 81,
];

/// The index of format 1 of that block.
pub const OLD_INDEX: &[u8] = &[
    0, 0, 0, 1, 0, 0, 0, 0, 0, 0, 0, 0, 0, 0, 0, 27, 0, 1, 97, 0, 0, 0, 0, 0, 0, 0, 1, 29, 191, 61,
    191, 75, 60, 111, 219,
];

/// The footer of format 1 behind them.
pub const OLD_FOOTER: &[u8] = &[
    0, 0, 0, 0, 0, 0, 0, 47, 0, 0, 0, 35, 0, 0, 0, 0, 0, 0, 0, 27, 0, 0, 0, 20, 0, 0, 0, 0, 0, 0,
    0, 1, 0, 0, 0, 1, 67, 82, 76, 83, 77, 84, 48, 49, 131, 236, 126, 53, 92, 27, 68, 168,
];

/// The index that says that this block ends with the key at number 1.
pub fn index_with(rt: &impl Abort, alloc: Global, key: &[u8]) -> Vec<u8> {
    let mut part = copy_of(rt, alloc, &[0, 0, 0, 1]);
    let line = IndexLine {
        place: 0,
        len: 28,
        key: row_key_of(rt, alloc, key),
        number: 1,
    };
    put_line(&mut part, &line).expect(rt, "a line");
    seal(&mut part).expect(rt, "memory");
    part
}

/// These parts one after another.
pub fn joined(rt: &impl Abort, alloc: Global, parts: &[&[u8]]) -> Vec<u8> {
    let mut bytes = Vec::new(alloc);
    for part in parts {
        bytes.extend_from_slice(*part).expect(rt, "memory");
    }
    bytes
}

/// The bytes with one bit of the byte at a place turned.
pub fn turned(rt: &impl Abort, alloc: Global, bytes: &[u8], at: usize) -> Vec<u8> {
    let mut bytes = copy_of(rt, alloc, bytes);
    if let Some(byte) = bytes.get_mut(at) {
        *byte ^= 1;
    }
    bytes
}
