//! The parts of the table of one put, written and read, and each of their bytes damaged.

use crate::cases::{holds_at, is_so};
use crate::items::{copy_of, is_same};
use crate::one_put::{
    BLOCK, FILTER, FOOTER, INDEX, OLD_BLOCK, OLD_FILTER, OLD_FOOTER, OLD_INDEX, index_with, turned,
};
use byte_fields::{Format, LentKey, Space};
use std::alloc::Global;
use std::process::Abort;
use table_format::{
    Footer, LentEntry, entries_of, entry_of, filter_of, filter_part_of, footer_of, footer_part_of,
    lines_of, put_entry, seal,
};

fn block(rt: &impl Abort, alloc: Global) -> Vec<u8> {
    let mut part = copy_of(rt, alloc, &[0, 0, 0, 1]);
    let entry = LentEntry {
        key: LentKey::new(Space::Rows, b"a"),
        number: 1,
        value: Some(b"1"),
    };
    put_entry(&mut part, entry).expect(rt, "memory");
    seal(&mut part).expect(rt, "memory");
    part
}

fn footer(rt: &impl Abort, alloc: Global) -> Vec<u8> {
    let footer = Footer {
        index: 48,
        index_len: 36,
        filter: 28,
        filter_len: 20,
        entries: 1,
        format: Format::Two,
    };
    footer_part_of(alloc, footer).expect(rt, "memory")
}

/// The content of the filter of the key `a`.
const BITS: [u8; 8] = [66, 0, 0, 33, 0, 132, 16, 0];

#[test]
fn parts_are_written(rt: HostRuntime) {
    let alloc = rt.alloc();
    is_so(&rt, is_same(&block(&rt, alloc), BLOCK), "the block");
    let filter = filter_part_of(alloc, &BITS).expect(&rt, "memory");
    is_so(&rt, is_same(&filter, FILTER), "the filter");
    is_so(
        &rt,
        is_same(&index_with(&rt, alloc, b"a"), INDEX),
        "the index",
    );
    is_so(&rt, is_same(&footer(&rt, alloc), FOOTER), "the footer");
}

/// Whether the block has that one entry in the format.
fn is_block(format: Format, part: &[u8]) -> bool {
    let Some(text) = entries_of(format, part) else {
        return false;
    };
    let Some((entry, rest)) = entry_of(format, text) else {
        return false;
    };
    rest.is_empty()
        && entry.key.space() == Space::Rows
        && is_same(entry.key.as_bytes(), b"a")
        && entry.number == 1
        && is_same(entry.value.unwrap_or_default(), b"1")
}

fn is_filter(part: &[u8], bits: &[u8]) -> bool {
    match filter_of(part) {
        Some(filter) => is_same(filter, bits),
        None => false,
    }
}

/// Whether it is the index in the format of one block that ends with `a` at 1 and at this place.
fn is_index(alloc: Global, format: Format, part: &[u8], end: u64) -> bool {
    let Ok(lines) = lines_of(alloc, format, part, end) else {
        return false;
    };
    match lines.first() {
        Some(line) => is_same(line.key.lent().as_bytes(), b"a") && line.number == 1,
        None => false,
    }
}

fn is_footer(part: &[u8]) -> bool {
    match footer_of(part) {
        Some(footer) => {
            footer.index == 48
                && footer.filter == 28
                && footer.entries == 1
                && footer.format.is_same(Format::Two)
        }
        None => false,
    }
}

#[test]
fn parts_are_read(rt: HostRuntime) {
    is_so(&rt, is_block(Format::Two, BLOCK), "the block");
    is_so(&rt, is_filter(FILTER, &BITS), "the filter");
    is_so(
        &rt,
        is_index(rt.alloc(), Format::Two, INDEX, 28),
        "the index",
    );
    is_so(&rt, is_footer(FOOTER), "the footer");
}

/// Whether it is the footer of the table of format 1.
fn is_old_footer(part: &[u8]) -> bool {
    match footer_of(part) {
        Some(footer) => {
            footer.index == 47
                && footer.filter == 27
                && footer.entries == 1
                && footer.format.is_same(Format::One)
        }
        None => false,
    }
}

/// The content of the filter of format 1 of the key `a`.
const OLD_BITS: [u8; 8] = [0, 12, 128, 1, 16, 0, 2, 64];

#[test]
fn parts_of_format_1_are_read(rt: HostRuntime) {
    let alloc = rt.alloc();
    is_so(&rt, is_block(Format::One, OLD_BLOCK), "the block");
    is_so(&rt, is_filter(OLD_FILTER, &OLD_BITS), "the filter");
    is_so(
        &rt,
        is_index(alloc, Format::One, OLD_INDEX, 27),
        "the index",
    );
    is_so(&rt, is_old_footer(OLD_FOOTER), "the footer");
    is_so(&rt, !is_block(Format::Two, OLD_BLOCK), "another block");
    is_so(&rt, !is_block(Format::One, BLOCK), "a new block");
    is_so(
        &rt,
        !is_index(alloc, Format::Two, OLD_INDEX, 27),
        "another index",
    );
}

/// The front of a part, up to its digest, with another byte at a place, and its digest anew.
fn resealed(rt: &impl Abort, alloc: Global, part: &[u8], (at, byte): (usize, u8)) -> Vec<u8> {
    let front = part.get(..part.len().wrapping_sub(8)).unwrap_or_default();
    let mut bytes = copy_of(rt, alloc, front);
    if let Some(place) = bytes.get_mut(at) {
        *place = byte;
    }
    seal(&mut bytes).expect(rt, "memory");
    bytes
}

/// Whether the block's first entry is one of a mark.
fn is_of_a_mark(part: &[u8]) -> bool {
    match entry_of(
        Format::Two,
        entries_of(Format::Two, part).unwrap_or_default(),
    ) {
        Some((entry, _)) => entry.key.space() == Space::Marks,
        None => false,
    }
}

// The space of the entry stands at 4, that of the line at 16, and the format at 35.
#[test]
fn two_spaces_and_two_formats(rt: HostRuntime) {
    let alloc = rt.alloc();
    let marked = resealed(&rt, alloc, BLOCK, (4, 1));
    is_so(&rt, is_of_a_mark(&marked), "the space of marks");
    let other = resealed(&rt, alloc, BLOCK, (4, 2));
    is_so(&rt, Kind::Block.refuses(alloc, &other), "a third space");
    let marked = resealed(&rt, alloc, INDEX, (16, 1));
    is_so(&rt, !Kind::Index.refuses(alloc, &marked), "a mark's line");
    let other = resealed(&rt, alloc, INDEX, (16, 2));
    is_so(&rt, Kind::Index.refuses(alloc, &other), "another line");
    for format in [0, 3, 4] {
        let other = resealed(&rt, alloc, FOOTER, (35, format));
        is_so(&rt, Kind::Footer.refuses(alloc, &other), "a format");
    }
}

/// The kinds of a part.
#[derive(Clone, Copy)]
enum Kind {
    Block,
    Filter,
    Index,
    Footer,
}

impl Kind {
    /// Whether the bytes are no part of this kind.
    fn refuses(self, alloc: Global, bytes: &[u8]) -> bool {
        match self {
            Kind::Block => entries_of(Format::Two, bytes).is_none(),
            Kind::Filter => filter_of(bytes).is_none(),
            Kind::Index => lines_of(alloc, Format::Two, bytes, 28).is_err(),
            Kind::Footer => footer_of(bytes).is_none(),
        }
    }
}

/// Fails the test unless damage of each byte of the part is found. The failure names its place in
/// the table, in which the part stands from a place on.
fn all_is_found(rt: &impl Abort, alloc: Global, kind: Kind, part: &[u8], place: usize) {
    for at in 0..part.len() {
        let is_found = kind.refuses(alloc, &turned(rt, alloc, part, at));
        holds_at(rt, place.wrapping_add(at), is_found);
    }
}

#[test]
fn damage_of_each_byte_is_found(rt: HostRuntime) {
    let alloc = rt.alloc();
    all_is_found(&rt, alloc, Kind::Block, BLOCK, 0);
    all_is_found(&rt, alloc, Kind::Filter, FILTER, 28);
    all_is_found(&rt, alloc, Kind::Index, INDEX, 48);
    all_is_found(&rt, alloc, Kind::Footer, FOOTER, 84);
}
