//! Pages of rows, read through the view at a number of a list: bounds of each kind, both limits to
//! the row and the byte, and page after page to the end, both ways.

use crate::cases::{holds_at, is_so};
use crate::counts::is_count;
use crate::entries::{client_key, entry_at, entry_of, owned};
use crate::items::{filled, is_same, key_of, put};
use crate::plain::PlainEntry;
use kv_types::{Key, Page, Range, Row};
use merge_iter::{AtNumber, ListCursor, OwnedEntry};
use row_pages::read_page;
use std::alloc::Global;
use std::process::Abort;

/// Seven keys with their numbers. At 5 the view shows rows of 20, 30, 50 and 65,535: the least key
/// and the last but one are deleted, two have newer versions, and one has none yet.
static VERSIONS: [(u16, u64, Option<u16>); 11] = [
    (10, 3, None),
    (10, 1, Some(1)),
    (20, 1, Some(2)),
    (30, 9, Some(8)),
    (30, 1, Some(3)),
    (40, 6, Some(4)),
    (50, 2, Some(5)),
    (60, 4, None),
    (60, 1, Some(6)),
    (65_535, 7, None),
    (65_535, 5, Some(7)),
];

/// The key and the value of a row.
type Pair = (u16, u16);

const A: Pair = (20, 2);

const B: Pair = (30, 3);

const C: Pair = (50, 5);

const D: Pair = (65_535, 7);

/// The bounds of a range and its limit; the rows of its page forward and back; and whether more
/// are left. Of those without rows, the bounds are equal, reversed, or around deleted keys.
type Case = (
    u16,
    Option<u16>,
    u32,
    &'static [Pair],
    &'static [Pair],
    bool,
);

static CASES: [Case; 14] = [
    (0, None, 1_024, &[A, B, C, D], &[D, C, B, A], false),
    (20, Some(50), 4, &[A, B], &[B, A], false),
    (20, Some(51), 3, &[A, B, C], &[C, B, A], false),
    (20, Some(51), 2, &[A, B], &[C, B], true),
    (10, Some(60), 1, &[A], &[C], true),
    (21, Some(50), 1, &[B], &[B], false),
    (50, None, 1, &[C], &[D], true),
    (65_535, None, 1, &[D], &[D], false),
    (30, Some(30), 9, &[], &[], false),
    (50, Some(20), 9, &[], &[], false),
    (0, Some(20), 9, &[], &[], false),
    (31, Some(50), 9, &[], &[], false),
    (51, Some(65_535), 9, &[], &[], false),
    (0, Some(0), 9, &[], &[], false),
];

/// The view at this number of the versions.
fn view_of(
    rt: &impl Abort,
    alloc: Global,
    versions: &[(u16, u64, Option<u16>)],
    at: u64,
) -> AtNumber<ListCursor> {
    let mut entries = Vec::new(alloc);
    for &(key, number, value) in versions {
        let entry = owned(rt, alloc, PlainEntry { key, number, value });
        put(rt, &mut entries, entry);
    }
    AtNumber::new(alloc, ListCursor::new(entries), at)
}

/// The page of the range.
fn page_of(
    rt: &impl Abort,
    alloc: Global,
    view: &mut AtNumber<ListCursor>,
    (from, to): (Key, Option<Key>),
    (is_back, limit): (bool, u32),
) -> Page {
    let range = Range::new(from, to, is_back, limit).expect(rt, "a range");
    read_page(alloc, view, &mut (), &range).expect(rt, "a page")
}

/// The page of the keys in two bytes from one on.
fn short_page(
    rt: &impl Abort,
    alloc: Global,
    view: &mut AtNumber<ListCursor>,
    (from, to): (u16, Option<u16>),
    way: (bool, u32),
) -> Page {
    let from = key_of(rt, alloc, &from.to_be_bytes());
    let to = match to {
        Some(to) => Some(key_of(rt, alloc, &to.to_be_bytes())),
        None => None,
    };
    page_of(rt, alloc, view, (from, to), way)
}

fn is_row(row: &Row, (key, value): Pair) -> bool {
    is_same(row.key(), &key.to_be_bytes()) && is_same(row.value(), &value.to_be_bytes())
}

fn has_rows(page: &Page, want: &[Pair], has_more: bool) -> bool {
    let mut same = 0usize;
    for (row, pair) in page.rows().iter().zip(want) {
        same = same.wrapping_add(is_row(row, *pair) as usize);
    }
    same == want.len() && page.rows().len() == same && page.has_more() == has_more
}

/// Whether both pages of the case are as they are to be.
fn holds(rt: &impl Abort, alloc: Global, view: &mut AtNumber<ListCursor>, case: &Case) -> bool {
    let (from, to, limit, forward, back, has_more) = *case;
    let page = short_page(rt, alloc, view, (from, to), (false, limit));
    let is_forward = has_rows(&page, forward, has_more);
    let page = short_page(rt, alloc, view, (from, to), (true, limit));
    is_forward && has_rows(&page, back, has_more)
}

// The pages are read one behind another by one cursor.
#[test]
fn pages_of_seven_keys(rt: HostRuntime) {
    let mut view = view_of(&rt, rt.alloc(), &VERSIONS, 5);
    for (index, case) in CASES.iter().enumerate() {
        holds_at(&rt, index, holds(&rt, rt.alloc(), &mut view, case));
    }
}

// ---- page by page

/// So many rows, whose keys and values are their places; the limit of a page, and how many pages a
/// walk has.
static WALKS: [(u16, u32, usize); 6] = [
    (1_025, 1_024, 2),
    (1_024, 1_024, 1),
    (1_025, 100, 11),
    (1_000, 100, 10),
    (50, 1, 50),
    (0, 7, 1),
];

fn numbered_rows(rt: &impl Abort, alloc: Global, count: u16) -> AtNumber<ListCursor> {
    let mut versions = Vec::new(alloc);
    for i in 0..count {
        put(rt, &mut versions, (i, 1, Some(i)));
    }
    view_of(rt, alloc, &versions, 1)
}

/// The place of the row that a walk of so many rows meets behind these.
fn place_behind(met: u16, count: u16, is_back: bool) -> u16 {
    if is_back {
        count.wrapping_sub(met).wrapping_sub(1)
    } else {
        met
    }
}

/// The bounds of the page behind these rows.
fn bounds_behind(met: u16, count: u16, is_back: bool) -> (u16, Option<u16>) {
    match (is_back, met) {
        (false, _) => (met, None),
        (true, 0) => (0, None),
        (true, _) => (0, Some(count.wrapping_sub(met))),
    }
}

/// How many rows of the page are those that the walk meets behind these.
fn rows_behind(page: &Page, met: u16, count: u16, is_back: bool) -> u16 {
    let mut found = 0u16;
    for row in page.rows() {
        let place = place_behind(met.wrapping_add(found), count, is_back);
        if !is_row(row, (place, place)) {
            return found;
        }
        found = found.wrapping_add(1);
    }
    found
}

/// How many rows a walk meets page by page, and in how many pages.
fn walk(rt: &impl Abort, alloc: Global, count: u16, limit: u32, is_back: bool) -> (u16, usize) {
    let mut view = numbered_rows(rt, alloc, count);
    let mut met = 0u16;
    for pages in 1..2_000usize {
        let bounds = bounds_behind(met, count, is_back);
        let page = short_page(rt, alloc, &mut view, bounds, (is_back, limit));
        met = met.wrapping_add(rows_behind(&page, met, count, is_back));
        if !page.has_more() {
            return (met, pages);
        }
    }
    (met, 0)
}

#[test]
fn walks_page_by_page(rt: HostRuntime) {
    let alloc = rt.alloc();
    for (index, &(count, limit, pages)) in WALKS.iter().enumerate() {
        let forward = walk(&rt, alloc, count, limit, false) == (count, pages);
        let back = walk(&rt, alloc, count, limit, true) == (count, pages);
        holds_at(&rt, index, forward && back);
    }
}

// ---- the greatest page, and the greatest key

/// The length of the sixth value behind five rows of the greatest size, 87,060 bytes together; how
/// many rows a page has, and whether more are left. The sixth row counts 5 bytes besides its value,
/// so at 11,239 the page has exactly 98,304.
static SIZES: [(usize, usize, bool); 3] = [
    (11_238, 6, false),
    (11_239, 6, false),
    (11_240, 5, true),
];

/// A row at number 1.
fn add(rt: &impl Abort, alloc: Global, entries: &mut Vec<OwnedEntry>, key: &[u8], value: &[u8]) {
    put(rt, entries, entry_of(rt, alloc, key, 1, Some(value)));
}

fn large_rows(rt: &impl Abort, alloc: Global, last: usize) -> AtNumber<ListCursor> {
    let value = filled(rt, alloc, 7, 16_384);
    let mut entries = Vec::new(alloc);
    for byte in 1..6u8 {
        add(rt, alloc, &mut entries, &[byte; 1_024], &value);
    }
    add(rt, alloc, &mut entries, &[6], &filled(rt, alloc, 8, last));
    AtNumber::new(alloc, ListCursor::new(entries), 1)
}

/// How many rows the page of all has, and whether more are left.
fn size_of(
    rt: &impl Abort,
    alloc: Global,
    view: &mut AtNumber<ListCursor>,
    is_back: bool,
) -> (usize, bool) {
    let all = (key_of(rt, alloc, &[]), None);
    let page = page_of(rt, alloc, view, all, (is_back, 1_024));
    (page.rows().len(), page.has_more())
}

#[test]
fn pages_of_98_304_bytes(rt: HostRuntime) {
    let alloc = rt.alloc();
    for (index, &(last, rows, has_more)) in SIZES.iter().enumerate() {
        let mut view = large_rows(&rt, alloc, last);
        let forward = size_of(&rt, alloc, &mut view, false) == (rows, has_more);
        let back = size_of(&rt, alloc, &mut view, true) == (rows, has_more);
        holds_at(&rt, index, forward && back);
    }
}

/// The length of the key of the page's only row, where no more are left.
fn only_key(page: &Page) -> Option<usize> {
    match page.rows() {
        [row] if !page.has_more() => Some(row.key().len()),
        _ => None,
    }
}

/// Whether of two keys, a short one and the greatest, the greatest is in the range from it on, and
/// the other in the range below it.
fn are_parted(
    rt: &impl Abort,
    alloc: Global,
    view: &mut AtNumber<ListCursor>,
    is_back: bool,
) -> bool {
    let (least, greatest) = (key_of(rt, alloc, &[]), [255u8; 1_024]);
    let from = (key_of(rt, alloc, &greatest), None);
    let above = only_key(&page_of(rt, alloc, view, from, (is_back, 9)));
    let below = (least, Some(key_of(rt, alloc, &greatest)));
    let below = only_key(&page_of(rt, alloc, view, below, (is_back, 9)));
    above == Some(1_024) && below == Some(1)
}

#[test]
fn pages_about_the_greatest_key(rt: HostRuntime) {
    let (alloc, mut entries) = (rt.alloc(), Vec::new(rt.alloc()));
    add(&rt, alloc, &mut entries, &[255], &[]);
    add(&rt, alloc, &mut entries, &[255; 1_024], &[]);
    let mut view = AtNumber::new(alloc, ListCursor::new(entries), 1);
    is_so(&rt, are_parted(&rt, alloc, &mut view, false), "forward");
    is_so(&rt, are_parted(&rt, alloc, &mut view, true), "back");
}

// ---- marks

/// The entry of a mark of this client.
fn add_mark(rt: &impl Abort, alloc: Global, entries: &mut Vec<OwnedEntry>, client: u64) {
    let key = client_key(rt, alloc, client);
    let request = [0, 0, 0, 0, 0, 0, 0, 1];
    put(rt, entries, entry_at(rt, alloc, key, 1, Some(&request)));
}

/// The view of so many rows, whose keys and values are their places, and behind them two marks.
fn rows_and_marks(rt: &impl Abort, alloc: Global, count: u16) -> AtNumber<ListCursor> {
    let mut entries = Vec::new(alloc);
    for i in 0..count {
        let place = i.to_be_bytes();
        add(rt, alloc, &mut entries, &place, &place);
    }
    add_mark(rt, alloc, &mut entries, 1);
    add_mark(rt, alloc, &mut entries, 7);
    AtNumber::new(alloc, ListCursor::new(entries), 1)
}

/// The least key of a range, the key that it ends below, and the limit of its page; and the rows
/// that it has forward and back, and whether more are left. No mark is among the two rows.
static BEFORE_MARKS: [Case; 6] = [
    (0, None, 9, &[(0, 0), (1, 1)], &[(1, 1), (0, 0)], false),
    (0, None, 2, &[(0, 0), (1, 1)], &[(1, 1), (0, 0)], false),
    (0, None, 1, &[(0, 0)], &[(1, 1)], true),
    (1, None, 1, &[(1, 1)], &[(1, 1)], false),
    (1, Some(65_535), 9, &[(1, 1)], &[(1, 1)], false),
    (2, None, 1, &[], &[], false),
];

#[test]
fn pages_show_no_marks(rt: HostRuntime) {
    let mut view = rows_and_marks(&rt, rt.alloc(), 2);
    for (index, case) in BEFORE_MARKS.iter().enumerate() {
        holds_at(&rt, index, holds(&rt, rt.alloc(), &mut view, case));
    }
    let mut view = rows_and_marks(&rt, rt.alloc(), 0);
    let alone: Case = (0, None, 9, &[], &[], false);
    is_so(
        &rt,
        holds(&rt, rt.alloc(), &mut view, &alone),
        "marks alone",
    );
}
