// Keys in their order, ranges at their bounds, and copies of ranges and rows.
use crate::cases::{Case, all_hold, is_so};
use crate::items::{is_same, key_of};
use kv_types::{KvError, Page, Range, Row};
use std::alloc::Global;
use std::process::Abort;

/// The range from `b`, to this bound or open, if that is one.
pub fn try_range(
    rt: &impl Abort,
    alloc: Global,
    to: Option<&[u8]>,
    backward: bool,
    limit: u32,
) -> Result<Range, KvError> {
    let to = match to {
        Some(to) => Some(key_of(rt, alloc, to)),
        None => None,
    };
    Range::new(key_of(rt, alloc, b"b"), to, backward, limit)
}

fn range_of(
    rt: &impl Abort,
    alloc: Global,
    to: Option<&[u8]>,
    backward: bool,
    limit: u32,
) -> Range {
    try_range(rt, alloc, to, backward, limit).expect(rt, "a range")
}

/// Two keys, whether the first is below the second, which is to be less, and whether they are
/// equal.
struct Keys(&'static [u8], &'static [u8], bool, bool);

impl Case for Keys {
    fn holds(&self, rt: &impl Abort, alloc: Global) -> bool {
        let (a, b) = (key_of(rt, alloc, self.0), key_of(rt, alloc, self.1));
        a.is_below(&b) == self.2 && (a < b) == self.2 && (a == b) == self.3
    }
}

static KEYS: [Keys; 6] = [
    Keys(b"", b"", false, true),
    Keys(b"", b"\x00", true, false),
    Keys(b"a", b"ab", true, false),
    Keys(b"ab", b"b", true, false),
    Keys(b"b", b"ab", false, false),
    Keys(b"\x7f", b"\x80", true, false),
];

#[test]
fn keys_compare_by_their_bytes(rt: HostRuntime) {
    all_hold(&rt, rt.alloc(), &KEYS);
}

/// A key, the end of a range from `b`, and whether the key is in that range.
struct InRange(&'static [u8], Option<&'static [u8]>, bool);

impl Case for InRange {
    fn holds(&self, rt: &impl Abort, alloc: Global) -> bool {
        let key = key_of(rt, alloc, self.0);
        let range = range_of(rt, alloc, self.1, false, 1);
        let is_in = range.contains(&key);
        drop(range);
        is_in == self.2
    }
}

static IN_RANGES: [InRange; 10] = [
    InRange(b"a", Some(b"d"), false),
    InRange(b"b", Some(b"d"), true),
    InRange(b"cc", Some(b"d"), true),
    InRange(b"d", Some(b"d"), false),
    InRange(b"e", Some(b"d"), false),
    InRange(b"a", None, false),
    InRange(b"b", None, true),
    InRange(b"cc", None, true),
    InRange(b"d", None, true),
    InRange(b"e", None, true),
];

#[test]
fn a_range_ends_before_its_bound(rt: HostRuntime) {
    all_hold(&rt, rt.alloc(), &IN_RANGES);
}

/// Whether the range goes backward from `b` to `d`, by two rows.
fn is_backward(range: &Range) -> bool {
    let ends_so = match range.to() {
        Some(to) => is_same(to.as_bytes(), b"d"),
        None => false,
    };
    let begins_so = is_same(range.from().as_bytes(), b"b");
    begins_so && ends_so && range.is_backward() && range.limit() == 2
}

/// Whether a copy of such a range is one.
fn copies_range(rt: &impl Abort, alloc: Global) -> bool {
    let range = range_of(rt, alloc, Some(b"d"), true, 2);
    let copy = range.clone().expect(rt, "memory");
    drop(range);
    let is_backward = is_backward(&copy);
    drop(copy);
    is_backward
}

fn row_of(rt: &impl Abort, alloc: Global) -> Row {
    Row::new(alloc, b"a", b"1").expect(rt, "memory")
}

/// Whether a page of this row has one row, and says that there are more.
fn pages(rt: &impl Abort, alloc: Global, row: Row) -> bool {
    let page = Page::new(vec![in alloc; row].expect(rt, "memory"), true);
    let is_page = page.rows().len() == 1 && page.has_more();
    drop(page);
    is_page
}

/// Whether a row is of 6 bytes, and a page of its copy is one of a row.
fn copies_row(rt: &impl Abort, alloc: Global) -> bool {
    let row = row_of(rt, alloc);
    let (size, copy) = (row.size(), row.clone().expect(rt, "memory"));
    drop(row);
    pages(rt, alloc, copy) && size == 6
}

#[test]
fn copies_of_ranges_and_rows(rt: HostRuntime) {
    is_so(&rt, copies_range(&rt, rt.alloc()), "a range");
    is_so(&rt, copies_row(&rt, rt.alloc()), "a row");
}
