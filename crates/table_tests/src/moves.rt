//! Moves of a cursor, and 2,000 of them beside a plain list.

use crate::entries::is_same_value;
use crate::items::is_same;
use crate::plain::{Move, PlainEntry, PlainWalk, move_of};
use crate::sequence::Sequence;
use byte_fields::{LentKey, Space};
use merge_iter::{Cursor, CursorError, OwnedEntry};
use std::process::Abort;

/// How many moves a walk has.
pub const MOVES: usize = 2_000;

/// Makes the move: a step only where the cursor stands on an entry.
pub fn apply<C: Cursor>(
    cursor: &mut C,
    source: &mut C::Source,
    step: Move,
) -> Result<(), CursorError> {
    match step {
        Move::First => cursor.first(source),
        Move::Last => cursor.last(source),
        Move::Seek(key, number) => cursor.seek(
            source,
            LentKey::new(Space::Rows, &key.to_be_bytes()),
            number,
        ),
        Move::Next if cursor.valid() => cursor.next(source),
        Move::Prev if cursor.valid() => cursor.prev(source),
        _ => Ok(()),
    }
}

fn is_value(found: Option<&[u8]>, want: Option<u16>) -> bool {
    match (found, want) {
        (Some(bytes), Some(value)) => is_same(bytes, &value.to_be_bytes()),
        (None, None) => true,
        _ => false,
    }
}

/// Whether the cursor stands on an entry of this key.
pub fn is_at_key<C: Cursor>(cursor: &C, key: &[u8]) -> bool {
    cursor.valid() && is_same(cursor.key().as_bytes(), key)
}

/// Whether the cursor stands on this entry, or on none.
fn is_at<C: Cursor>(cursor: &C, want: Option<PlainEntry>) -> bool {
    if !cursor.valid() {
        return want.is_none();
    }
    let Some(entry) = want else {
        return false;
    };
    is_same(cursor.key().as_bytes(), &entry.key.to_be_bytes())
        && cursor.number() == entry.number
        && is_value(cursor.value(), entry.value)
}

/// How many of the moves led where they lead in the plain list. Seeks are to numbers up to one more
/// than the greatest.
pub fn agreeing<C: Cursor>(
    rt: &impl Abort,
    cursor: &mut C,
    source: &mut C::Source,
    entries: &[PlainEntry],
    numbers: u8,
) -> usize {
    let (mut sequence, mut walk) = (Sequence::new(3), PlainWalk::new(entries));
    let mut count = 0usize;
    for _ in 0..MOVES {
        let step = move_of(&mut sequence, walk.entry().is_some(), numbers);
        walk.apply(step);
        apply(cursor, source, step).expect(rt, "a move");
        count = count.wrapping_add(is_at(cursor, walk.entry()) as usize);
    }
    count
}

/// Whether the cursor stands on the entry of this place.
fn is_at_place<C: Cursor>(cursor: &C, entries: &[OwnedEntry], place: usize) -> bool {
    let Some(want) = entries.get(place) else {
        return false;
    };
    cursor.valid()
        && is_same(cursor.key().as_bytes(), want.key.lent().as_bytes())
        && cursor.number() == want.number
        && is_same_value(cursor.value(), want.value.as_deref())
}

/// The place of the entry that such steps meet behind so many.
fn place_of(step: Move, met: usize, all: usize) -> usize {
    match step {
        Move::Prev => all.wrapping_sub(met).wrapping_sub(1),
        _ => met,
    }
}

/// What is no count of entries.
const TOO_MANY: usize = usize::MAX;

/// How many of the entries a walk forward or back meets in their places, where it ends behind them.
fn met<C: Cursor>(
    rt: &impl Abort,
    cursor: &mut C,
    source: &mut C::Source,
    entries: &[OwnedEntry],
    (start, step): (Move, Move),
) -> usize {
    let mut count = 0usize;
    apply(cursor, source, start).expect(rt, "an end");
    for i in 0..entries.len() {
        let place = place_of(step, i, entries.len());
        count = count.wrapping_add(is_at_place(cursor, entries, place) as usize);
        apply(cursor, source, step).expect(rt, "a step");
    }
    if cursor.valid() { TOO_MANY } else { count }
}

/// Fails the test where a walk forward, or one back, does not meet each entry in its place.
pub fn meet_all<C: Cursor>(
    rt: &impl Abort,
    cursor: &mut C,
    source: &mut C::Source,
    entries: &[OwnedEntry],
    all: usize,
) {
    let forward = met(rt, cursor, source, entries, (Move::First, Move::Next));
    let back = met(rt, cursor, source, entries, (Move::Last, Move::Prev));
    assert!(rt; forward == all && back == all, "{forward} {back}");
}
