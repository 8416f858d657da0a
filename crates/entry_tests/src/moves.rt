//! Moves of a cursor, and 2,000 of them beside a plain list.

use crate::items::is_same;
use crate::plain::{Move, PlainEntry, PlainWalk, move_of};
use crate::sequence::Sequence;
use byte_fields::{LentKey, Space};
use merge_iter::{Cursor, CursorError};
use std::process::Abort;

/// How many moves a walk has.
pub const MOVES: usize = 2_000;

/// Makes the move: a step only where the cursor stands on an entry.
pub fn apply<C: Cursor>(
    cursor: &mut C,
    source: &mut C::Source,
    step: Move,
) -> Result<(), CursorError> {
    match step {
        Move::First => cursor.first(source),
        Move::Last => cursor.last(source),
        Move::Seek(key, number) => cursor.seek(
            source,
            LentKey::new(Space::Rows, &key.to_be_bytes()),
            number,
        ),
        Move::Next if cursor.valid() => cursor.next(source),
        Move::Prev if cursor.valid() => cursor.prev(source),
        _ => Ok(()),
    }
}

fn is_value(found: Option<&[u8]>, want: Option<u16>) -> bool {
    match (found, want) {
        (Some(bytes), Some(value)) => is_same(bytes, &value.to_be_bytes()),
        (None, None) => true,
        _ => false,
    }
}

/// Whether the cursor stands on this entry, or on none.
fn is_at<C: Cursor>(cursor: &C, want: Option<PlainEntry>) -> bool {
    if !cursor.valid() {
        return want.is_none();
    }
    let Some(entry) = want else {
        return false;
    };
    is_same(cursor.key().as_bytes(), &entry.key.to_be_bytes())
        && cursor.number() == entry.number
        && is_value(cursor.value(), entry.value)
}

/// How many of the moves led where they lead in the plain list. Seeks are to numbers up to one more
/// than the greatest.
pub fn agreeing<C: Cursor>(
    rt: &impl Abort,
    cursor: &mut C,
    source: &mut C::Source,
    entries: &[PlainEntry],
    numbers: u8,
) -> usize {
    let (mut sequence, mut walk) = (Sequence::new(3), PlainWalk::new(entries));
    let mut count = 0usize;
    for _ in 0..MOVES {
        let step = move_of(&mut sequence, walk.entry().is_some(), numbers);
        walk.apply(step);
        apply(cursor, source, step).expect(rt, "a move");
        count = count.wrapping_add(is_at(cursor, walk.entry()) as usize);
    }
    count
}
