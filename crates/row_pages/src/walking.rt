//! Walks of a cursor over the entries of a range.
ghost use Rattle.std.specs.Prelude.{◌↔◌, IsTrue, OnOk};
ghost use Rattle.byte_fields.specs.{lent_key};
ghost use Rattle.byte_fields.specs.Order.{IsBelow};
ghost use Rattle.kv_types.specs.{stored_span};
ghost use Rattle.kv_types.specs.Pages.{IsWithin};
ghost use Rattle.kv_types.specs.declared.bounds.TheConstants.{MAX_NUMBER};
ghost use Rattle.merge_iter.specs.LentCursors.{ShiftsCursor, StepsCursor};
ghost use Rattle.merge_iter.specs.{CanStep, IsFirst};
ghost use Rattle.merge_iter.specs.declared.Direction.TheVariants.{Backward};
ghost use Rattle.row_pages.specs.Walking.{AreNumbered, HasBegun, StandsWithin, way_of};

use byte_fields::LentKey;
use kv_types::Range;
use kv_types::bounds::MAX_NUMBER;
use merge_iter::{Cursor, CursorError};

// Whether the key is that of a row in the range.
fn is_within(key: LentKey, range: &Range) -> bool
    ensures { IsTrue result ↔ IsWithin (stored_span range.now) (lent_key key.entry) }
{
    if key.cmp(range.from().lent()).is_lt() {
        return false;
    }
    key.cmp(range.end_of_rows()).is_lt()
}

/// Whether the cursor stands on the entry of a row in the range.
pub fn stands_within<C: Cursor>(cursor: &C, range: &Range) -> bool
    ensures { IsTrue result ↔ StandsWithin range.now (C.position cursor.now) }
{
    cursor.valid() && is_within(cursor.key(), range)
}

// Moves to the last entry whose key is below this one.
fn seek_below<C: Cursor>(
    cursor: &mut C,
    source: &mut C::Source,
    key: LentKey,
) -> Result<(), CursorError>
    ensures moved { ShiftsCursor C.Cursor (Unit {0}) cursor.old source.old cursor.new source.new
        result }
    ensures begins { (meant : C.Meant) → C.is_sound meant cursor.old source.old →
        AreNumbered (C.holds meant cursor.old source.old) → OnOk result (IsFirst Backward
        (λ entry. C.holds meant cursor.old source.old entry
        × IsBelow entry.key (lent_key key.entry)) (C.position cursor.new)) }
{
    cursor.seek(source, key, MAX_NUMBER)?;
    if cursor.valid() {
        cursor.prev(source)
    } else {
        cursor.last(source)
    }
}

/// Moves to the entry that a walk over the range meets first, or to none.
pub fn begin<C: Cursor>(
    cursor: &mut C,
    source: &mut C::Source,
    range: &Range,
) -> Result<(), CursorError>
    ensures moved { ShiftsCursor C.Cursor (Unit {0}) cursor.old source.old cursor.new source.new
        result }
    ensures begins { (meant : C.Meant) → C.is_sound meant cursor.old source.old →
        AreNumbered (C.holds meant cursor.old source.old) →
        OnOk result (IsFirst (way_of range.now.backward)
        (λ entry. C.holds meant cursor.old source.old entry
        × HasBegun (way_of range.now.backward) (stored_span range.now) entry.key)
        (C.position cursor.new)) }
{
    if !range.is_backward() {
        return cursor.seek(source, range.from().lent(), MAX_NUMBER);
    }
    seek_below(cursor, source, range.end_of_rows())
}

/// Steps to the next entry of a walk over the range.
pub fn step<C: Cursor>(
    cursor: &mut C,
    source: &mut C::Source,
    range: &Range,
) -> Result<(), CursorError>
    requires { CanStep (C.position cursor.old) }
    ensures { StepsCursor C.Cursor (way_of range.now.backward) cursor.old source.old cursor.new
        source.new result }
{
    if range.is_backward() {
        cursor.prev(source)
    } else {
        cursor.next(source)
    }
}
