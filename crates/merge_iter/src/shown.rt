//! The search for the next entry that is shown at a number.
ghost use Rattle.std.specs.Prelude.{◌≤◌, IfOk};
ghost use Rattle.kv_types.specs.{Entry};
ghost use Rattle.merge_iter.specs.Positions.{WalkStart, IsOn, IfOn, IsBroken};
ghost use Rattle.merge_iter.specs.KeptEntries.{kept_entry};
ghost use Rattle.merge_iter.specs.ShownEntries.{IsHidden, IsJudged, IsJudgedBack, IsAhead};
ghost use Rattle.merge_iter.specs.ShownEntries.{IsBefore, IsFound, IsForward};
ghost use Rattle.merge_iter.specs.ShownEntries.{view_position, left_in};
ghost use Rattle.merge_iter.specs.declared.direction.Direction.TheVariants.{Forward, Backward};
ghost use Rattle.merge_iter.specs.LentCursors.{SearchesCursor, ShiftsCursor};

use crate::cursor::Cursor;
use crate::error::CursorError;
use crate::kept::KeptEntry;
use crate::mode::Mode;
use byte_fields::KeyBuffer;
use std::alloc::AllocError;

// Whether the entry is shown. A deletion that is seen hides its key from here on.
fn is_shown<C: Cursor>(
    inner: &C,
    at: u64,
    hides: &mut bool,
    hidden: &mut KeyBuffer,
) -> Result<bool, AllocError>
    requires { IsOn (C.position inner.now) }
    ensures { IfOk result
        (λ shown. IfOn (C.position inner.now)
        (λ entry. IsJudged at hides.old hidden.old entry hides.new hidden.new shown)) }
{
    if inner.number() > at {
        return Ok(false);
    }
    if *hides && hidden.lent().is_same(inner.key()) {
        return Ok(false);
    }
    if inner.value().is_some() {
        return Ok(true);
    }
    hidden.set(inner.key())?;
    *hides = true;
    Ok(false)
}

/// Walks on to the next entry that is shown, from where the cursor stands. The newest entry of a
/// key comes first.
pub fn find_forward<C: Cursor>(
    inner: &mut C,
    source: &mut C::Source,
    at: u64,
    hides: bool,
    hidden: &mut KeyBuffer,
) -> Result<Mode, CursorError>
    ensures moved { ShiftsCursor C.Cursor (Unit {0}) inner.old source.old inner.new source.new
        result }
    ensures unbroken { (kept : Entry) →
        IfOk result (λ mode. IsBroken (view_position mode (C.position inner.new) kept) → ⊥) }
    ensures forward { IfOk result IsForward }
    ensures left { IfOk result (λ mode. left_in (C.left inner.new) (C.most inner.new) mode Forward
        ≤ C.left inner.old Forward) }
    ensures finds { (meant : C.Meant) → (start : WalkStart) (kept : Entry) → C.is_sound meant
        inner.old source.old → IsAhead at (C.holds meant inner.old source.old) start (IsHidden hides
        hidden.old) (C.position inner.old) → IsFound Forward at (C.holds meant inner.old
        source.old) start result (C.position inner.new) kept }
{
    let mut hiding = hides;
    while inner.valid() {
        if is_shown(inner, at, &mut hiding, hidden)? {
            return Ok(Mode::Inner);
        }
        inner.next(source)?;
    }
    Ok(Mode::Off)
}

// Whether the walk has left the key of the kept entry. If not, and the cursor's entry is seen, that
// one replaces what was kept of its key.
fn is_left<C: Cursor>(
    inner: &C,
    at: u64,
    found: &mut bool,
    kept: &mut KeptEntry,
) -> Result<bool, AllocError>
    requires { IsOn (C.position inner.now) }
    ensures { IfOk result
        (λ left. IfOn (C.position inner.now)
        (λ entry. IsJudgedBack at found.old (kept_entry kept.old) entry found.new
        (kept_entry kept.new) left)) }
{
    if at < inner.number() {
        return Ok(false);
    }
    if *found && !kept.key.lent().is_same(inner.key()) {
        return Ok(true);
    }
    *found = kept.keep(inner)?;
    Ok(false)
}

/// Walks back to the entry before that is shown, and keeps it. The newest entry of a key comes
/// last, so the cursor ends behind it.
pub fn find_back<C: Cursor>(
    inner: &mut C,
    source: &mut C::Source,
    at: u64,
    kept: &mut KeptEntry,
) -> Result<Mode, CursorError>
    ensures moved { SearchesCursor C.Cursor inner.old source.old inner.new source.new
        (kept_entry kept.new) result }
    ensures left { IfOk result (λ mode. left_in (C.left inner.new) (C.most inner.new) mode Backward
        ≤ C.left inner.old Backward) }
    ensures finds { (meant : C.Meant) → (start : WalkStart) → C.is_sound meant inner.old
        source.old → IsBefore Backward at (C.holds meant inner.old source.old) start
        (C.position inner.old) → IsFound Backward at (C.holds meant inner.old source.old) start
        result (C.position inner.new) (kept_entry kept.new) }
{
    let mut found = false;
    while inner.valid() {
        if is_left(inner, at, &mut found, kept)? {
            return Ok(Mode::Kept);
        }
        inner.prev(source)?;
    }
    Ok(if found { Mode::Kept } else { Mode::Off })
}
