//! The moves of a cursor over the entries shown at a number, by moves of the cursor below.
ghost use Rattle.std.specs.Prelude.{◌≡◌, ◌⊎◌, ◌<◌, ◌≤◌, ℕ, IsTrue, OnOk};
ghost use Rattle.byte_fields.specs.{lent_key};
ghost use Rattle.kv_types.specs.{Entry};
ghost use Rattle.merge_iter.specs.Order.{EntryPrecedes, spot};
ghost use Rattle.merge_iter.specs.Positions.{AtEnd, At, After, On, WalkMeets, IsOn, IfOn, IsFirst};
ghost use Rattle.merge_iter.specs.KeptEntries.{kept_entry};
ghost use Rattle.merge_iter.specs.ShownEntries.{IsBefore, IsSettled, left_in, view_position};
ghost use Rattle.merge_iter.specs.declared.direction.Direction.TheVariants.{Forward, Backward};
ghost use Rattle.merge_iter.specs.LentCursors.{FindsNext, FindsShown, ShiftsCursor};

use crate::cursor::Cursor;
use crate::error::CursorError;
use crate::kept::KeptEntry;
use crate::mode::Mode;
use crate::order;
use crate::shown::{find_back, find_forward};
use byte_fields::{KeyBuffer, LentKey};

// Moves back onto the entry that is shown, where the cursor has gone on behind it.
fn return_to<C: Cursor>(
    inner: &mut C,
    source: &mut C::Source,
    mode: Mode,
    kept: &KeptEntry,
) -> Result<(), CursorError>
    requires { IsOn (view_position mode (C.position inner.old) (kept_entry kept.now)) }
    ensures moved { ShiftsCursor C.Cursor C.seeks_allocate inner.old source.old inner.new source.new
        result }
    ensures left { OnOk result (C.left inner.new Forward ≤ left_in (C.left inner.old)
        (C.most inner.old) mode Forward) }
    ensures ready { OnOk result (IsOn (C.position inner.new)
        ⊎ (C.left inner.new Forward < left_in (C.left inner.old) (C.most inner.old) mode Forward)) }
    ensures returns { (meant : C.Meant) → (at : ℕ) (entry : Entry) → C.is_sound meant inner.old
        source.old → IsSettled at (C.holds meant inner.old source.old) mode (C.position inner.old)
        (kept_entry kept.now) → view_position mode (C.position inner.old) (kept_entry kept.now) ≡ On
        entry → OnOk result (C.position inner.new ≡ On entry) }
{
    match mode {
        Mode::Inner => Ok(()),
        Mode::Kept => inner.seek(source, kept.key.lent(), kept.number),
        Mode::Off => Ok(()),
        Mode::Broken => Ok(()),
    }
}

// Steps off the entry that the cursor stands on, and copies its key.
fn leave<C: Cursor>(
    inner: &mut C,
    source: &mut C::Source,
    key: &mut KeyBuffer,
) -> Result<(), CursorError>
    ensures moved { ShiftsCursor C.Cursor (Unit {0}) inner.old source.old inner.new source.new
        result }
    ensures fewer { OnOk result (C.left inner.new Forward ≤ C.left inner.old Forward) }
    ensures left { IsOn (C.position inner.old) →
        OnOk result (C.left inner.new Forward < C.left inner.old Forward) }
    ensures leaves { (meant : C.Meant) → (entry : Entry) → C.is_sound meant inner.old source.old →
        C.position inner.old ≡ On entry →
        OnOk result (IsFirst Forward (λ p. C.holds meant inner.old source.old p
        × WalkMeets Forward (After entry) p) (C.position inner.new) × (key.new ≡ entry.key)) }
{
    if !inner.valid() {
        return Ok(());
    }
    key.set(inner.key())?;
    inner.next(source)
}

/// Moves to the first entry that is shown.
pub fn first_shown<C: Cursor>(
    inner: &mut C,
    source: &mut C::Source,
    at: u64,
    kept: &mut KeptEntry,
) -> Result<Mode, CursorError>
    ensures { FindsShown C.Cursor at Forward AtEnd inner.old source.old inner.new source.new
        (kept_entry kept.new) result }
{
    inner.first(source)?;
    find_forward(inner, source, at, false, &mut kept.key)
}

/// Moves to the last entry that is shown.
pub fn last_shown<C: Cursor>(
    inner: &mut C,
    source: &mut C::Source,
    at: u64,
    kept: &mut KeptEntry,
) -> Result<Mode, CursorError>
    ensures { FindsShown C.Cursor at Backward AtEnd inner.old source.old inner.new source.new
        (kept_entry kept.new) result }
{
    inner.last(source)?;
    find_back(inner, source, at, kept)
}

// Whether the entry that was found comes before this key and number.
fn is_early<C: Cursor>(inner: &C, mode: Mode, key: LentKey, number: u64) -> bool
    ensures early { IsTrue result → (mode ≡ Mode.Inner) × IsOn (C.position inner.now)
        × IfOn (C.position inner.now)
        (λ entry. EntryPrecedes Forward entry (spot (lent_key key.entry) number)) }
    ensures late { (IsTrue result → ⊥) → mode ≡ Mode.Inner →
        IfOn (C.position inner.now)
        (λ entry. EntryPrecedes Forward entry (spot (lent_key key.entry) number) → ⊥) }
{
    match mode {
        Mode::Inner => inner.valid() && order(inner.key(), inner.number(), key, number).is_lt(),
        Mode::Kept => false,
        Mode::Off => false,
        Mode::Broken => false,
    }
}

/// To the first entry that is shown and does not come before this key and number. The search begins
/// at the number read at, since an entry of the key with a greater one than asked may hide others.
pub fn seek_shown<C: Cursor>(
    inner: &mut C,
    source: &mut C::Source,
    at: u64,
    key: LentKey,
    number: u64,
    kept: &mut KeptEntry,
) -> Result<Mode, CursorError>
    ensures { FindsShown C.Cursor at Forward (At (spot (lent_key key.entry) number)) inner.old
        source.old inner.new source.new (kept_entry kept.new) result }
{
    inner.seek(source, key, at)?;
    let mode = find_forward(inner, source, at, false, &mut kept.key)?;
    if is_early(inner, mode, key, number) {
        leave(inner, source, &mut kept.key)?;
        return find_forward(inner, source, at, true, &mut kept.key);
    }
    Ok(mode)
}

/// Steps to the next entry that is shown.
pub fn next_shown<C: Cursor>(
    inner: &mut C,
    source: &mut C::Source,
    at: u64,
    mode: Mode,
    kept: &mut KeptEntry,
) -> Result<Mode, CursorError>
    requires { IsOn (view_position mode (C.position inner.old) (kept_entry kept.old)) }
    ensures { FindsNext C.Cursor at Forward mode (kept_entry kept.old) inner.old source.old
        inner.new source.new (kept_entry kept.new) result }
{
    return_to(inner, source, mode, kept)?;
    leave(inner, source, &mut kept.key)?;
    find_forward(inner, source, at, true, &mut kept.key)
}

// Steps back from the entry that is shown, where the cursor stands on it.
fn retreat<C: Cursor>(
    inner: &mut C,
    source: &mut C::Source,
    mode: Mode,
    kept: &KeptEntry,
) -> Result<(), CursorError>
    requires { IsOn (view_position mode (C.position inner.old) (kept_entry kept.now)) }
    ensures moved { ShiftsCursor C.Cursor C.steps_allocate inner.old source.old inner.new source.new
        result }
    ensures left { OnOk result (C.left inner.new Backward < left_in (C.left inner.old)
        (C.most inner.old) mode Backward) }
    ensures retreats { (meant : C.Meant) → (at : ℕ) (entry : Entry) → C.is_sound meant inner.old
        source.old → IsSettled at (C.holds meant inner.old source.old) mode (C.position inner.old)
        (kept_entry kept.now) → view_position mode (C.position inner.old) (kept_entry kept.now) ≡ On
        entry → OnOk result (IsBefore Backward at (C.holds meant inner.old source.old) (After entry)
        (C.position inner.new)) }
{
    match mode {
        Mode::Inner => inner.prev(source),
        Mode::Kept => Ok(()),
        Mode::Off => Ok(()),
        Mode::Broken => Ok(()),
    }
}

/// Steps to the entry before that is shown.
pub fn prev_shown<C: Cursor>(
    inner: &mut C,
    source: &mut C::Source,
    at: u64,
    mode: Mode,
    kept: &mut KeptEntry,
) -> Result<Mode, CursorError>
    requires { IsOn (view_position mode (C.position inner.old) (kept_entry kept.old)) }
    ensures { FindsNext C.Cursor at Backward mode (kept_entry kept.old) inner.old source.old
        inner.new source.new (kept_entry kept.new) result }
{
    retreat(inner, source, mode, kept)?;
    find_back(inner, source, at, kept)
}
