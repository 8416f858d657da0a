//! The rows that several cursors of a store show at a number.
ghost use Rattle.std.specs.Prelude.{◌≡◌};
ghost use Rattle.disk.specs.{State};
ghost use Rattle.kv_types.specs.{IsShown};
ghost use Rattle.merge_iter.specs.{AreDisjoint, AreSound, IsAlike, Off, union_of};

use crate::store_cursor::StoreCursor;
use disk::Disk;
use kv_types::Number;
use merge_iter::{AtNumber, Cursor, Merged};
use std::alloc::Global;

/// The rows of a store at a number: what the union of memtables and tables shows there.
pub type StoreRows<'a, D> = AtNumber<Merged<StoreCursor<'a, D>>>;

/// The rows that these cursors show at a number: of each key the value of its newest entry with at
/// most that number. It stands on none.
pub fn rows_at<'a, D: Disk + Drop>(
    alloc: Global,
    cursors: Vec<StoreCursor<'a, D>>,
    at: Number,
) -> StoreRows<'a, D>
    ensures off { ⟦<StoreRows<'a, D> as Cursor>⟧.position result ≡ Off }
    ensures sound { (meant : State) (files : _) →
        AreSound ⟦<StoreCursor<'a, D> as Cursor>⟧ meant cursors.entry.items files →
        AreDisjoint ⟦<StoreCursor<'a, D> as Cursor>⟧ meant cursors.entry.items files →
        ⟦<StoreRows<'a, D> as Cursor>⟧.is_sound meant result files }
    ensures entries { (meant : State) (files : _) →
        IsAlike (⟦<StoreRows<'a, D> as Cursor>⟧.holds meant result files)
        (IsShown at (union_of ⟦<StoreCursor<'a, D> as Cursor>⟧ meant cursors.entry.items files)) }
{
    AtNumber::new(alloc, Merged::new(cursors), at.get())
}
