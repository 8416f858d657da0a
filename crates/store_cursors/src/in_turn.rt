//! Searches and steps among cursors in series.
ghost use Rattle.std.specs.Prelude.{◌≡◌, ◌<◌, ◌≤◌, ℕ, IsTrue, vec_len, Some};
ghost use Rattle.std.specs.List.{slice_get};
ghost use Rattle.byte_fields.specs.{lent_key};
ghost use Rattle.kv_types.specs.{Entry};
ghost use Rattle.merge_iter.specs.{CanStep, EachChild, EntryPrecedes, Off};
ghost use Rattle.merge_iter.specs.{spot};
ghost use Rattle.merge_iter.specs.declared.Direction.TheVariants.{Forward};
ghost use Rattle.sorted_table.specs.{EndsBefore};
ghost use Rattle.store_cursors.specs.Concatenation.{AreConcatenated, EntersChildren};
ghost use Rattle.store_cursors.specs.Concatenation.{StepsFrom};
ghost use Rattle.store_cursors.specs.Concatenation.{concatenated_position};

use crate::child_place::ChildPlace;
use crate::start::{Start, rank};
use byte_fields::LentKey;
use disk::Disk;
use merge_iter::{Cursor, CursorError, Direction, step};
use sorted_table::TableCursor;

/// A cursor that can tell, without a move, of some keys that they come behind all its entries.
pub trait Ends: Cursor {
    /// Whether it has entries, and all of them come before this key.
    fn ends_before(&self, key: LentKey<'_>) -> bool
        ensures { (meant : Self.Meant) (source : _) → IsTrue result →
            Self.is_sound meant self.now source →
            EndsBefore (Self.holds meant self.now source) (lent_key key.entry) };
}

impl<D: Disk + Drop> Ends for TableCursor<D> {
    fn ends_before(&self, key: LentKey<'_>) -> bool {
        TableCursor::ends_before(self, key)
    }
}

/// How many children end before the key, by halves: each of these does.
pub fn ended<C: Ends>(children: &Vec<C>, key: LentKey) -> usize
    ensures within { result ≤ vec_len children.now }
    ensures ended { (meant : C.Meant) (source : C.Source) →
        EachChild (λ c. C.is_sound meant c source) children.now.items →
        AreConcatenated (λ c. C.holds meant c source) children.now.items → (i : ℕ) (c : C) →
        i < result →
        slice_get children.now.items i ≡ Some c → (entry : Entry) → C.holds meant c source entry →
        (number : ℕ) → EntryPrecedes Forward entry (spot (lent_key key.entry) number) }
{
    let mut low = 0;
    let mut high = children.len();
    while low < high {
        let middle = low + (high - low) / 2;
        if children[middle].ends_before(key) {
            low = middle + 1;
        } else {
            high = middle;
        }
    }
    low
}

/// Enters child after child, all but the first so many of the walk, up to one with an entry.
pub fn enter_from<C: Cursor>(
    children: &mut Vec<C>,
    start: Start,
    skipped: usize,
    source: &mut C::Source,
) -> Result<ChildPlace, CursorError>
    ensures { EntersChildren C.Cursor start.entry skipped children.old.items source.old
        children.new.items source.new result }
{
    for behind in skipped..children.len() {
        let k = rank(start.way(), children.len(), behind);
        start.enter(&mut children[k], source)?;
        if children[k].valid() {
            return Ok(ChildPlace::On(k));
        }
    }
    Ok(ChildPlace::Off)
}

/// Steps child `k` in this direction, and where that leads off its end, enters those behind it.
pub fn step_from<C: Cursor>(
    children: &mut Vec<C>,
    k: usize,
    way: Direction,
    source: &mut C::Source,
) -> Result<ChildPlace, CursorError>
    requires room { k < vec_len children.old }
    requires stands { CanStep (concatenated_position C.position children.old.items
        (ChildPlace.On k)) }
    ensures { StepsFrom C.Cursor way k children.old.items source.old children.new.items source.new
        result }
{
    step(&mut children[k], way, source)?;
    if children[k].valid() {
        return Ok(ChildPlace::On(k));
    }
    let skipped = rank(way, children.len(), k) + 1;
    enter_from(children, Start::at_end(way), skipped, source)
}
