//! A place in a block.
ghost use Rattle.std.specs.Prelude.{◌≡◌, ◌<◌, ◌≤◌, ◌+◌, ◌-◌, List, Some, IfSome, IsTrue};
ghost use Rattle.std.specs.Prelude.{IsSomeAnd, length, slice_index};
ghost use Rattle.std.proofs.Props.{props};
ghost use Rattle.std.specs.Rc.{rc_slice_items};
ghost use Rattle.byte_fields.specs.{lent_key};
ghost use Rattle.kv_types.specs.{Entry};
ghost use Rattle.merge_iter.specs.{spot};
ghost use Rattle.table_format.specs.{AreRising, IsBlock, lent_entry};
ghost use Rattle.sorted_table.specs.EntryPlaces.{IsEntryFrom};
ghost use Rattle.sorted_table.specs.EntrySplits.{SplitsEntries};

use crate::entry_place::EntryPlace;
use crate::starts::count_before;
use byte_fields::LentKey;
use merge_iter::Direction;
use table_files::CheckedBlock;
use table_format::LentEntry;

/// An entry of a block. The block is that of a line of an index. The entry is parsed once, when
/// the place moves to it.
#[derive(Drop)]
pub struct BlockPlace {
    line: usize,
    block: CheckedBlock,
    at: usize,
    entry: EntryPlace,
    ghost within: { at < length (rc_slice_items block.starts) },
    ghost stands: { IsEntryFrom block.format (rc_slice_items block.bytes)
        (slice_index (rc_slice_items block.starts) at) entry } by { Prim.hlevel props },
}

// Where the entry of this number stands in a block.
fn entry_at(block: &CheckedBlock, at: usize) -> EntryPlace
    requires { at < length (rc_slice_items block.now.starts) }
    ensures { IsEntryFrom block.now.format (rc_slice_items block.now.bytes)
        (slice_index (rc_slice_items block.now.starts) at) result }
{
    match EntryPlace::read(block.format, &block.bytes, block.starts[at]) {
        Some(entry) => entry,
        None => unreachable!(),
    }
}

impl BlockPlace {
    ghost use Rattle.sorted_table.specs.BlockPlaces.{IsAtEnd, IsMovedTo, PlaceReads, place_entry};

    /// The first entry of a block, if it has entries.
    pub fn new(line: usize, block: CheckedBlock) -> Option<BlockPlace>
        ensures first { IfSome result (λ place. (place.line ≡ line) × (place.at ≡ 0)) }
        ensures few { IfSome result (λ place.
            length (rc_slice_items place.block.starts) ≤ length (rc_slice_items block.bytes)) }
        ensures entries { (entries : List Entry) →
            IsBlock block.format (rc_slice_items block.bytes) entries →
            IsSomeAnd result (λ place. PlaceReads place entries) }
    {
        if block.starts.is_empty() {
            return None;
        }
        let entry = entry_at(&block, 0);
        Some(BlockPlace {
            line,
            block,
            at: 0,
            entry,
        })
    }

    /// The number of the block's line.
    pub fn line(&self) -> usize
        ensures { result ≡ self.now.line }
    {
        self.line
    }

    /// The entry.
    #[inline(always)]
    pub fn entry(&self) -> LentEntry<'_>
        ensures { place_entry self.now ≡ Some (lent_entry result) }
    {
        self.entry.lent(&self.block.bytes)
    }

    // Moves to the entry of this number.
    fn move_to(&mut self, at: usize)
        requires { at < length (rc_slice_items self.old.block.starts) }
        ensures { IsMovedTo at self.old self.new }
    {
        self.entry = entry_at(&self.block, at);
        self.at = at;
    }

    /// Moves to the next entry. Answers `false` on the last one, and stays there.
    pub fn advance(&mut self) -> bool
        ensures moved { IsTrue result → IsMovedTo (self.old.at + 1) self.old self.new }
        ensures last { (IsTrue result → ⊥) → IsMovedTo self.old.at self.old self.new
            × (self.old.at + 1 ≡ length (rc_slice_items self.old.block.starts)) }
    {
        if self.at + 1 < self.block.starts.len() {
            self.move_to(self.at + 1);
            true
        } else {
            false
        }
    }

    /// Moves to the entry before. Answers `false` on the first one, and stays there.
    pub fn retreat(&mut self) -> bool
        ensures moved { IsTrue result → IsMovedTo (self.old.at - 1) self.old self.new
            × (0 < self.old.at) }
        ensures first { (IsTrue result → ⊥) → IsMovedTo self.old.at self.old self.new
            × (self.old.at ≡ 0) }
    {
        if self.at > 0 {
            self.move_to(self.at - 1);
            true
        } else {
            false
        }
    }

    /// The first entry of the block that a walk in this direction meets.
    pub fn at_end(mut self, way: Direction) -> BlockPlace
        ensures same { IsMovedTo result.at self result }
        ensures end { IsAtEnd way result }
    {
        let at = match way {
            Direction::Forward => 0,
            Direction::Backward => self.block.starts.len() - 1,
        };
        if at != self.at {
            self.move_to(at);
        }
        self
    }

    /// Moves to the first entry of the block that does not come before this key and number, or to
    /// the last entry.
    pub fn seek(&mut self, key: LentKey, number: u64)
        ensures same { IsMovedTo self.new.at self.old self.new }
        ensures found { (entries : List Entry) → AreRising entries → PlaceReads self.old entries →
            (SplitsEntries entries (spot (lent_key key.entry) number) (length entries) → ⊥) →
            SplitsEntries entries (spot (lent_key key.entry) number) self.new.at }
    {
        let block = &self.block;
        let at = count_before(block.format, &block.bytes, &block.starts, key, number);
        let at = at.min(block.starts.len() - 1);
        self.move_to(at);
    }
}
