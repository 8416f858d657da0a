//! The builder of a table.
use crate::appending::{append, append_last};
use crate::keys::AddedKeys;
use crate::part::OpenPart;
use crate::tail::{short_len, tail_part_of};
use bloom::build_hashed;
use byte_fields::StoredKey;
use disk::Disk;
use std::alloc::{AllocError, Global};
use table_format::sizes::{BLOCK_SIZE, MAX_DATA};
use table_format::{FileError, IndexLine, LentEntry, TableError, entry_len};

/// The bytes of a digest.
const DIGEST_SIZE: usize = 8;

/// A table that is being built. It writes each block when that is full. It holds in memory the
/// block that is not full, the index, and 16 bytes of each different key.
#[derive(Drop)]
pub struct Builder {
    file: u64,
    // The length of the blocks in the file.
    written: u64,
    block: OpenPart,
    index: OpenPart,
    keys: AddedKeys,
    has_failed: bool,
}

/// A finished table: the length of its file in bytes, its least and its greatest key.
#[derive(Drop)]
pub struct Finished {
    pub length: u64,
    pub least: StoredKey,
    pub greatest: StoredKey,
}

impl Builder {
    ghost use Rattle.std.specs.Prelude.{◌≡◌, ◌≤◌, ◌<◌, ◌+◌, ◌^◌, List, [], ◌∷◌, ◌++◌, length};
    ghost use Rattle.std.specs.Prelude.{IfOk, IsErrOf, IsOk, MatchResult, OnOk};
    ghost use Rattle.disk.specs.{IsEnvironmental, Slot, WritesInto};
    ghost use Rattle.kv_types.specs.{Entry};
    ghost use Rattle.table_format.specs.declared.FileError.TheVariants.{Disk, Memory};
    ghost use Rattle.byte_fields.specs.declared.format.Format.TheVariants.{Two};
    ghost use Rattle.table_format.specs.{Block, IsTableEntry, TableRepresentsIn};
    ghost use Rattle.table_format.specs.{data_bytes, entry_bytes, lent_entry};
    ghost use Rattle.table_builder.specs.Builders.{AddRefusal, Builds, CanAdd, HoldsDivision};
    ghost use Rattle.table_builder.specs.Builders.{HoldsEntries, IsFinishedTable, IsPartOfBlock};
    ghost use Rattle.table_builder.specs.Builders.{builder_file, entry_count};
    ghost use Rattle.table_builder.specs.Calls.{AddsEntry, FinishesTable, WritesBlocks};
    ghost use Rattle.table_builder.specs.Closing.{CanClose, CanEnd, CheckStatus};
    ghost use Rattle.table_builder.specs.Closing.{HasClosed, HasSealed, KeepsKeys};
    ghost use Rattle.table_builder.specs.Divisions.{Division, data_size, division};
    ghost use Rattle.table_builder.specs.Divisions.{finished_blocks, with_entry};
    ghost use Rattle.table_builder.specs.Fresh.{IsFresh};
    ghost use Rattle.table_builder.specs.Keys.{KnowsKeys};
    ghost use Rattle.table_builder.specs.OpenParts.{HoldsItems};

    /// Begins a table without entries in a file that does not exist. It makes no device call.
    pub fn new(alloc: Global, file: u64) -> Builder
        ensures file { builder_file result ≡ file }
        ensures began { (slot : Slot) → IsFresh slot [] → Builds slot result [] }
    {
        Builder {
            file,
            written: 0,
            block: OpenPart::new(alloc),
            index: OpenPart::new(alloc),
            keys: AddedKeys::new(alloc),
            has_failed: false,
        }
    }

    /// The number of entries that were added.
    pub fn len(&self) -> u64
        ensures count { result ≡ entry_count self.now }
        ensures added { (slot : Slot) (entries : List Entry) → Builds slot self.now entries →
            result ≡ length entries }
    {
        self.keys.count
    }

    /// The bytes that the data blocks have if the table is finished now.
    pub fn data_size(&self) -> u64
        ensures { (slot : Slot) (entries : List Entry) → Builds slot self.now entries →
            result ≡ data_size entries }
    {
        if self.block.count == 0 {
            return self.written;
        }
        let open = self.block.len().saturating_add(DIGEST_SIZE);
        self.written.saturating_add(open as u64)
    }

    // The bytes that the data blocks have with one entry more.
    fn size_with(&self, entry: LentEntry) -> u64
        requires { IsTableEntry (lent_entry entry) }
        ensures { (entries : List Entry) → HoldsEntries self.now entries →
            result ≡ data_size (entries ++ lent_entry entry.entry ∷ []) }
    {
        let open = self
            .block
            .len()
            .saturating_add(entry_len(entry) + DIGEST_SIZE);
        self.written.saturating_add(open as u64)
    }

    // Whether the entry can be added.
    fn check(&self, entry: LentEntry) -> Result<(), TableError>
        requires { IsTableEntry (lent_entry entry) }
        ensures status { CheckStatus result self.now }
        ensures checked { (entries : List Entry) → HoldsEntries self.now entries →
            MatchResult result (λ _. CanAdd entries (lent_entry entry.entry))
            (λ e. AddRefusal e entries (lent_entry entry.entry)) }
    {
        if self.has_failed {
            return Err(TableError::Failed);
        }
        if !self.keys.can_follow(entry.key, entry.number) {
            return Err(TableError::Order);
        }
        if self.size_with(entry) > MAX_DATA {
            return Err(TableError::TooLarge);
        }
        Ok(())
    }

    // Holds the entry in memory.
    fn hold(&mut self, entry: LentEntry) -> Result<(), AllocError>
        requires { IsTableEntry (lent_entry entry) }
        ensures same { (self.new.file ≡ self.old.file) × (self.new.written ≡ self.old.written)
            × (self.new.index ≡ self.old.index) × (self.new.has_failed ≡ self.old.has_failed) }
        ensures block { (opened : List Entry) → HoldsItems (entry_bytes Two) self.old.block opened →
            length opened + 1 < 2 ^ 32 → OnOk result
            (HoldsItems (entry_bytes Two) self.new.block (opened ++ lent_entry entry.entry ∷ [])) }
        ensures keys { (entries : List Entry) → KnowsKeys self.old.keys entries →
            length entries + 1 < 2 ^ 64 → OnOk result
            (KnowsKeys self.new.keys (entries ++ lent_entry entry.entry ∷ [])) }
    {
        self.block.add_entry(entry)?;
        self.keys.add(entry.key, entry.number)
    }

    // The line of the open block, whose length with its digest this is.
    fn open_line(&self, alloc: Global, len: usize) -> Result<IndexLine, AllocError>
        ensures { IfOk result (λ line. (line.place ≡ self.now.written)
            × (len < 2 ^ 32 → line.len ≡ len) × (line.key ≡ self.now.keys.last)
            × (line.number ≡ self.now.keys.number)) }
    {
        let key = self.keys.last.lent().to_stored(alloc)?;
        Ok(IndexLine {
            place: self.written,
            len: short_len(len),
            key,
            number: self.keys.number,
        })
    }

    // Completes the open block in its buffer, and adds its line to the index.
    fn seal(&mut self, alloc: Global) -> Result<(), AllocError>
        ensures same { (self.new.file ≡ self.old.file) × (self.new.written ≡ self.old.written)
            × (self.new.keys ≡ self.old.keys) × (self.new.has_failed ≡ self.old.has_failed) }
        ensures sealed { (blocks : List Block) (one : Block) → CanClose self.old blocks one →
            OnOk result (HasSealed self.new blocks one) }
    {
        self.block.seal()?;
        let line = self.open_line(alloc, self.block.bytes.len())?;
        self.index.add_line(&line)
    }

    // Writes the open block behind the others.
    fn close<D: Disk>(&mut self, alloc: Global, disk: &mut D) -> Result<(), FileError>
        ensures device { WritesInto D.Disk (builder_file self.old) disk.old disk.new
            (IsErrOf result Disk)
            ((blocks : List Block) (one : Block) → CanClose self.old blocks one → ⊥) }
        ensures keys { KeepsKeys self.old self.new }
        ensures closed { (blocks : List Block) (one : Block) → CanClose self.old blocks one →
            OnOk result (HasClosed self.new blocks one) }
        ensures written { (blocks : List Block) (one : Block) → CanClose self.old blocks one →
            WritesBlocks D.Disk (builder_file self.old) blocks (blocks ++ one ∷ []) disk.old
            disk.new result }
    {
        let (file, place) = (self.file, self.written);
        self.seal(alloc)?;
        append(disk, file, place, &self.block.bytes)?;
        self.written = place.saturating_add(self.block.bytes.len() as u64);
        self.block.count = 0;
        Ok(())
    }

    // Closes the open block if it is full.
    fn close_full<D: Disk>(&mut self, alloc: Global, disk: &mut D) -> Result<(), FileError>
        ensures device { WritesInto D.Disk (builder_file self.old) disk.old disk.new
            (IsErrOf result Disk)
            ((blocks : List Block) (one : Block) → CanClose self.old blocks one → ⊥) }
        ensures keys { KeepsKeys self.old self.new }
        ensures closed { (parts : Division) (entry : Entry) →
            CanClose self.old parts.closed (record { front = parts.opened; last = entry }) →
            OnOk result (HoldsDivision self.new (with_entry parts entry)) }
        ensures written { (parts : Division) (entry : Entry) →
            CanClose self.old parts.closed (record { front = parts.opened; last = entry }) →
            WritesBlocks D.Disk (builder_file self.old) parts.closed (with_entry parts entry).closed
            disk.old disk.new result }
        ensures quiet { (opened : List Entry) → HoldsItems (entry_bytes Two) self.old.block opened →
            IsPartOfBlock opened → (disk.new ≡ disk.old) × IsOk result }
    {
        if self.block.len() < BLOCK_SIZE {
            return Ok(());
        }
        self.close(alloc, disk)
    }

    /// Adds an entry. Where that fills the open block, it writes the block, by one device call. A
    /// crash at any moment since the call began leaves each other file as it was.
    pub fn add<D: Disk>(
        &mut self,
        alloc: Global,
        disk: &mut D,
        entry: LentEntry,
    ) -> Result<(), TableError>
        requires { IsTableEntry (lent_entry entry) }
        ensures { AddsEntry D.Disk (lent_entry entry.entry) self.old disk.old self.new disk.new
            result }
    {
        self.check(entry)?;
        self.has_failed = true;
        self.hold(entry)?;
        self.close_full(alloc, disk)?;
        self.has_failed = false;
        Ok(())
    }

    // Closes the open block if it has entries.
    fn close_rest<D: Disk>(&mut self, alloc: Global, disk: &mut D) -> Result<(), FileError>
        ensures device { WritesInto D.Disk (builder_file self.old) disk.old disk.new
            (IsErrOf result Disk)
            ((entries : List Entry) → HoldsEntries self.old entries → ⊥) }
        ensures file { self.new.file ≡ self.old.file }
        ensures closed { (entries : List Entry) → HoldsEntries self.old entries →
            1 ≤ length entries →
            OnOk result (CanEnd self.new (finished_blocks (division entries)) entries) }
        ensures written { (entries : List Entry) → HoldsEntries self.old entries →
            WritesBlocks D.Disk (builder_file self.old) (division entries).closed
            (finished_blocks (division entries)) disk.old disk.new result }
    {
        if self.block.count == 0 {
            return Ok(());
        }
        self.close(alloc, disk)
    }

    // The bytes behind the blocks: filter, index and footer.
    fn tail(&mut self, alloc: Global) -> Result<Vec<u8>, AllocError>
        ensures keys { self.new.keys ≡ self.old.keys }
        ensures tail { (blocks : List Block) (entries : List Entry)
            → CanEnd self.old blocks entries →
            IfOk result (λ tail.
            ((holds : TableRepresentsIn Two (data_bytes Two blocks ++ tail.items) entries)
            × (holds.blocks ≡ blocks)) × (length tail.items < 2 ^ 40)) }
    {
        let filter = build_hashed(alloc, &self.keys.hashes)?;
        self.index.seal()?;
        let (place, count) = (self.written, self.keys.count);
        Ok(tail_part_of(alloc, &filter, &self.index.bytes, place, count)?)
    }

    // Writes what stands behind the blocks, and makes the file durable.
    fn end<D: Disk>(mut self, alloc: Global, disk: &mut D) -> Result<Finished, FileError>
        ensures device { WritesInto D.Disk (builder_file self) disk.old disk.new
            (IsErrOf result Disk)
            ((blocks : List Block) (entries : List Entry) → CanEnd self blocks entries → ⊥) }
        ensures ended { (blocks : List Block) (entries : List Entry) → CanEnd self blocks entries →
            D.is_honest disk.old →
            IsFresh (D.state disk.old (builder_file self)) (data_bytes Two blocks) →
            MatchResult result (IsFinishedTable (D.state disk.new (builder_file self)) entries)
            (IsEnvironmental Disk Memory) }
    {
        let (file, place) = (self.file, self.written);
        let tail = self.tail(alloc)?;
        append_last(disk, file, place, &tail)?;
        let keys = self.keys;
        Ok(Finished {
            length: place.saturating_add(tail.len() as u64),
            least: keys.least.into_stored(),
            greatest: keys.last.into_stored(),
        })
    }

    /// Finishes the table: it writes the last block, then filter, index and footer, and makes the
    /// file durable. A builder without entries finishes no table, so ask `len` before. A crash at
    /// any moment since the call began leaves each other file as it was.
    pub fn finish<D: Disk>(mut self, alloc: Global, disk: &mut D) -> Result<Finished, TableError>
        requires { 0 < entry_count self }
        ensures { FinishesTable D.Disk self disk.old disk.new result }
    {
        if self.has_failed {
            return Err(TableError::Failed);
        }
        self.close_rest(alloc, disk)?;
        Ok(self.end(alloc, disk)?)
    }
}
