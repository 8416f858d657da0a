//! A part of a table that is being written: its items, behind room for their number.
ghost use Rattle.std.specs.Prelude.{◌≡◌, ◌≤◌, ◌<◌, ◌^◌, ◌+◌, ◌++◌, ◌∷◌, [], ℕ, List, length, drop};
ghost use Rattle.std.specs.Prelude.{OnOk};
ghost use Rattle.kv_types.specs.{Entry};
ghost use Rattle.table_format.specs.{IsTableEntry, be32, block_content, entry_bytes, lent_entry};
ghost use Rattle.table_format.specs.{line_bytes, sealed};
ghost use Rattle.byte_fields.specs.declared.format.Format.TheVariants.{Two};
ghost use Rattle.table_format.specs.declared.IndexLine.{IndexLine};

use byte_fields::put_u32;
use std::alloc::{AllocError, Global};
use table_format::{IndexLine, LentEntry, put_entry, put_line, seal};

/// The bytes that the number of items needs.
const COUNT_SIZE: usize = 4;

/// The items of a part, spelled in a buffer behind four bytes for their number. The buffer is
/// reused for the next part.
#[derive(Drop)]
pub struct OpenPart {
    pub bytes: Vec<u8>,
    pub count: u32,
}

// Overwrites the first four bytes with a number, if there are as many.
fn put_count(bytes: &mut [u8], count: u32)
    ensures { 4 ≤ length bytes.old → bytes.new ≡ be32 count ++ drop 4 bytes.old }
{
    if bytes.len() < COUNT_SIZE {
        return;
    }
    let (front, _items) = bytes.split_at_mut(COUNT_SIZE);
    front.copy_from_slice(&count.to_be_bytes());
}

impl OpenPart {
    ghost use Rattle.table_builder.specs.OpenParts.{HoldsItems};

    pub fn new(alloc: Global) -> OpenPart
        ensures { result.count ≡ 0 }
    {
        OpenPart {
            bytes: Vec::new(alloc),
            count: 0,
        }
    }

    // Makes room for the number of items, before the first of them.
    fn begin(&mut self) -> Result<(), AllocError>
        ensures count { self.new.count ≡ self.old.count }
        ensures room { self.old.count ≡ 0 → OnOk result (self.new.bytes.items ≡ be32 0) }
        ensures begun { 0 < self.old.count → self.new.bytes.items ≡ self.old.bytes.items }
    {
        if self.count > 0 {
            return Ok(());
        }
        self.bytes.clear();
        put_u32(&mut self.bytes, 0)
    }

    /// Adds an entry of a block.
    pub fn add_entry(&mut self, entry: LentEntry) -> Result<(), AllocError>
        requires { IsTableEntry (lent_entry entry) }
        ensures { (entries : List Entry) → HoldsItems (entry_bytes Two) self.old entries →
            length entries + 1 < 2 ^ 32 →
            OnOk result (HoldsItems (entry_bytes Two) self.new
            (entries ++ lent_entry entry.entry ∷ [])) }
    {
        self.begin()?;
        put_entry(&mut self.bytes, entry)?;
        self.count = self.count.saturating_add(1);
        Ok(())
    }

    /// Adds a line of an index.
    pub fn add_line(&mut self, line: &IndexLine) -> Result<(), AllocError>
        ensures { (lines : List IndexLine) → HoldsItems (line_bytes Two) self.old lines →
            length lines + 1 < 2 ^ 32 →
            OnOk result (HoldsItems (line_bytes Two) self.new (lines ++ line.now ∷ [])) }
    {
        self.begin()?;
        put_line(&mut self.bytes, line)?;
        self.count = self.count.saturating_add(1);
        Ok(())
    }

    /// The bytes of the part's content.
    pub fn len(&self) -> usize
        ensures { (entries : List Entry) → HoldsItems (entry_bytes Two) self.now entries →
            result ≡ length (block_content Two entries) }
    {
        if self.count == 0 {
            return COUNT_SIZE;
        }
        self.bytes.len()
    }

    /// Completes the part: it writes the number of items before them, and the digest behind them.
    pub fn seal(&mut self) -> Result<(), AllocError>
        ensures { (text : List ℕ) → self.old.bytes.items ≡ be32 0 ++ text →
            OnOk result (self.new.bytes.items ≡ sealed (be32 self.old.count ++ text)) }
    {
        put_count(&mut self.bytes, self.count);
        seal(&mut self.bytes)
    }
}
