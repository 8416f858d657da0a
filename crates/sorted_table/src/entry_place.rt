//! Where an entry stands in the bytes of its block.
ghost use Rattle.std.specs.Prelude.{◌≡◌, ◌≤◌, None, MatchOption};
ghost use Rattle.table_files.specs.{entry_read};
ghost use Rattle.table_format.specs.{lent_entry};
ghost use Rattle.sorted_table.specs.EntryPlaces.{IsEntryFrom, IsPlacedIn, entry_in, key_front};

use byte_fields::{Format, LentKey, Space};
use table_format::{LentEntry, entry_of};

// How many bytes stand in front of those of a key: its length, and in format 2 its space.
fn front_size(format: Format) -> usize
    ensures size { result ≡ key_front format }
    ensures few { result ≤ 3 }
{
    match format {
        Format::One => 2,
        Format::Two => 3,
    }
}

/// Where some bytes of a block start and end.
#[derive(Clone, Copy)]
pub struct ByteSpan {
    pub start: usize,
    pub end: usize,
}

/// Space and number of an entry, and where the bytes of its key and its value stand, or that it is
/// a deletion.
#[derive(Clone, Copy)]
pub struct EntryPlace {
    pub space: Space,
    pub key: ByteSpan,
    pub number: u64,
    pub value: Option<ByteSpan>,
}

impl EntryPlace {
    /// The place of the entry that starts there in the bytes, as a table of the format spells it,
    /// if there is one.
    pub fn read(format: Format, bytes: &[u8], start: usize) -> Option<EntryPlace>
        ensures { MatchOption result (entry_read format bytes.now start ≡ None)
            (IsEntryFrom format bytes.now start) }
    {
        if start > bytes.len() {
            return None;
        }
        let (entry, rest) = entry_of(format, &bytes[start..])?;
        let key_start = start + front_size(format);
        let end = bytes.len() - rest.len();
        Some(EntryPlace {
            space: entry.key.space(),
            key: ByteSpan {
                start: key_start,
                end: key_start + entry.key.len(),
            },
            number: entry.number,
            value: match entry.value {
                Some(value) => Some(ByteSpan {
                    start: end - value.len(),
                    end,
                }),
                None => None,
            },
        })
    }

    /// The entry, lent from the bytes that it stands in.
    #[inline(always)]
    pub fn lent(self, bytes: &[u8]) -> LentEntry<'_>
        requires { IsPlacedIn bytes.now self }
        ensures { lent_entry result ≡ entry_in bytes.now self }
    {
        LentEntry {
            key: LentKey::new(self.space, &bytes[self.key.start..self.key.end]),
            number: self.number,
            value: match self.value {
                Some(value) => Some(&bytes[value.start..value.end]),
                None => None,
            },
        }
    }
}
