//! The entries that are read at places of a block, and the search among them.
ghost use Rattle.std.specs.Prelude.{◌≡◌, ◌≤◌, List, length, option_map};
ghost use Rattle.byte_fields.specs.{lent_key};
ghost use Rattle.kv_types.specs.{Entry};
ghost use Rattle.merge_iter.specs.{spot};
ghost use Rattle.table_format.specs.{AreRising, lent_entry};
ghost use Rattle.table_files.specs.{ReadsEntries, entry_read};
ghost use Rattle.sorted_table.specs.EntrySplits.{SplitsEntries, is_read_before};

use byte_fields::{Format, LentKey};
use merge_iter::order;
use table_format::{LentEntry, entry_of};

/// The entry that starts at this place of the bytes, as a table of the format spells it, if there
/// is one.
pub fn entry_from(format: Format, bytes: &[u8], start: usize) -> Option<LentEntry<'_>>
    ensures { option_map lent_entry result ≡ entry_read format bytes.now start }
{
    if start > bytes.len() {
        return None;
    }
    let (entry, _rest) = entry_of(format, &bytes[start..])?;
    Some(entry)
}

// Whether the entry that starts there comes before that key and number.
fn is_before(format: Format, block: &[u8], start: usize, key: LentKey, number: u64) -> bool
    ensures { result ≡ is_read_before (entry_read format block.now start)
        (spot (lent_key key.entry) number) }
{
    match entry_from(format, block, start) {
        Some(entry) => order(entry.key, entry.number, key, number).is_lt(),
        None => false,
    }
}

/// How many of the entries come before this key and number.
pub fn count_before(
    format: Format,
    block: &[u8],
    starts: &[usize],
    key: LentKey,
    number: u64,
) -> usize
    ensures within { result ≤ length starts.now }
    ensures splits { (entries : List Entry) → AreRising entries →
        ReadsEntries format block.now starts.now entries →
        SplitsEntries entries (spot (lent_key key.entry) number) result }
{
    starts.partition_point(|start| is_before(format, block, *start, key, number))
}
