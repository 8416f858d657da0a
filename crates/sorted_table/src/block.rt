//! The search for a key and number in a block.
ghost use Rattle.std.specs.Prelude.{◌≡◌, List, MatchResult};
ghost use Rattle.std.specs.Rc.{rc_slice_items};
ghost use Rattle.byte_fields.specs.{lent_key};
ghost use Rattle.kv_types.specs.{Entry};
ghost use Rattle.table_format.specs.{IsBlock};
ghost use Rattle.sorted_table.specs.Open.{LookupFinds};

use crate::found::{FoundVersion, version_of};
use crate::starts::{count_before, entry_from};
use byte_fields::LentKey;
use std::alloc::Global;
use table_files::CheckedBlock;
use table_format::FileError;

/// What a block has of the key at the number. Only memory can be wanting.
pub fn find_in(
    alloc: Global,
    block: &CheckedBlock,
    key: LentKey,
    at: u64,
) -> Result<Option<FoundVersion>, FileError>
    ensures { MatchResult result
        (λ found. (entries : List Entry) →
        IsBlock block.now.format (rc_slice_items block.now.bytes) entries →
        LookupFinds entries (lent_key key.entry) at found)
        (λ e. e ≡ FileError.Memory) }
{
    let earlier = count_before(block.format, &block.bytes, &block.starts, key, at);
    let Some(start) = block.starts.get(earlier) else {
        return Ok(None);
    };
    let Some(entry) = entry_from(block.format, &block.bytes, *start) else {
        unreachable!();
    };
    if !entry.key.is_same(key) {
        return Ok(None);
    }
    Ok(Some(version_of(alloc, entry)?))
}
