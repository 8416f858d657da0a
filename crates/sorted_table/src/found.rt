//! What a lookup finds.
ghost use Rattle.std.specs.Prelude.{IfOk};
ghost use Rattle.sorted_table.specs.Searches.{IsVersionOf};
ghost use Rattle.table_format.specs.{lent_entry};

use std::alloc::{AllocError, Global};
use table_format::LentEntry;

/// The newest version of a key up to a number: the version's own number, and its value, or `None`
/// if the key was deleted there.
#[derive(Drop)]
pub struct FoundVersion {
    pub number: u64,
    pub value: Option<Vec<u8>>,
}

/// A copy of the version that an entry has.
pub fn version_of(alloc: Global, entry: LentEntry) -> Result<FoundVersion, AllocError>
    ensures { IfOk result (IsVersionOf (lent_entry entry.entry)) }
{
    let value = match entry.value {
        Some(value) => Some(Vec::from_slice(alloc, value)?),
        None => None,
    };
    Ok(FoundVersion {
        number: entry.number,
        value,
    })
}
