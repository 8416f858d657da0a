// The edit of a merge.
ghost use Rattle.std.specs.Prelude.{◌≡◌, IfOk};
ghost use Rattle.compaction.specs.Merges.{merge_change};

use std::alloc::{AllocError, Global};
use version_edits::{StoreVersion, TableLine, TableName, VersionEdit};

/// The edit of a merge in this version.
pub(crate) fn edit_of(
    alloc: Global,
    version: &StoreVersion,
    next_file: u64,
    gone: Vec<TableName>,
    added: Vec<TableLine>,
) -> Result<VersionEdit, AllocError>
    ensures { IfOk result (λ edit. edit
        ≡ merge_change version.now.version next_file gone.items added.items) }
{
    Ok(VersionEdit {
        next_file,
        floor: version.floor,
        flushed: version.flushed,
        epoch: version.epoch,
        config: version.config.clone()?,
        logs_gone: Vec::new(alloc),
        logs_added: Vec::new(alloc),
        tables_gone: gone,
        tables_added: added,
    })
}
