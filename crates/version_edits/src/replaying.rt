// The version that the records of an opened log give.
ghost use Rattle.std.specs.Prelude.{◌≡◌, ℕ, List, map, IfOk, IsErrOf};
ghost use Rattle.record_log.specs.{HasRead};
ghost use Rattle.version_edits.specs.Versions.{Change, after_all, empty};
ghost use Rattle.version_edits.specs.Edits.{change_text_in};
ghost use Rattle.version_edits.specs.Replays.{IsEditHistory};

use crate::laws::changes_differ;
use crate::next::next_version;
use crate::reading::edit_of;
use crate::{EditError, StoreVersion};
use byte_fields::Format;
use configurations::NodeId;
use record_log::OpenedLog;
use std::alloc::Global;

/// The node's version after the edits that the records are, in this format. `Damaged` where they
/// are no edits of it, or one of them is none that the version before it may take.
pub fn replay(
    alloc: Global,
    id: NodeId,
    format: Format,
    opened: &OpenedLog,
) -> Result<StoreVersion, EditError>
    ensures found { (records : List (List ℕ)) → HasRead opened.now records →
        IfOk result (λ version. (changes : List Change) × IsEditHistory format changes
        × (records ≡ map (change_text_in format) changes)
        × (version ≡ record { id = id; version = after_all empty changes })) }
    ensures bad { IsErrOf result EditError.Damaged → (changes : List Change) →
        IsEditHistory format changes →
        HasRead opened.now (map (change_text_in format) changes) → ⊥ }
{
    changes_differ(); // law: no two edits have one spelling in a format
    let mut draft = None;
    for index in 0..opened.log.len() {
        let edit = edit_of(alloc, format, opened.record(index))?;
        draft = Some(next_version(alloc, id, draft.as_ref(), &edit)?);
    }
    match draft {
        Some(version) => Ok(version),
        None => Err(EditError::Damaged),
    }
}
