// Reads of the map that a list of batches builds.
ghost use Rattle.std.specs.Prelude.{◌≡◌, option_copied, if◌then◌else◌};
ghost use Rattle.std.specs.Str.{bytes_eq};
ghost use Rattle.kv_types.specs.Maps.{key_of, value_put, map_of};

use crate::{Batch, Edit, Key, Value};

/// The value of the key after one edit, from its value before the edit.
fn after_edit<'a>(had: Option<&'a Value>, edit: &'a Edit, key: &Key) -> Option<&'a Value>
    ensures { option_copied result ≡ (if bytes_eq (key_of edit.now) key.now
        then value_put edit.now else option_copied had.entry) }
{
    if edit.key() == key { edit.value() } else { had }
}

/// The value of a key after these batches: the one that its last edit puts.
pub fn value_at<'a>(batches: &'a [Batch], key: &Key) -> Option<&'a Value>
    ensures { option_copied result ≡ map_of batches.now key.now }
{
    let mut found = None;
    for batch in batches {
        for edit in batch.edits() {
            found = after_edit(found, edit, key);
        }
    }
    found
}
