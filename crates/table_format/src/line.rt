//! Lines of an index.
ghost use Rattle.std.specs.Prelude.{◌≡◌, IfSome, IfOk};
ghost use Rattle.byte_fields.specs.{IsStoredKey, lent_key};
ghost use Rattle.byte_fields.specs.{ReadsFront};
ghost use Rattle.table_format.specs.Reading.{lent_line, line_at};

use crate::entry::number_of;
use byte_fields::{Format, LentKey, StoredKey, read_u32, read_u64};
use std::alloc::{AllocError, Global};

/// A line of an index: the place of a block in the file, its length with its digest, and key and
/// number of its last entry.
#[derive(Drop)]
pub struct IndexLine {
    pub place: u64,
    pub len: u32,
    pub key: StoredKey,
    pub number: u64,
}

/// A line, lent from the index that it stands in.
#[derive(Clone, Copy)]
pub struct LentLine<'a> {
    pub place: u64,
    pub len: u32,
    pub key: LentKey<'a>,
    pub number: u64,
}

/// The line at the front of the bytes, as a table of the format spells it, and the bytes behind it.
#[tactic(auto, unfolding(crate::specs::Reading::line_at))]
pub fn line_of(format: Format, bytes: &[u8]) -> Option<(LentLine<'_>, &[u8])>
    ensures line { ReadsFront (λ x. (lent_line x.0, x.1.now)) result (line_at format bytes.now) }
    ensures limit { IfSome result (λ x. IsStoredKey (lent_key x.0.key)) }
{
    let (place, rest) = read_u64(bytes)?;
    let (len, rest) = read_u32(rest)?;
    let (key, rest) = LentKey::read_from(format, rest)?;
    let (number, rest) = number_of(rest)?;
    let line = LentLine {
        place,
        len,
        key,
        number,
    };
    Some((line, rest))
}

/// A copy of a line.
pub fn copied(alloc: Global, line: LentLine) -> Result<IndexLine, AllocError>
    requires { IsStoredKey (lent_key line.key) }
    ensures { IfOk result (λ copy. copy ≡ lent_line line.entry) }
{
    let key = line.key.to_stored(alloc)?;
    Ok(IndexLine {
        place: line.place,
        len: line.len,
        key,
        number: line.number,
    })
}
