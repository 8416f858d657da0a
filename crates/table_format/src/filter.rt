//! The part of a table that holds its filter.
ghost use Rattle.std.specs.Prelude.{◌≡◌, ◌<◌, ◌^◌, length, IfOk};
ghost use Rattle.table_format.specs.Parts.{ReadsPart, IsFilterPart};
ghost use Rattle.table_format.specs.Tables.{filter_part};

use crate::part::{seal, unsealed};
use byte_fields::{put_u32, read_u32};
use std::alloc::{AllocError, Global};

/// The part that holds the filter, if that has less than 2^32 bytes.
pub fn filter_part_of(alloc: Global, filter: &[u8]) -> Result<Vec<u8>, AllocError>
    ensures { length filter.now < 2 ^ 32 →
        IfOk result (λ part. part.items ≡ filter_part filter.now) }
{
    let mut part = Vec::new(alloc);
    put_u32(&mut part, filter.len().min(u32::MAX as usize) as u32)?;
    part.extend_from_slice(filter)?;
    seal(&mut part)?;
    Ok(part)
}

/// The filter, if the bytes are the part that holds one.
pub fn filter_of(part: &[u8]) -> Option<&[u8]>
    ensures { ReadsPart (IsFilterPart part.now) (λ filter. filter.now) result }
{
    let content = unsealed(part)?;
    let (len, filter) = read_u32(content)?;
    if len as usize != filter.len() {
        return None;
    }
    Some(filter)
}
