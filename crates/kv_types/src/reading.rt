// Edits and batches, read from their bytes.
ghost use Rattle.byte_fields.specs.{ReadsBytes};
ghost use Rattle.kv_types.specs.Reading.{edit_at, both_at, mark_at, edits_at, batch_at, batch_of};
ghost use Rattle.byte_fields.specs.{many, ReadsFront};

use crate::bounds::{MAX_BATCH, MAX_EDITS};
use crate::{Edit, Key, Mark, Value};
use byte_fields::{read_u16, read_u64};
use std::alloc::{AllocError, Global};

#[tactic(auto, unfolding(crate::specs::Reading::edit_at))]
fn edit_of(alloc: Global, bytes: &[u8]) -> Result<Option<(Edit, &[u8])>, AllocError>
    ensures { ReadsBytes (λ x. (x.0, x.1.now)) result (edit_at bytes.now) }
{
    match bytes {
        [1, rest @ ..] => {
            let Some((key, rest)) = Key::read_from(alloc, rest)? else {
                return Ok(None);
            };
            let Some((value, rest)) = Value::read_from(alloc, rest)? else {
                return Ok(None);
            };
            Ok(Some((Edit::Put(key, value), rest)))
        }
        [2, rest @ ..] => {
            let Some((key, rest)) = Key::read_from(alloc, rest)? else {
                return Ok(None);
            };
            Ok(Some((Edit::Delete(key), rest)))
        }
        _ => Ok(None),
    }
}

fn edits_in(
    alloc: Global,
    count: usize,
    bytes: &[u8],
) -> Result<Option<(Vec<Edit>, &[u8])>, AllocError>
    ensures { ReadsBytes (λ x. (x.0.items, x.1.now)) result (many edit_at count bytes.now) }
{
    // An edit has at least three bytes, so the bytes bound the memory that is taken.
    let mut edits = Vec::with_capacity(alloc, count.min(bytes.len() / 3))?;
    let mut rest = bytes;
    for _ in 0..count {
        let Some((edit, after)) = edit_of(alloc, rest)? else {
            return Ok(None);
        };
        edits.push(edit)?;
        rest = after;
    }
    Ok(Some((edits, rest)))
}

// A client and a request, if both may stand in a mark.
fn both_of(bytes: &[u8]) -> Option<(Mark, &[u8])>
    ensures { ReadsFront (λ x. (x.0, x.1.now)) result (both_at bytes.now) }
{
    let (client, rest) = read_u64(bytes)?;
    let (request, rest) = read_u64(rest)?;
    let mark = Mark { client, request };
    if !mark.is_in_range() {
        return None;
    }
    Some((mark, rest))
}

#[tactic(auto, unfolding(crate::specs::Reading::mark_at))]
fn mark_of(bytes: &[u8]) -> Option<(Option<Mark>, &[u8])>
    ensures { ReadsFront (λ x. (x.0, x.1.now)) result (mark_at bytes.now) }
{
    let (count, rest) = read_u16(bytes)?;
    if count != 0 {
        return Some((None, bytes));
    }
    let (mark, rest) = both_of(rest)?;
    Some((Some(mark), rest))
}

#[tactic(auto, unfolding(crate::specs::Reading::edits_at))]
fn edits_of(alloc: Global, bytes: &[u8]) -> Result<Option<(Vec<Edit>, &[u8])>, AllocError>
    ensures { ReadsBytes (λ x. (x.0.items, x.1.now)) result (edits_at bytes.now) }
{
    let Some((count, rest)) = read_u16(bytes) else {
        return Ok(None);
    };
    let count = count as usize;
    if count > MAX_EDITS {
        return Ok(None);
    }
    if count < 1 {
        return Ok(None);
    }
    edits_in(alloc, count, rest)
}

/// Mark and edits of the batch at the front of the bytes, and the bytes behind it.
#[tactic(auto, unfolding(crate::specs::Reading::batch_at))]
pub fn front_parts_of(
    alloc: Global,
    bytes: &[u8],
) -> Result<Option<(Option<Mark>, Vec<Edit>, &[u8])>, AllocError>
    ensures { ReadsBytes (λ x. (record { mark = x.0; content = x.1.items }, x.2.now)) result
        (batch_at bytes.now) }
{
    let Some((mark, rest)) = mark_of(bytes) else {
        return Ok(None);
    };
    let Some((edits, rest)) = edits_of(alloc, rest)? else {
        return Ok(None);
    };
    if bytes.len().saturating_sub(rest.len()) > MAX_BATCH {
        return Ok(None);
    }
    Ok(Some((mark, edits, rest)))
}

/// Mark and edits of the batch that the bytes are.
#[tactic(auto, unfolding(crate::specs::Reading::batch_of))]
pub fn all_parts_of(
    alloc: Global,
    bytes: &[u8],
) -> Result<Option<(Option<Mark>, Vec<Edit>)>, AllocError>
    ensures { ReadsBytes (λ x. record { mark = x.0; content = x.1.items }) result
        (batch_of bytes.now) }
{
    if bytes.len() > MAX_BATCH {
        return Ok(None);
    }
    let Some((mark, edits, rest)) = front_parts_of(alloc, bytes)? else {
        return Ok(None);
    };
    if !rest.is_empty() {
        return Ok(None);
    }
    Ok(Some((mark, edits)))
}
