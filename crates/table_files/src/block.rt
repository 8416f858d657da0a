//! Blocks that were read and checked.
ghost use Rattle.std.specs.Prelude.{◌≡◌, ◌≤◌, List, IfOk, IfSome, IsSomeAnd, length};
ghost use Rattle.std.proofs.Props.{props};
ghost use Rattle.std.specs.Rc.{rc_slice_items};
ghost use Rattle.kv_types.specs.{Entry};
ghost use Rattle.table_format.specs.{IsBlock, IsCheckedBlock};
ghost use Rattle.table_files.specs.EntryReads.{AreRead, ReadsAll, ReadsEntries};

use byte_fields::{Format, read_u32};
use std::alloc::{AllocError, Global};
use std::rc::RcSlice;
use table_format::entry_of;

/// The format and the bytes of a block, and where each of its entries starts. Copies share bytes
/// and starts.
#[derive(Drop)]
pub struct CheckedBlock {
    pub format: Format,
    pub bytes: RcSlice<u8>,
    pub starts: RcSlice<usize>,
    ghost read: { AreRead format (rc_slice_items bytes)
        (rc_slice_items starts) } by { Prim.hlevel props },
    ghost few: { length (rc_slice_items starts) ≤ length (rc_slice_items bytes) },
    ghost all: { ReadsAll format (rc_slice_items bytes)
        (rc_slice_items starts) } by { Prim.hlevel props },
}

// The place of each entry of a block, if the bytes are one in the format.
fn starts_in(alloc: Global, format: Format, block: &[u8]) -> Result<Option<Vec<usize>>, AllocError>
    ensures read { IfOk result (λ it. IfSome it (λ starts. AreRead format block.now starts.items)) }
    ensures few { IfOk result
        (λ it. IfSome it (λ starts. length starts.items ≤ length block.now)) }
    ensures entries { (entries : List Entry) → IsBlock format block.now entries → IfOk result
        (λ it. IsSomeAnd it (λ starts. ReadsEntries format block.now starts.items entries)) }
{
    let mut starts = Vec::new(alloc);
    let Some((count, entries)) = read_u32(block) else {
        return Ok(None);
    };
    let mut rest = entries;
    for _done in 0..count {
        let Some((_entry, after)) = entry_of(format, rest) else {
            return Ok(None);
        };
        starts.push(block.len() - rest.len())?;
        rest = after;
    }
    Ok(Some(starts))
}

impl CheckedBlock {
    /// The block of bytes that were checked in the format.
    pub(crate) fn new(
        alloc: Global,
        format: Format,
        bytes: Vec<u8>,
    ) -> Result<CheckedBlock, AllocError>
        requires { IsCheckedBlock format bytes.items }
        ensures { IfOk result (λ block. (block.format ≡ format)
            × (rc_slice_items block.bytes ≡ bytes.items)) }
    {
        let Some(starts) = starts_in(alloc, format, &bytes)? else {
            unreachable!();
        };
        Ok(CheckedBlock {
            format,
            starts: RcSlice::from_vec(starts)?,
            bytes: RcSlice::from_vec(bytes)?,
        })
    }

    /// The same block.
    pub(crate) fn clone(&self) -> Result<CheckedBlock, AllocError>
        ensures { IfOk result (λ block. (block.format ≡ self.now.format)
            × (rc_slice_items block.bytes ≡ rc_slice_items self.now.bytes)) }
    {
        Ok(CheckedBlock {
            format: self.format,
            bytes: self.bytes.clone()?,
            starts: self.starts.clone()?,
        })
    }
}
