// The records of a store's logs of batches.
ghost use Rattle.std.specs.Prelude.{◌≡◌, IfOk, MatchOption, OnOk};
ghost use Rattle.kv_types.specs.{BatchContent, IsBatch};
ghost use Rattle.batch_logs.specs.Layout.{batch_record};

use kv_types::{Batch, KvError};
use std::alloc::{AllocError, Global};

/// Makes these bytes the record of a batch with its number.
pub(crate) fn spell_record(out: &mut Vec<u8>, number: u64, batch: &Batch) -> Result<(), AllocError>
    ensures { OnOk result
        ((out.new.items ≡ batch_record number batch.now) × IsBatch batch.now) }
{
    if !out.is_empty() {
        out.clear();
    }
    out.extend_from_slice(&number.to_be_bytes())?;
    batch.spell_into(out)
}

/// The batch of a record, or none where the bytes are no record with this number.
pub(crate) fn batch_of(
    alloc: Global,
    number: u64,
    bytes: &[u8],
) -> Result<Option<Batch>, AllocError>
    ensures { IfOk result (λ found. MatchOption found
        ((batch : BatchContent) → IsBatch batch → bytes.now ≡ batch_record number batch → ⊥)
        (λ batch. (bytes.now ≡ batch_record number batch) × IsBatch batch)) }
{
    if bytes.len() < 8 {
        return Ok(None);
    }
    let (head, body) = bytes.split_at(8);
    if head != number.to_be_bytes().as_slice() {
        return Ok(None);
    }
    match Batch::from_bytes(alloc, body) {
        Ok(batch) => {
            let _edits = batch.edits();
            Ok(Some(batch))
        }
        Err(KvError::Memory) => Err(AllocError),
        Err(_) => Ok(None),
    }
}
