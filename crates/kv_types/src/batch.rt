// Batches: lists of edits that apply at once, with one spelling in bytes.
ghost use Rattle.std.specs.Prelude.{◌≡◌, ◌≤◌, ◌⊎◌, List, ℕ, ◌++◌, length};
ghost use Rattle.std.specs.Prelude.{IfOk, IfErr, IfSome, Ok, Some, None, OnOk};
ghost use Rattle.kv_types.specs.Marks.{IsMark};
ghost use Rattle.kv_types.specs.Refusals.{content_error};

use crate::bounds::{MAX_BATCH, MAX_EDITS};
use crate::reading::{all_parts_of, front_parts_of};
use crate::shared::SharedEdits;
use crate::writing::{front_len, put_edits, put_front, spelled_len};
use crate::{Edit, KvError, Mark};
use std::alloc::{AllocError, Global};
use std::marker::Model;

/// A batch: 1 to 256 edits in order, and a mark if it bears one, spelled in at most 65,536 bytes.
#[derive(Debug, Drop)]
pub struct Batch {
    mark: Option<Mark>,
    edits: SharedEdits,
}

impl Model for Batch {
    ghost use Rattle.kv_types.specs.Content.{BatchContent};

    ghost Value = { BatchContent };

    ghost use Rattle.kv_types.specs.Shared.{shared_edits};
    ghost use Rattle.kv_types.specs.Spelling.{IsBatch};

    ghost view = { λ batch. record { mark = batch.mark; content = shared_edits batch.edits } };

    ghost invariant = { λ batch.
        IsBatch (record { mark = batch.mark; content = shared_edits batch.edits }) };
}

// The batch of these edits, with this mark or with none.
fn batch_of(mark: Option<Mark>, edits: Vec<Edit>) -> Result<Batch, KvError>
    requires { IfSome mark IsMark }
    ensures made { IfOk result (λ batch. (batch ≡ record { mark = mark; content = edits.items })
        × (content_error (record { mark = mark; content = edits.items }) ≡ None)) }
    ensures refused { IfErr result (λ e.
        content_error (record { mark = mark; content = edits.items }) ≡ Some e) }
{
    if edits.is_empty() {
        return Err(KvError::NoEdits);
    }
    if edits.len() > MAX_EDITS {
        return Err(KvError::TooManyEdits);
    }
    if front_len(mark) + spelled_len(&edits) > MAX_BATCH {
        return Err(KvError::BatchTooLong);
    }
    let edits = SharedEdits::counted(edits);
    Ok(Batch { mark, edits })
}

impl Batch {
    ghost use Rattle.byte_fields.specs.{ReadsBytes};
    ghost use Rattle.kv_types.specs.Content.{BatchContent, edits_of, mark_of};
    ghost use Rattle.kv_types.specs.Marks.{marked, unmarked};
    ghost use Rattle.kv_types.specs.Spelling.{IsBatch, batch_bytes};
    ghost use Rattle.kv_types.specs.Refusals.{batch_error};
    ghost use Rattle.kv_types.specs.Reading.{batch_at};

    /// The batch of these edits. `NoEdits` refuses none, else `TooManyEdits` more than 256, else
    /// `BatchTooLong` a spelling of more than 65,536 bytes.
    pub fn new(edits: Vec<Edit>) -> Result<Batch, KvError>
        ensures made { IfOk result (λ batch. (batch ≡ unmarked edits.items)
            × (batch_error (unmarked edits.items) ≡ None)) }
        ensures refused { IfErr result (λ e. batch_error (unmarked edits.items) ≡ Some e) }
    {
        batch_of(None, edits)
    }

    /// The batch of these edits that bears the mark of this client and request. `BadMark` refuses
    /// a client or request of 0 or above 2^63 - 1; else it is as for `new`.
    pub fn marked(client: u64, request: u64, edits: Vec<Edit>) -> Result<Batch, KvError>
        ensures made { IfOk result (λ batch. (batch ≡ marked client request edits.items)
            × (batch_error (marked client request edits.items) ≡ None)) }
        ensures refused { IfErr result (λ e.
            batch_error (marked client request edits.items) ≡ Some e) }
    {
        let mark = Mark { client, request };
        if !mark.is_in_range() {
            return Err(KvError::BadMark);
        }
        batch_of(Some(mark), edits)
    }

    /// The mark, if the batch bears one.
    pub fn mark(&self) -> Option<Mark>
        ensures mark { result ≡ mark_of self.now }
        ensures batch { IsBatch self.now }
    {
        self.mark
    }

    /// The edits, in order.
    pub fn edits(&self) -> &[Edit]
        ensures edits { result.now ≡ edits_of self.now }
        ensures batch { IsBatch self.now }
    {
        self.edits.as_slice()
    }

    /// How many bytes the batch is spelled in.
    pub fn spelled_len(&self) -> usize
        ensures len { result ≡ length (batch_bytes self.now) }
        ensures limit { result ≤ MAX_BATCH }
    {
        front_len(self.mark) + spelled_len(self.edits.as_slice())
    }

    /// Appends the spelling of the batch to `out`.
    pub fn spell_into(&self, out: &mut Vec<u8>) -> Result<(), AllocError>
        ensures spelled { OnOk result (out.new.items ≡ out.old.items ++ batch_bytes self.now) }
        ensures batch { IsBatch self.now }
    {
        put_front(out, self.mark)?;
        put_edits(out, self.edits.as_slice())
    }

    /// The batch at the front of the bytes, and the bytes behind it, if there is one.
    pub fn read_from(alloc: Global, bytes: &[u8]) -> Result<Option<(Batch, &[u8])>, AllocError>
        ensures found { IfOk result (λ read. IfSome read (λ x.
            (bytes.now ≡ batch_bytes x.0 ++ x.1.now) × IsBatch x.0)) }
        ensures bad { result ≡ Ok None → (batch : BatchContent) (rest : List ℕ)
            → IsBatch batch → bytes.now ≡ batch_bytes batch ++ rest → ⊥ }
        ensures exact { ReadsBytes (λ x. (x.0, x.1.now)) result (batch_at bytes.now) }
    {
        let Some((mark, edits, rest)) = front_parts_of(alloc, bytes)? else {
            return Ok(None);
        };
        let edits = SharedEdits::new(edits);
        Ok(Some((Batch { mark, edits }, rest)))
    }

    /// The one spelling of the batch in bytes.
    pub fn to_bytes(&self, alloc: Global) -> Result<Vec<u8>, AllocError>
        ensures { IfOk result (λ bytes. bytes.items ≡ batch_bytes self.now) }
    {
        let mut out = Vec::with_capacity(alloc, self.spelled_len())?;
        self.spell_into(&mut out)?;
        Ok(out)
    }

    /// The batch that exactly these bytes spell. `BadBytes` refuses bytes that spell none, and
    /// nothing else but want of memory is refused.
    pub fn from_bytes(alloc: Global, bytes: &[u8]) -> Result<Batch, KvError>
        ensures spelled { IfOk result (λ batch. bytes.now ≡ batch_bytes batch) }
        ensures refused { IfErr result (λ e. (e ≡ KvError.Memory) ⊎ ((e ≡ KvError.BadBytes) ×
            ((batch : BatchContent) → IsBatch batch → bytes.now ≡ batch_bytes batch → ⊥))) }
    {
        let Some((mark, edits)) = all_parts_of(alloc, bytes)? else {
            return Err(KvError::BadBytes);
        };
        let edits = SharedEdits::new(edits);
        Ok(Batch { mark, edits })
    }

    /// The same batch once more. The edits of a batch that was made of them are not copied.
    pub fn clone(&self) -> Result<Batch, AllocError>
        ensures { IfOk result (λ batch. batch ≡ self.now) }
    {
        Ok(Batch {
            mark: self.mark,
            edits: self.edits.clone()?,
        })
    }
}
