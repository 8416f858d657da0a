// Recovery of a log: the records in the bytes of a file.
ghost use Rattle.std.specs.Prelude.{◌≡◌, ◌++◌, ◌<◌, ◌^◌, List, ℕ, length, IfOk};
ghost use Rattle.std.specs.Prelude.{Err, IsErr, MatchOption};
ghost use Rattle.record_log.specs.Grammar.{IsClosed, Represents, entry, ends_from, end_of};

use std::alloc::{AllocError, Global};

/// Bytes that represent no records.
#[derive(Clone, Copy)]
struct Malformed;

/// The record at the front and the bytes behind it, or `None` where the gate is closed.
fn first_of(bytes: &[u8]) -> Result<Option<(&[u8], &[u8])>, Malformed>
    ensures first { IfOk result (λ found. MatchOption found (IsClosed bytes.now)
        (λ x. (length x.0.now < 2 ^ 32) × (bytes.now ≡ entry x.0.now ++ x.1.now))) }
    ensures malformed { IsErr result → (l : List (List ℕ)) → Represents bytes.now l → ⊥ }
{
    if bytes.is_empty() {
        return Err(Malformed);
    }
    if bytes[0] != 1 {
        return Ok(None);
    }
    let (_gate, rest) = bytes.split_at(1);
    if rest.len() < 4 {
        return Err(Malformed);
    }
    let (head, tail) = rest.split_at(4);
    let len = u32::from_be_bytes([head[0], head[1], head[2], head[3]]) as usize;
    if tail.len() < len {
        return Err(Malformed);
    }
    Ok(Some(tail.split_at(len)))
}

/// The places where the records of the bytes end, and the place where the last ends. `None` where
/// the bytes represent no records.
pub fn scan(alloc: Global, bytes: &[u8]) -> Result<Option<(Vec<usize>, usize)>, AllocError>
    ensures { IfOk result (λ found. MatchOption found
        ((records : List (List ℕ)) → Represents bytes.now records → ⊥)
        (λ it. (records : List (List ℕ)) × Represents bytes.now records
        × (it.0.items ≡ ends_from 0 records) × (it.1 ≡ end_of 0 records))) }
{
    let mut ends = Vec::new(alloc);
    let mut end = 0;
    let mut rest = bytes;
    loop {
        match first_of(rest) {
            Err(Malformed) => return Ok(None),
            Ok(None) => return Ok(Some((ends, end))),
            Ok(Some((_record, after))) => {
                end = bytes.len().saturating_sub(after.len());
                ends.push(end)?;
                rest = after;
            }
        }
    }
}
