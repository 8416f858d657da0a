// The heads of the slots, and which slot counts.
ghost use Rattle.std.specs.Prelude.{◌≡◌, ◌⊎◌, ◌<◌, ◌≤◌, ◌^◌, ◌∷◌, Some, length, IfOk};
ghost use Rattle.std.specs.Prelude.{IfErr, MatchResult, MatchOption};
ghost use Rattle.disk.specs.{Contents, IsEnvironmental, IsSame, seen};
ghost use Rattle.kv_types.specs.declared.bounds.TheConstants.{MAX_NUMBER};
ghost use Rattle.manifest.specs.declared.error.ManifestError.TheVariants.{Disk, Memory};
ghost use Rattle.manifest.specs.Heads.{EndsBeforeLog, HasHead, HeadIs, HeadsCount, HeadsRefuse};
ghost use Rattle.manifest.specs.Heads.{IsFilled, NoneCounts, SlotCounts};
ghost use Rattle.manifest.specs.Errors.{IsUpgradeError};
ghost use Rattle.manifest.specs.Reads.{SlotsAreRead};
ghost use Rattle.manifest.specs.Slots.{IsSlotFile, SlotsRead};

use crate::ManifestError;
use byte_fields::{Format, read_u16, read_u64};
use disk::{Disk, DiskError};
use kv_types::bounds::MAX_NUMBER;

/// The head of an open slot that reaches to its log: its format, generation, and the node's id.
#[derive(Clone, Copy)]
pub struct OpenHead {
    pub format: Format,
    pub generation: u64,
    pub id: u16,
}

/// The head of a slot: none, of a closed slot, of an open one that ends before its log, or whole.
#[derive(Clone, Copy)]
pub enum Head {
    Missing,
    Closed,
    Short,
    Open(OpenHead),
}

/// The slot that counts, its head, and whether the other's gate is open.
#[derive(Clone, Copy)]
pub struct CountingSlot {
    pub slot: u64,
    pub head: OpenHead,
    pub other_is_open: bool,
}

// Whether the file has as many bytes as the buffer, which then holds the first ones.
fn fills<D: Disk>(disk: &mut D, file: u64, into: &mut [u8]) -> Result<bool, ManifestError>
    ensures reads { SlotsAreRead D.Disk disk.old disk.new IsSame result }
    ensures filled { MatchResult result (λ full. D.is_honest disk.old →
        IsFilled full (seen (D.state disk.old file)) into.new) (IsEnvironmental Disk Memory) }
    ensures len { length into.new ≡ length into.old }
{
    match disk.read(file, 0, into) {
        Ok(()) => Ok(true),
        Err(DiskError::Failed) => Err(ManifestError::Disk),
        Err(DiskError::Memory) => Err(ManifestError::Memory),
        Err(_) => Ok(false),
    }
}

// The head of an open slot with these bytes behind its gate, if they reach to its log.
fn open_head(behind: &[u8]) -> Option<OpenHead>
    ensures { MatchOption result (EndsBeforeLog (1 ∷ behind.now))
        (λ it. HasHead it (1 ∷ behind.now) × (it.generation < 2 ^ 64)) }
{
    let (generation, behind) = read_u64(behind)?;
    let (old_id, behind) = read_u16(behind)?;
    if old_id != 0 {
        return Some(OpenHead {
            format: Format::One,
            generation,
            id: old_id,
        });
    }
    let (id, _log) = read_u16(behind)?;
    Some(OpenHead {
        format: Format::Two,
        generation,
        id,
    })
}

// The head of a slot with these bytes.
fn head_in(bytes: &[u8]) -> Head
    ensures { HeadIs result (Some bytes.now) }
{
    match bytes {
        [] => Head::Missing,
        [1, behind @ ..] => match open_head(behind) {
            Some(head) => Head::Open(head),
            None => Head::Short,
        },
        _ => Head::Closed,
    }
}

// The head of a slot. At most three reads, and the third only of an open slot that is shorter than
// a head of format 2.
fn head_of<D: Disk>(disk: &mut D, file: u64) -> Result<Head, ManifestError>
    ensures reads { SlotsAreRead D.Disk disk.old disk.new IsSame result }
    ensures is { MatchResult result
        (λ head. D.is_honest disk.old → HeadIs head (seen (D.state disk.old file)))
        (IsEnvironmental Disk Memory) }
{
    let mut bytes = [0; 13];
    if fills(disk, file, &mut bytes)? {
        return Ok(head_in(&bytes));
    }
    let mut gate = [0; 1];
    if !fills(disk, file, &mut gate)? {
        return Ok(Head::Missing);
    }
    if gate[0] != 1 {
        return Ok(Head::Closed);
    }
    let mut old = [0; 11];
    if !fills(disk, file, &mut old)? {
        return Ok(Head::Short);
    }
    Ok(head_in(&old))
}

fn counts(slot: u64, head: OpenHead, other_is_open: bool) -> Result<CountingSlot, ManifestError>
    ensures is { IfOk result (λ it. (it ≡ record {
      slot = slot;
      head = head;
      other_is_open = other_is_open;
    }) × (head.generation ≤ MAX_NUMBER)) }
    ensures over { IfErr result
        (λ e. (e ≡ ManifestError.Damaged) × (MAX_NUMBER < head.generation)) }
{
    if head.generation > MAX_NUMBER {
        return Err(ManifestError::Damaged);
    }
    Ok(CountingSlot {
        slot,
        head,
        other_is_open,
    })
}

// The slot that counts, by the heads of both.
fn counting(first: Head, second: Head) -> Result<CountingSlot, ManifestError>
    ensures { MatchResult result (HeadsCount first second) (HeadsRefuse first second) }
{
    match (first, second) {
        (Head::Open(one), Head::Open(two)) => {
            if one.generation == two.generation {
                return Err(ManifestError::Damaged);
            }
            if two.generation < one.generation {
                counts(1, one, true)
            } else {
                counts(2, two, true)
            }
        }
        (Head::Open(one), Head::Closed) => counts(1, one, false),
        (Head::Closed, Head::Open(two)) => counts(2, two, false),
        (Head::Open(_), _) | (_, Head::Open(_)) | (Head::Short, _) | (_, Head::Short) => {
            Err(ManifestError::Damaged)
        }
        _ => Err(ManifestError::NotCreated),
    }
}

/// The slot that counts, of either format, as reads give both slots. At most six reads.
pub fn counting_slot<D: Disk>(disk: &mut D) -> Result<CountingSlot, ManifestError>
    ensures reads { SlotsAreRead D.Disk disk.old disk.new IsSame result }
    ensures one { IfOk result (λ it. IsSlotFile it.slot) }
    ensures counts { (left : Contents) → D.is_honest disk.old → SlotsRead (D.state disk.old) left →
        MatchResult result (λ it. SlotCounts it left)
        (λ e. IsEnvironmental Disk Memory e ⊎ NoneCounts e left) }
    ensures causes { IfErr result IsUpgradeError }
{
    let first = head_of(disk, 1)?;
    let second = head_of(disk, 2)?;
    counting(first, second)
}
