//! The tail of a table: its filter and its index, read from a file.
ghost use Rattle.std.specs.Prelude.{◌≡◌, ◌≤◌, ◌+◌, ◌↔◌, ◌⊎◌, ℕ, List, length, take, drop, Some};
ghost use Rattle.std.specs.Prelude.{IsTrue};
ghost use Rattle.std.specs.Prelude.{IfOk, IfSome, IsSome, IsSomeAnd, MatchOption};
ghost use Rattle.std.specs.Prelude.{MatchResult};
ghost use Rattle.std.specs.Rc.{rc_slice_items};
ghost use Rattle.disk.specs.{IsEnvironmental, seen};
ghost use Rattle.disk.specs.{CallsAtMost};
ghost use Rattle.kv_types.specs.{Entry};
ghost use Rattle.table_format.specs.declared.FileError.TheVariants.{Disk, Memory};
ghost use Rattle.table_format.specs.{IsFilterPart, IsIndex, TableRepresentsIn, block_lines};
ghost use Rattle.sorted_table.specs.TableReads.{ReadsDisk};
ghost use Rattle.sorted_table.specs.Tails.{FooterSays, HasReadTail, IsTail, ReadsTail, tail_bytes};
ghost use Rattle.sorted_table.specs.declared.tail.Tail.{Tail};
ghost use Rattle.byte_fields.specs.declared.format.Format.{Format};
ghost use Rattle.table_format.specs.declared.IndexLine.{IndexLine};

use byte_fields::Format;
use disk::Disk;
use std::alloc::Global;
use std::rc::RcSlice;
use table_format::sizes::FOOTER_SIZE;
use table_format::{FileError, Footer, IndexLine, filter_of, footer_of, lines_of};

/// Where the tail stands in its file, its length, and that of the filter's part, in bytes, and the
/// format of the table.
#[derive(Clone, Copy)]
pub struct Tail {
    pub place: u64,
    pub len: usize,
    pub filter_len: usize,
    pub format: Format,
}

// Whether filter and index stand directly behind one another and before the footer.
fn are_placed(footer: Footer, end: u64) -> bool
    ensures { IsTrue result ↔ (footer.filter + footer.filter_len ≡ footer.index)
        × (footer.index + footer.index_len ≡ end) }
{
    footer.filter <= footer.index
        && footer.index <= end
        && footer.index - footer.filter == footer.filter_len as u64
        && end - footer.index == footer.index_len as u64
}

// Where the tail stands, by the footer, which begins at this place.
fn tail_of(footer: &[u8], end: u64) -> Option<Tail>
    ensures within { IfSome result (λ tail. tail.filter_len ≤ tail.len) }
    ensures ends { IfSome result (λ tail. tail.place + tail.len ≡ end) }
    ensures says { MatchOption result ((tail : Tail) → FooterSays footer.now end tail → ⊥)
        (FooterSays footer.now end) }
    ensures tail { (format : Format) (bytes : List ℕ) (entries : List Entry)
        (table : TableRepresentsIn format bytes entries) →
        end + FOOTER_SIZE ≡ length bytes → footer.now ≡ take FOOTER_SIZE (drop end bytes) →
        MatchOption result ⊥ (IsTail format table.blocks table.filter) }
{
    let footer = footer_of(footer)?;
    if !are_placed(footer, end) {
        return None;
    }
    Some(Tail {
        place: footer.filter,
        len: (end - footer.filter) as usize,
        filter_len: footer.filter_len as usize,
        format: footer.format,
    })
}

// Reads the footer of a file, and where it begins.
fn read_footer<D: Disk>(disk: &mut D, file: u64) -> Result<([u8; FOOTER_SIZE], u64), FileError>
    ensures device { ReadsDisk D.Disk disk.old disk.new result }
    ensures calls { CallsAtMost D.Disk 2 disk.old disk.new }
    ensures footer { (bytes : List ℕ) → D.is_honest disk.old →
        seen (D.state disk.old file) ≡ Some bytes →
        MatchResult result (λ x. (x.1 + FOOTER_SIZE ≡ length bytes)
        × (x.0 ≡ take FOOTER_SIZE (drop x.1 bytes)))
        (λ e. FOOTER_SIZE ≤ length bytes → IsEnvironmental Disk Memory e) }
    ensures present { D.is_honest disk.old → IfOk result (λ _.
        IsSome (seen (D.state disk.old file))) }
{
    let mut footer = [0u8; FOOTER_SIZE];
    let length = disk.length(file)?;
    if length < FOOTER_SIZE as u64 {
        return Err(FileError::Damaged);
    }
    let end = length - FOOTER_SIZE as u64;
    disk.read(file, end, &mut footer)?;
    Ok((footer, end))
}

// The bytes of a file from a place on.
fn read_part<D: Disk>(
    alloc: Global,
    disk: &mut D,
    file: u64,
    at: u64,
    len: usize,
) -> Result<Vec<u8>, FileError>
    ensures device { ReadsDisk D.Disk disk.old disk.new result }
    ensures calls { CallsAtMost D.Disk 1 disk.old disk.new }
    ensures read { (bytes : List ℕ) → D.is_honest disk.old →
        seen (D.state disk.old file) ≡ Some bytes →
        MatchResult result (λ part. part.items ≡ take len (drop at bytes))
        (λ e. at + len ≤ length bytes → IsEnvironmental Disk Memory e) }
    ensures len { IfOk result (λ part. length part.items ≡ len) }
{
    let mut part = vec![in alloc; 0u8; len]?;
    disk.read(file, at, &mut part)?;
    Ok(part)
}

/// Reads the tail of a table. It needs three device calls, and no more memory than the file is
/// long.
pub fn read_tail<D: Disk>(
    alloc: Global,
    disk: &mut D,
    file: u64,
) -> Result<(Vec<u8>, Tail), FileError>
    ensures device { ReadsDisk D.Disk disk.old disk.new result }
    ensures calls { CallsAtMost D.Disk 3 disk.old disk.new }
    ensures tail { (format : Format) (bytes : List ℕ) (entries : List Entry)
        (table : TableRepresentsIn format bytes entries) →
        D.is_honest disk.old → seen (D.state disk.old file) ≡ Some bytes →
        MatchResult result (λ x. (x.0.items ≡ tail_bytes format table.blocks table.filter)
        × IsTail format table.blocks table.filter x.1) (IsEnvironmental Disk Memory) }
    ensures there { D.is_honest disk.old → MatchResult result
        (λ x. IsSomeAnd (seen (D.state disk.old file)) (ReadsTail x.0.items x.1))
        (λ e. IsSomeAnd (seen (D.state disk.old file)) HasReadTail →
        IsEnvironmental Disk Memory e) }
    ensures within { IfOk result (λ x. x.1.filter_len ≤ length x.0.items) }
{
    let (footer, end) = read_footer(disk, file)?;
    let Some(tail) = tail_of(&footer, end) else {
        return Err(FileError::Damaged);
    };
    let bytes = read_part(alloc, disk, file, tail.place, tail.len)?;
    Ok((bytes, tail))
}

/// The lines of the index and the filter, by the bytes of the tail.
pub fn parts_of(
    alloc: Global,
    bytes: &[u8],
    tail: Tail,
) -> Result<(RcSlice<IndexLine>, Vec<u8>), FileError>
    requires { tail.filter_len ≤ length bytes.now }
    ensures parts { (all : List ℕ) (entries : List Entry)
        (table : TableRepresentsIn tail.format all entries) →
        bytes.now ≡ tail_bytes tail.format table.blocks table.filter →
        IsTail tail.format table.blocks table.filter tail →
        MatchResult result (λ x. (rc_slice_items x.0 ≡ block_lines tail.format 0 table.blocks)
        × (x.1.items ≡ table.filter)) (λ e. e ≡ FileError.Memory) }
    ensures checked { MatchResult result
        (λ x. IsFilterPart (take tail.filter_len bytes.now) x.1.items
        × IsIndex tail.format (drop tail.filter_len bytes.now) tail.place (rc_slice_items x.0)
        × ((lines : List IndexLine) →
        IsIndex tail.format (drop tail.filter_len bytes.now) tail.place lines →
        lines ≡ rc_slice_items x.0))
        (λ e. (e ≡ FileError.Memory) ⊎ ((e ≡ FileError.Damaged)
        × ((filter : List ℕ) (lines : List IndexLine) →
        IsFilterPart (take tail.filter_len bytes.now) filter →
        IsIndex tail.format (drop tail.filter_len bytes.now) tail.place lines → ⊥))) }
{
    let (filter, index) = bytes.split_at(tail.filter_len);
    let Some(filter) = filter_of(filter) else {
        return Err(FileError::Damaged);
    };
    let lines = lines_of(alloc, tail.format, index, tail.place)?;
    let lines = RcSlice::from_vec(lines)?;
    Ok((lines, Vec::from_slice(alloc, filter)?))
}
