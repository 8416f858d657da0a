//! Reading a block of a file.
ghost use Rattle.std.specs.Prelude.{◌≡◌, IfOk, IsErrOf, length};
ghost use Rattle.std.specs.Rc.{rc_slice_items};
ghost use Rattle.disk.specs.{IsSame, IsStill, KeepsDisk};
ghost use Rattle.table_format.specs.declared.FileError.TheVariants.{Disk};
ghost use Rattle.table_files.specs.BlockReads.{BlockAnswer};
ghost use Rattle.disk.specs.{CallsAtMost};

use crate::block::CheckedBlock;
use byte_fields::Format;
use disk::Disk;
use std::alloc::Global;
use table_format::{FileError, entries_of};

/// The bytes from a place of the file on, if they are a block in the format. It needs one device
/// call.
pub fn read_block<D: Disk>(
    alloc: Global,
    disk: &mut D,
    file: u64,
    place: u64,
    len: usize,
    format: Format,
) -> Result<CheckedBlock, FileError>
    ensures kept { KeepsDisk D.Disk disk.old disk.new (IsErrOf result Disk) ⊥ IsSame }
    ensures answers { D.is_honest disk.old →
        BlockAnswer (D.state disk.old) file place len format result }
    ensures len { IfOk result (λ block. (length (rc_slice_items block.bytes) ≡ len)
        × (block.format ≡ format)) }
    ensures still { IsStill D.Disk disk.old disk.new }
    ensures calls { CallsAtMost D.Disk 1 disk.old disk.new }
{
    let mut bytes = vec![in alloc; 0u8; len]?;
    disk.read(file, place, &mut bytes)?;
    if entries_of(format, &bytes).is_none() {
        return Err(FileError::Damaged);
    }
    Ok(CheckedBlock::new(alloc, format, bytes)?)
}
