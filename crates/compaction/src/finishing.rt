// Finishing an output.
ghost use Rattle.std.specs.Prelude.{◌≡◌, ◌≤◌, ◌<◌, IsErrOf, List, IfOk, MatchOption, MatchResult};
ghost use Rattle.std.specs.Prelude.{◌↔◌, IsTrue, length};
ghost use Rattle.byte_fields.specs.Order.{IsBelow};
ghost use Rattle.disk.specs.{IsEnvironmental};
ghost use Rattle.kv_types.specs.declared.bounds.TheConstants.{MAX_NUMBER};
ghost use Rattle.kv_types.specs.{Entry};
ghost use Rattle.version_edits.specs.{IsTableLine};
ghost use Rattle.table_builder.specs.{Builds, BuildsNothing};
ghost use Rattle.compaction.specs.declared.error.MergeError.TheVariants.{Disk, Memory};
ghost use Rattle.compaction.specs.Outputs.{IsOutput, WritesOnly, finished_line};

use crate::error::MergeError;
use crate::open_output::OpenOutput;
use byte_fields::StoredKey;
use disk::Disk;
use kv_types::bounds::MAX_NUMBER;
use std::alloc::Global;
use table_builder::Finished;
use version_edits::TableLine;

// Whether the first key is below the second.
fn stands_below(a: &StoredKey, b: &StoredKey) -> bool
    ensures { IsTrue result ↔ IsBelow a.now b.now }
{
    a < b
}

/// The line of a finished table of this level in this file. `None` where a manifest may not have
/// it, which only a disk that is not honest brings about.
pub fn finished_line(level: u8, file: u64, done: Finished) -> Option<TableLine>
    requires merged { level ≤ 6 }
    requires named { file ≤ MAX_NUMBER }
    ensures { MatchOption result (IsTableLine (finished_line level file done) → ⊥)
        (λ line. (line ≡ finished_line level file done) × IsTableLine line) }
{
    if done.length > MAX_NUMBER || stands_below(&done.greatest, &done.least) {
        return None;
    }
    Some(TableLine {
        level,
        file,
        length: done.length,
        least: done.least,
        greatest: done.greatest,
    })
}

/// Finishes the table of an output.
pub(crate) fn finish_output<D: Disk>(
    alloc: Global,
    disk: &mut D,
    level: u8,
    output: OpenOutput,
) -> Result<TableLine, MergeError>
    requires { level ≤ 6 }
    ensures writes { WritesOnly D.Disk (λ file. output.file ≡ file) disk.old disk.new
        (IsErrOf result Disk) (BuildsNothing output.builder) }
    ensures finished { (entries : List Entry) → D.is_honest disk.old →
        Builds (D.state disk.old output.file) output.builder entries → 0 < length entries →
        MatchResult result (λ line. IsOutput (D.state disk.new) level line entries)
        (IsEnvironmental Disk Memory) }
    ensures file { IfOk result (λ line. line.file ≡ output.file) }
    ensures proper { IfOk result IsTableLine }
{
    let OpenOutput { file, builder } = output;
    if builder.len() == 0 {
        return Err(MergeError::Damaged);
    }
    let done = builder.finish(alloc, disk)?;
    finished_line(level, file, done).ok_or(MergeError::Damaged)
}
