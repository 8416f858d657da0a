//! The index of a table: its lines, read with all checks.
ghost use Rattle.std.specs.Prelude.{◌↔◌, map, IsTrue};
ghost use Rattle.table_format.specs.Blocks.{CanFollow};
ghost use Rattle.table_format.specs.Parts.{ReadsPartOr, IsIndex, end_spot};
ghost use Rattle.table_format.specs.Reading.{lent_line};

use crate::FileError;
use crate::line::{IndexLine, LentLine, copied, line_of};
use crate::part::unsealed;
use byte_fields::{Format, read_u32};
use merge_iter::order;
use std::alloc::Global;

// Whether the block of the line comes behind those of the lines.
fn rises(lines: &[IndexLine], line: LentLine) -> bool
    ensures { IsTrue result ↔
        CanFollow (map end_spot lines.now) (end_spot (lent_line line.entry)) }
{
    match lines.last() {
        Some(last) => order(last.key.lent(), last.number, line.key, line.number).is_lt(),
        None => true,
    }
}

/// The lines of an index, if the bytes are one in the format whose blocks fill the file up to this
/// place.
pub fn lines_of(
    alloc: Global,
    format: Format,
    part: &[u8],
    end: u64,
) -> Result<Vec<IndexLine>, FileError>
    ensures { ReadsPartOr (IsIndex format part.now end) (λ lines. lines.items) result }
{
    let Some(content) = unsealed(part) else {
        return Err(FileError::Damaged);
    };
    let Some((count, text)) = read_u32(content) else {
        return Err(FileError::Damaged);
    };
    let mut lines: Vec<IndexLine> = Vec::new(alloc);
    let mut place = 0;
    let mut rest = text;
    while !rest.is_empty() {
        let Some((line, after)) = line_of(format, rest) else {
            return Err(FileError::Damaged);
        };
        if line.place != place || line.len as u64 > end - place || !rises(&lines, line) {
            return Err(FileError::Damaged);
        }
        lines.push(copied(alloc, line)?)?;
        place += line.len as u64;
        rest = after;
    }
    if place != end || lines.len() != count as usize || text.is_empty() {
        return Err(FileError::Damaged);
    }
    Ok(lines)
}
