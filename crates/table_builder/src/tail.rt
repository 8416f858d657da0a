//! What stands behind the blocks of a table of format 2: filter, index and footer.
ghost use Rattle.std.specs.Prelude.{◌≡◌, ◌+◌, ◌<◌, ◌^◌, length, IfOk};
ghost use Rattle.table_format.specs.{filter_part};
ghost use Rattle.table_builder.specs.Tails.{tail_of};

use byte_fields::Format;
use std::alloc::{AllocError, Global};
use table_format::{Footer, filter_part_of, footer_part_of};

/// A length as it is spelled in a table.
pub fn short_len(len: usize) -> u32
    ensures { len < 2 ^ 32 → result ≡ len }
{
    len.min(u32::MAX as usize) as u32
}

/// Filter, index and footer of a table whose filter begins at this place.
pub fn tail_part_of(
    alloc: Global,
    filter: &[u8],
    index: &[u8],
    place: u64,
    entries: u64,
) -> Result<Vec<u8>, AllocError>
    ensures { length (filter_part filter.now) < 2 ^ 32 → length index.now < 2 ^ 32 →
        place + length (filter_part filter.now) < 2 ^ 64 →
        IfOk result (λ tail. tail.items ≡ tail_of filter.now index.now place entries) }
{
    let mut tail = filter_part_of(alloc, filter)?;
    let footer = Footer {
        index: place.saturating_add(tail.len() as u64),
        index_len: short_len(index.len()),
        filter: place,
        filter_len: short_len(tail.len()),
        entries,
        format: Format::Two,
    };
    let footer_part = footer_part_of(alloc, footer)?;
    tail.extend_from_slice(index)?;
    tail.extend_from_slice(&footer_part)?;
    Ok(tail)
}
