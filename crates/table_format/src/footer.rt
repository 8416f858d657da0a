//! The last part of a table, which says where the others are.
ghost use Rattle.std.specs.Prelude.{◌≡◌, IfOk};
ghost use Rattle.byte_fields.specs.{ReadsFront};
ghost use Rattle.table_format.specs.Parts.{ReadsPart, IsFooter};
ghost use Rattle.table_format.specs.Reading.{footer_at};
ghost use Rattle.table_format.specs.Tables.{footer_part};

use crate::format::{format_of, number_of_format};
use crate::part::{seal, unsealed};
use byte_fields::{Format, put_u32, put_u64, read_u32, read_u64};
use std::alloc::{AllocError, Global};

/// The magic `CRLSMT01`.
const MAGIC: [u8; 8] = [67, 82, 76, 83, 77, 84, 48, 49];

/// Where index and filter stand in a file, how long they are with their digests, how many entries
/// the table has, and its format.
#[derive(Clone, Copy)]
pub struct Footer {
    pub index: u64,
    pub index_len: u32,
    pub filter: u64,
    pub filter_len: u32,
    pub entries: u64,
    pub format: Format,
}

/// The part that holds the footer.
pub fn footer_part_of(alloc: Global, footer: Footer) -> Result<Vec<u8>, AllocError>
    ensures { IfOk result (λ part. part.items ≡ footer_part footer) }
{
    let mut part = Vec::new(alloc);
    put_u64(&mut part, footer.index)?;
    put_u32(&mut part, footer.index_len)?;
    put_u64(&mut part, footer.filter)?;
    put_u32(&mut part, footer.filter_len)?;
    put_u64(&mut part, footer.entries)?;
    put_u32(&mut part, number_of_format(footer.format))?;
    part.extend_from_slice(&MAGIC)?;
    seal(&mut part)?;
    Ok(part)
}

// The fields of a footer, and the bytes behind them.
#[tactic(auto, unfolding(crate::specs::Reading::footer_at))]
fn fields_of(bytes: &[u8]) -> Option<(Footer, &[u8])>
    ensures { ReadsFront (λ x. (x.0, x.1.now)) result (footer_at bytes.now) }
{
    let (index, rest) = read_u64(bytes)?;
    let (index_len, rest) = read_u32(rest)?;
    let (filter, rest) = read_u64(rest)?;
    let (filter_len, rest) = read_u32(rest)?;
    let (entries, rest) = read_u64(rest)?;
    let (format, rest) = format_of(rest)?;
    let footer = Footer {
        index,
        index_len,
        filter,
        filter_len,
        entries,
        format,
    };
    Some((footer, rest))
}

/// The footer, if the bytes are the part that holds one.
pub fn footer_of(part: &[u8]) -> Option<Footer>
    ensures { ReadsPart (IsFooter part.now) (λ it. it) result }
{
    let content = unsealed(part)?;
    let (footer, rest) = fields_of(content)?;
    if rest != MAGIC.as_slice() {
        return None;
    }
    Some(footer)
}
