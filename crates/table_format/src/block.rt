//! Blocks: the check of one, and its entries.
ghost use Rattle.std.specs.Prelude.{◌≡◌, ◌↔◌, List, IsTrue, MatchOption, option_map, IfSome};
ghost use Rattle.kv_types.specs.{Entry};
ghost use Rattle.merge_iter.specs.declared.Direction.TheVariants.{Forward};
ghost use Rattle.merge_iter.specs.{EntryPrecedes};
ghost use Rattle.table_format.specs.Blocks.{IsBlock, IsBlockText, entries_bytes};
ghost use Rattle.table_format.specs.Reading.{lent_entry};

use crate::LentEntry;
use crate::entry::entry_of;
use crate::part::unsealed;
use byte_fields::{Format, read_u32};
use merge_iter::order;

// Whether the entry comes behind the last one.
fn follows(last: Option<LentEntry>, entry: LentEntry) -> bool
    ensures { IsTrue result ↔ IfSome (option_map lent_entry last.entry)
        (λ before. EntryPrecedes Forward before (lent_entry entry.entry)) }
{
    match last {
        Some(last) => order(last.key, last.number, entry.key, entry.number).is_lt(),
        None => true,
    }
}

/// The bytes of the entries, if the bytes are a block in the format. It checks the digest, each
/// entry, their order and their number.
pub fn entries_of(format: Format, part: &[u8]) -> Option<&[u8]>
    ensures right { IfSome result (λ text. IsBlockText format part.now text.now) }
    ensures one { (entries : List Entry) → IsBlock format part.now entries →
        MatchOption result ⊥ (λ text. text.now ≡ entries_bytes format entries) }
{
    let content = unsealed(part)?;
    let (count, entries) = read_u32(content)?;
    let mut last: Option<LentEntry> = None;
    let mut seen = 0u32;
    let mut rest = entries;
    while !rest.is_empty() {
        let (entry, after) = entry_of(format, rest)?;
        if seen == count || !follows(last, entry) {
            return None;
        }
        seen += 1;
        last = Some(entry);
        rest = after;
    }
    if seen != count || count == 0 {
        return None;
    }
    Some(entries)
}
