//! Entries that are lent from the block that they stand in.
ghost use Rattle.std.specs.Prelude.{option_map};
ghost use Rattle.byte_fields.specs.{ReadsFront};
ghost use Rattle.table_format.specs.Reading.{change_at, lent_entry, stored_number_at};
ghost use Rattle.table_format.specs.Reading.{table_entry_at};

use byte_fields::{Format, LentKey, read_text, read_u64};
use kv_types::bounds::{MAX_NUMBER, MAX_VALUE};

/// A version of a key, lent: its value at a number, or `None` if the key was deleted there.
#[derive(Clone, Copy)]
pub struct LentEntry<'a> {
    pub key: LentKey<'a>,
    pub number: u64,
    pub value: Option<&'a [u8]>,
}

#[inline(always)]
#[tactic(auto, unfolding(crate::specs::Reading::stored_number_at))]
pub fn number_of(bytes: &[u8]) -> Option<(u64, &[u8])>
    ensures { ReadsFront (λ x. (x.0, x.1.now)) result (stored_number_at bytes.now) }
{
    let (number, rest) = read_u64(bytes)?;
    if number > MAX_NUMBER {
        return None;
    }
    Some((number, rest))
}

#[tactic(auto, unfolding(crate::specs::Reading::change_at))]
fn change_of(bytes: &[u8]) -> Option<(Option<&[u8]>, &[u8])>
    ensures { ReadsFront (λ x. (option_map (λ v. v.now) x.0, x.1.now)) result
        (change_at bytes.now) }
{
    match bytes {
        [1, rest @ ..] => {
            let (value, rest) = read_text(MAX_VALUE, rest)?;
            Some((Some(value), rest))
        }
        [2, rest @ ..] => Some((None, rest)),
        _ => None,
    }
}

/// The entry at the front of the bytes, as a table of the format spells it, and the bytes behind
/// it.
#[inline(always)]
#[tactic(auto, unfolding(crate::specs::Reading::table_entry_at))]
pub fn entry_of(format: Format, bytes: &[u8]) -> Option<(LentEntry<'_>, &[u8])>
    ensures { ReadsFront (λ x. (lent_entry x.0, x.1.now)) result
        (table_entry_at format bytes.now) }
{
    let (key, rest) = LentKey::read_from(format, bytes)?;
    let (number, rest) = number_of(rest)?;
    let (value, rest) = change_of(rest)?;
    Some((LentEntry { key, number, value }, rest))
}
