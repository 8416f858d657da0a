//! Entries and lines, written as bytes, in format 2.
ghost use Rattle.std.specs.Prelude.{◌≡◌, ◌≤◌, ◌++◌, length, OnOk, IfSome, option_map};
ghost use Rattle.byte_fields.specs.{IsStoredKey, lent_key};
ghost use Rattle.kv_types.specs.declared.bounds.TheConstants.{MAX_VALUE};
ghost use Rattle.table_format.specs.Blocks.{change_bytes, entry_bytes};
ghost use Rattle.table_format.specs.Reading.{lent_entry};
ghost use Rattle.byte_fields.specs.declared.format.Format.TheVariants.{Two};
ghost use Rattle.table_format.specs.Tables.{line_bytes};

use crate::{IndexLine, LentEntry};
use byte_fields::{put_text, put_u32, put_u64};
use std::alloc::AllocError;

fn put_change(out: &mut Vec<u8>, value: Option<&[u8]>) -> Result<(), AllocError>
    requires { IfSome value (λ v. length v.now ≤ MAX_VALUE) }
    ensures { OnOk result (out.new.items ≡ out.old.items
        ++ change_bytes (option_map (λ v. v.now) value.entry)) }
{
    match value {
        Some(value) => {
            out.push(1)?;
            put_text(out, value)
        }
        None => {
            out.push(2)?;
            Ok(())
        }
    }
}

/// Appends an entry, as format 2 spells it.
pub fn put_entry(out: &mut Vec<u8>, entry: LentEntry) -> Result<(), AllocError>
    requires key { IsStoredKey (lent_key entry.key) }
    requires value { IfSome entry.value (λ v. length v.now ≤ MAX_VALUE) }
    ensures { OnOk result (out.new.items ≡ out.old.items
        ++ entry_bytes Two (lent_entry entry.entry)) }
{
    entry.key.spell_into(out)?;
    put_u64(out, entry.number)?;
    put_change(out, entry.value)
}

/// The number of bytes of an entry in format 2.
pub fn entry_len(entry: LentEntry) -> usize
    requires key { IsStoredKey (lent_key entry.key) }
    requires value { IfSome entry.value (λ v. length v.now ≤ MAX_VALUE) }
    ensures { result ≡ length (entry_bytes Two (lent_entry entry.entry)) }
{
    let value = match entry.value {
        Some(value) => 2 + value.len(),
        None => 0,
    };
    12 + entry.key.len() + value
}

/// Appends a line of an index, as format 2 spells it.
pub fn put_line(out: &mut Vec<u8>, line: &IndexLine) -> Result<(), AllocError>
    ensures { OnOk result (out.new.items ≡ out.old.items ++ line_bytes Two line.now) }
{
    put_u64(out, line.place)?;
    put_u32(out, line.len)?;
    line.key.spell_into(out)?;
    put_u64(out, line.number)
}
