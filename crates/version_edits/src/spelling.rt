// The writer of an edit.
ghost use Rattle.std.specs.Prelude.{◌≡◌, ◌++◌, ◌<◌, ◌≤◌, ◌^◌, length, OnOk, IfOk};
ghost use Rattle.record_log.specs.declared.log.TheConstants.{MAX_RECORD};
ghost use Rattle.std.specs.Int.{w16, w32, w64, to_be_bytes};
ghost use Rattle.version_edits.specs.Lawful.{IsFullEdit, IsVersion, full_change};
ghost use Rattle.version_edits.specs.Edits.{IsChange, change_text, counted_bytes, log_line_bytes};
ghost use Rattle.version_edits.specs.Edits.{table_head_bytes, table_line_bytes, table_name_bytes};
ghost use Rattle.byte_fields.specs.declared.format.Format.TheVariants.{Two};

use crate::{LogLine, StoreVersion, TableLine, TableName, VersionEdit};
use byte_fields::{put_u32, put_u64};
use std::alloc::{AllocError, Global};

// Two bytes that count items.
fn put_count(out: &mut Vec<u8>, count: usize) -> Result<(), AllocError>
    requires { count < 2 ^ 16 }
    ensures { OnOk result (out.new.items ≡ out.old.items ++ to_be_bytes w16 count) }
{
    out.extend_from_slice(&(count as u16).to_be_bytes())
}

fn put_files(out: &mut Vec<u8>, files: &[u64]) -> Result<(), AllocError>
    requires { length files.now < 2 ^ 16 }
    ensures { OnOk result (out.new.items ≡
        out.old.items ++ counted_bytes (λ file. to_be_bytes w64 file) files.now) }
{
    put_count(out, files.len())?;
    for file in files {
        put_u64(out, *file)?;
    }
    Ok(())
}

fn put_log(out: &mut Vec<u8>, line: &LogLine) -> Result<(), AllocError>
    ensures { OnOk result (out.new.items ≡ out.old.items ++ log_line_bytes line.now) }
{
    put_u64(out, line.file)?;
    put_u64(out, line.first)
}

fn put_logs(out: &mut Vec<u8>, lines: &[LogLine]) -> Result<(), AllocError>
    requires { length lines.now < 2 ^ 16 }
    ensures { OnOk result (out.new.items ≡
        out.old.items ++ counted_bytes log_line_bytes lines.now) }
{
    put_count(out, lines.len())?;
    for line in lines {
        put_log(out, line)?;
    }
    Ok(())
}

fn put_names(out: &mut Vec<u8>, names: &[TableName]) -> Result<(), AllocError>
    requires { length names.now < 2 ^ 16 }
    ensures { OnOk result (out.new.items ≡
        out.old.items ++ counted_bytes table_name_bytes names.now) }
{
    put_count(out, names.len())?;
    for one in names {
        out.push(one.level)?;
        put_u64(out, one.file)?;
    }
    Ok(())
}

fn put_table_head(out: &mut Vec<u8>, line: &TableLine) -> Result<(), AllocError>
    ensures { OnOk result (out.new.items ≡ out.old.items ++ table_head_bytes line.now) }
{
    out.push(line.level)?;
    put_u64(out, line.file)?;
    put_u64(out, line.length)
}

fn put_table(out: &mut Vec<u8>, line: &TableLine) -> Result<(), AllocError>
    ensures { OnOk result (out.new.items ≡ out.old.items ++ table_line_bytes Two line.now) }
{
    put_table_head(out, line)?;
    line.least.spell_into(out)?;
    line.greatest.spell_into(out)?;
    Ok(())
}

fn put_tables(out: &mut Vec<u8>, lines: &[TableLine]) -> Result<(), AllocError>
    requires { length lines.now < 2 ^ 16 }
    ensures { OnOk result (out.new.items ≡
        out.old.items ++ counted_bytes (table_line_bytes Two) lines.now) }
{
    put_count(out, lines.len())?;
    for line in lines {
        put_table(out, line)?;
    }
    Ok(())
}

fn put_numbers(
    out: &mut Vec<u8>,
    next_file: u64,
    floor: u64,
    flushed: u64,
    epoch: u32,
) -> Result<(), AllocError>
    ensures { OnOk result (out.new.items ≡ out.old.items ++ to_be_bytes w64 next_file
        ++ to_be_bytes w64 floor ++ to_be_bytes w64 flushed ++ to_be_bytes w32 epoch) }
{
    put_u64(out, next_file)?;
    put_u64(out, floor)?;
    put_u64(out, flushed)?;
    put_u32(out, epoch)
}

fn put_edit(out: &mut Vec<u8>, edit: &VersionEdit) -> Result<(), AllocError>
    requires { IsChange edit.now }
    ensures { OnOk result (out.new.items ≡ out.old.items ++ change_text edit.now) }
{
    put_numbers(out, edit.next_file, edit.floor, edit.flushed, edit.epoch)?;
    edit.config.spell_into(out)?;
    put_files(out, &edit.logs_gone)?;
    put_logs(out, &edit.logs_added)?;
    put_names(out, &edit.tables_gone)?;
    put_tables(out, &edit.tables_added)
}

// The one edit that gives the whole version.
fn put_full(out: &mut Vec<u8>, version: &StoreVersion) -> Result<(), AllocError>
    ensures { OnOk result (out.new.items ≡
        out.old.items ++ change_text (full_change version.now.version)) }
{
    put_numbers(
        out,
        version.next_file,
        version.floor,
        version.flushed,
        version.epoch,
    )?;
    version.config.spell_into(out)?;
    put_files(out, &[])?;
    put_logs(out, &version.logs)?;
    put_names(out, &[])?;
    put_tables(out, &version.tables)
}

/// The bytes of an edit.
pub fn bytes_of(alloc: Global, edit: &VersionEdit) -> Result<Vec<u8>, AllocError>
    requires { IsChange edit.now }
    ensures { IfOk result (λ text. text.items ≡ change_text edit.now) }
{
    let mut out = Vec::new(alloc);
    put_edit(&mut out, edit)?;
    Ok(out)
}

// Those bytes, by their spelling alone.
fn bytes_of_full(alloc: Global, version: &StoreVersion) -> Result<Vec<u8>, AllocError>
    ensures spelled { IfOk result
        (λ text. text.items ≡ change_text (full_change version.now.version)) }
    ensures is { IsVersion version.now.version }
{
    let _floor = version.floor; // its invariant holds
    let mut out = Vec::new(alloc);
    put_full(&mut out, version)?;
    Ok(out)
}

/// The bytes of one edit that gives the whole version.
pub fn full_edit_bytes(alloc: Global, version: &StoreVersion) -> Result<Vec<u8>, AllocError>
    ensures short { IfOk result (λ bytes. length bytes.items ≤ MAX_RECORD) }
    ensures whole { IfOk result (λ bytes. IsFullEdit version.now bytes.items) }
    ensures spelled { IfOk result
        (λ bytes. bytes.items ≡ change_text (full_change version.now.version)) }
{
    let bytes = bytes_of_full(alloc, version)?;
    Ok(bytes)
}
