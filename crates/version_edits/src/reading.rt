// The reader of an edit. Each function reads from the front of the bytes, which then hold the bytes
// behind what it read.
ghost use Rattle.std.specs.Prelude.{◌≡◌, IfOk, IsErrOf, option_map};
ghost use Rattle.std.specs.Int.{w16, w32, w64};
ghost use Rattle.byte_fields.specs.{key_at_in};
ghost use Rattle.byte_fields.specs.{many, number_at};
ghost use Rattle.version_edits.specs.Versions.{Change};
ghost use Rattle.version_edits.specs.Edits.{IsChange, IsChangeIn, change_text_in};
ghost use Rattle.version_edits.specs.Reading.{ReadsChangeField, ReadsChange, items_read};
ghost use Rattle.version_edits.specs.Reading.{byte_field, count_field, next_field, first_field};
ghost use Rattle.version_edits.specs.Reading.{epoch_field, level_field, config_field};
ghost use Rattle.version_edits.specs.Reading.{log_line_at, table_name_at};
ghost use Rattle.version_edits.specs.Reading.{table_line_at, files_at};
ghost use Rattle.version_edits.specs.Reading.{logs_at, names_at, tables_at};
ghost use Rattle.version_edits.specs.Reading.{change_front, change_of};

use crate::{EditError, LogLine, MAX_NEXT, TableLine, TableName, VersionEdit};
use byte_fields::{Format, StoredKey, read_u16, read_u32, read_u64};
use configurations::Config;
use configurations::laws::test_decides_config;
use kv_types::bounds::MAX_NUMBER;
use std::alloc::{AllocError, Global};

#[tactic(auto, unfolding(crate::specs::Reading::byte_field))]
fn byte_of(bytes: &mut &[u8]) -> Result<u8, EditError>
    ensures { ReadsChangeField result bytes.new.now (byte_field bytes.old.now) }
{
    let [number, rest @ ..] = *bytes else {
        return Err(EditError::Damaged);
    };
    *bytes = rest;
    Ok(*number)
}

fn u16_of(bytes: &mut &[u8]) -> Result<u16, EditError>
    ensures { ReadsChangeField result bytes.new.now (number_at w16 bytes.old.now) }
{
    let Some((number, rest)) = read_u16(bytes) else {
        return Err(EditError::Damaged);
    };
    *bytes = rest;
    Ok(number)
}

fn u32_of(bytes: &mut &[u8]) -> Result<u32, EditError>
    ensures { ReadsChangeField result bytes.new.now (number_at w32 bytes.old.now) }
{
    let Some((number, rest)) = read_u32(bytes) else {
        return Err(EditError::Damaged);
    };
    *bytes = rest;
    Ok(number)
}

fn u64_of(bytes: &mut &[u8]) -> Result<u64, EditError>
    ensures { ReadsChangeField result bytes.new.now (number_at w64 bytes.old.now) }
{
    let Some((number, rest)) = read_u64(bytes) else {
        return Err(EditError::Damaged);
    };
    *bytes = rest;
    Ok(number)
}

#[tactic(auto, unfolding(crate::specs::Reading::count_field))]
fn count_of(bytes: &mut &[u8]) -> Result<u64, EditError>
    ensures { ReadsChangeField result bytes.new.now (count_field bytes.old.now) }
{
    let number = u64_of(bytes)?;
    if number > MAX_NUMBER {
        return Err(EditError::Damaged);
    }
    Ok(number)
}

#[tactic(auto, unfolding(crate::specs::Reading::next_field))]
fn next_of(bytes: &mut &[u8]) -> Result<u64, EditError>
    ensures { ReadsChangeField result bytes.new.now (next_field bytes.old.now) }
{
    let number = u64_of(bytes)?;
    if number > MAX_NEXT {
        return Err(EditError::Damaged);
    }
    Ok(number)
}

#[tactic(auto, unfolding(crate::specs::Reading::first_field))]
fn first_of(bytes: &mut &[u8]) -> Result<u64, EditError>
    ensures { ReadsChangeField result bytes.new.now (first_field bytes.old.now) }
{
    let number = next_of(bytes)?;
    if number < 1 {
        return Err(EditError::Damaged);
    }
    Ok(number)
}

#[tactic(auto, unfolding(crate::specs::Reading::epoch_field))]
fn epoch_of(bytes: &mut &[u8]) -> Result<u32, EditError>
    ensures { ReadsChangeField result bytes.new.now (epoch_field bytes.old.now) }
{
    let number = u32_of(bytes)?;
    if number > 15 {
        return Err(EditError::Damaged);
    }
    Ok(number)
}

#[tactic(auto, unfolding(crate::specs::Reading::level_field))]
fn level_of(bytes: &mut &[u8]) -> Result<u8, EditError>
    ensures { ReadsChangeField result bytes.new.now (level_field bytes.old.now) }
{
    let number = byte_of(bytes)?;
    if number > 6 {
        return Err(EditError::Damaged);
    }
    Ok(number)
}

fn key_of(alloc: Global, format: Format, bytes: &mut &[u8]) -> Result<StoredKey, EditError>
    ensures { ReadsChangeField result bytes.new.now (key_at_in format bytes.old.now) }
{
    match StoredKey::read_from(alloc, format, bytes)? {
        Some((read, rest)) => {
            *bytes = rest;
            Ok(read)
        }
        None => Err(EditError::Damaged),
    }
}

// The configuration at the front of the bytes, and the bytes behind it.
fn front_config_of(alloc: Global, bytes: &[u8]) -> Result<Option<(Config, &[u8])>, AllocError>
    ensures { IfOk result (λ found.
        option_map (λ x. (x.0, x.1.now)) found ≡ config_field bytes.now) }
{
    test_decides_config(); // law: the test succeeds exactly for the configurations
    Ok(Config::read_from(alloc, bytes)?)
}

fn config_of(alloc: Global, bytes: &mut &[u8]) -> Result<Config, EditError>
    ensures { ReadsChangeField result bytes.new.now (config_field bytes.old.now) }
{
    match front_config_of(alloc, bytes)? {
        Some((config, rest)) => {
            *bytes = rest;
            Ok(config)
        }
        None => Err(EditError::Damaged),
    }
}

fn files_in(alloc: Global, count: u16, bytes: &mut &[u8]) -> Result<Vec<u64>, EditError>
    ensures { ReadsChangeField (items_read result) bytes.new.now
        (many count_field count bytes.old.now) }
{
    let mut files = Vec::new(alloc);
    for _ in 0..count {
        files.push(count_of(bytes)?)?;
    }
    Ok(files)
}

#[tactic(auto, unfolding(crate::specs::Reading::files_at))]
fn files_of(alloc: Global, bytes: &mut &[u8]) -> Result<Vec<u64>, EditError>
    ensures { ReadsChangeField (items_read result) bytes.new.now (files_at bytes.old.now) }
{
    let count = u16_of(bytes)?;
    files_in(alloc, count, bytes)
}

#[tactic(auto, unfolding(crate::specs::Reading::log_line_at))]
fn log_of(bytes: &mut &[u8]) -> Result<LogLine, EditError>
    ensures { ReadsChangeField result bytes.new.now (log_line_at bytes.old.now) }
{
    let file = count_of(bytes)?;
    let first = first_of(bytes)?;
    Ok(LogLine { file, first })
}

fn logs_in(alloc: Global, count: u16, bytes: &mut &[u8]) -> Result<Vec<LogLine>, EditError>
    ensures { ReadsChangeField (items_read result) bytes.new.now
        (many log_line_at count bytes.old.now) }
{
    let mut lines = Vec::new(alloc);
    for _ in 0..count {
        lines.push(log_of(bytes)?)?;
    }
    Ok(lines)
}

#[tactic(auto, unfolding(crate::specs::Reading::logs_at))]
fn logs_of(alloc: Global, bytes: &mut &[u8]) -> Result<Vec<LogLine>, EditError>
    ensures { ReadsChangeField (items_read result) bytes.new.now (logs_at bytes.old.now) }
{
    let count = u16_of(bytes)?;
    logs_in(alloc, count, bytes)
}

#[tactic(auto, unfolding(crate::specs::Reading::table_name_at))]
fn name_of(bytes: &mut &[u8]) -> Result<TableName, EditError>
    ensures { ReadsChangeField result bytes.new.now (table_name_at bytes.old.now) }
{
    let level = level_of(bytes)?;
    let file = count_of(bytes)?;
    Ok(TableName { level, file })
}

fn names_in(alloc: Global, count: u16, bytes: &mut &[u8]) -> Result<Vec<TableName>, EditError>
    ensures { ReadsChangeField (items_read result) bytes.new.now
        (many table_name_at count bytes.old.now) }
{
    let mut names = Vec::new(alloc);
    for _ in 0..count {
        names.push(name_of(bytes)?)?;
    }
    Ok(names)
}

#[tactic(auto, unfolding(crate::specs::Reading::names_at))]
fn names_of(alloc: Global, bytes: &mut &[u8]) -> Result<Vec<TableName>, EditError>
    ensures { ReadsChangeField (items_read result) bytes.new.now (names_at bytes.old.now) }
{
    let count = u16_of(bytes)?;
    names_in(alloc, count, bytes)
}

#[tactic(auto, unfolding(crate::specs::Reading::table_line_at))]
fn table_of(alloc: Global, format: Format, bytes: &mut &[u8]) -> Result<TableLine, EditError>
    ensures { ReadsChangeField result bytes.new.now (table_line_at format bytes.old.now) }
{
    let level = level_of(bytes)?;
    let file = count_of(bytes)?;
    let length = count_of(bytes)?;
    let least = key_of(alloc, format, bytes)?;
    let greatest = key_of(alloc, format, bytes)?;
    if greatest < least {
        return Err(EditError::Damaged);
    }
    Ok(TableLine {
        level,
        file,
        length,
        least,
        greatest,
    })
}

fn tables_in(
    alloc: Global,
    format: Format,
    count: u16,
    bytes: &mut &[u8],
) -> Result<Vec<TableLine>, EditError>
    ensures { ReadsChangeField (items_read result) bytes.new.now
        (many (table_line_at format) count bytes.old.now) }
{
    let mut lines = Vec::new(alloc);
    for _ in 0..count {
        lines.push(table_of(alloc, format, bytes)?)?;
    }
    Ok(lines)
}

#[tactic(auto, unfolding(crate::specs::Reading::tables_at))]
fn tables_of(alloc: Global, format: Format, bytes: &mut &[u8]) -> Result<Vec<TableLine>, EditError>
    ensures { ReadsChangeField (items_read result) bytes.new.now (tables_at format bytes.old.now) }
{
    let count = u16_of(bytes)?;
    tables_in(alloc, format, count, bytes)
}

#[tactic(auto, unfolding(crate::specs::Reading::change_front))]
fn edit_at(alloc: Global, format: Format, bytes: &mut &[u8]) -> Result<VersionEdit, EditError>
    ensures { ReadsChangeField result bytes.new.now (change_front format bytes.old.now) }
{
    let next_file = next_of(bytes)?;
    let floor = count_of(bytes)?;
    let flushed = count_of(bytes)?;
    let epoch = epoch_of(bytes)?;
    let config = config_of(alloc, bytes)?;
    let logs_gone = files_of(alloc, bytes)?;
    let logs_added = logs_of(alloc, bytes)?;
    let tables_gone = names_of(alloc, bytes)?;
    let tables_added = tables_of(alloc, format, bytes)?;
    Ok(VersionEdit {
        next_file,
        floor,
        flushed,
        epoch,
        config,
        logs_gone,
        logs_added,
        tables_gone,
        tables_added,
    })
}

#[tactic(auto, unfolding(crate::specs::Reading::change_of))]
fn all_of(alloc: Global, format: Format, bytes: &[u8]) -> Result<VersionEdit, EditError>
    ensures { ReadsChange result (change_of format bytes.now) }
{
    let mut rest = bytes;
    let edit = edit_at(alloc, format, &mut rest)?;
    if !rest.is_empty() {
        return Err(EditError::Damaged);
    }
    Ok(edit)
}

/// The edit that is all of the bytes, in this format.
pub fn edit_of(alloc: Global, format: Format, bytes: &[u8]) -> Result<VersionEdit, EditError>
    ensures found { IfOk result (λ edit. IsChangeIn format edit
        × (bytes.now ≡ change_text_in format edit)) }
    ensures bad { IsErrOf result EditError.Damaged → (change : Change) → IsChangeIn format change →
        bytes.now ≡ change_text_in format change → ⊥ }
    ensures is { IfOk result IsChange }
{
    test_decides_config(); // law: the test succeeds exactly for the configurations
    all_of(alloc, format, bytes)
}
