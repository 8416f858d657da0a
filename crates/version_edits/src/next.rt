// The version after an edit, where the version before it may take it.
ghost use Rattle.std.specs.Prelude.{◌≡◌, ◌↔◌, ◌<◌, IfOk, IsErrOf, IsTrue};
ghost use Rattle.std.specs.Prelude.{MatchOption, option_copied};
ghost use Rattle.std.specs.List.{list_all};
ghost use Rattle.version_edits.specs.Versions.{AreLawful, IsFit, IsNew};
ghost use Rattle.version_edits.specs.Versions.{IsThere, NumbersRise, changed};
ghost use Rattle.version_edits.specs.Versions.{is_new_file, keeps_ids, names_log};
ghost use Rattle.version_edits.specs.Versions.{names_table};
ghost use Rattle.version_edits.specs.Versions.{version_in};
ghost use Rattle.version_edits.specs.Edits.{IsChange};
ghost use Rattle.version_edits.specs.Lawful.{AreLines};

use crate::changed::lines_after;
use crate::fits::{
    all_apart, are_once, files_of, names_file, names_log, names_table, removed_files,
};
use crate::{EditError, LogLine, MAX_LINES, StoreVersion, TableLine, TableName, VersionEdit};
use configurations::{Config, NodeId};
use std::alloc::{AllocError, Global};

// The logs of a version, and none before the first edit.
fn logs_of(old: Option<&StoreVersion>) -> &[LogLine]
    ensures logs { result.now ≡ (version_in (option_copied old.entry)).logs }
    ensures lines { AreLines (version_in (option_copied old.entry)) }
{
    match old {
        Some(version) => &version.logs,
        None => &[],
    }
}

fn tables_of(old: Option<&StoreVersion>) -> &[TableLine]
    ensures { result.now ≡ (version_in (option_copied old.entry)).tables }
{
    match old {
        Some(version) => &version.tables,
        None => &[],
    }
}

fn numbers_rise(old: Option<&StoreVersion>, edit: &VersionEdit) -> bool
    ensures { IsTrue result ↔ NumbersRise (version_in (option_copied old.entry)) edit.now }
{
    let Some(version) = old else {
        return true;
    };
    version.next_file <= edit.next_file
        && version.floor <= edit.floor
        && version.flushed <= edit.flushed
        && version.epoch <= edit.epoch
}

fn keeps_ids(old: Option<&StoreVersion>, config: &Config) -> bool
    ensures { result ≡ keeps_ids (version_in (option_copied old.entry)).ids config.now }
{
    match old {
        Some(version) => config.is_part_of(&version.config),
        None => true,
    }
}

fn logs_there(logs: &[LogLine], gone: &[u64]) -> bool
    ensures { result ≡ list_all (λ file. names_log logs.now file) gone.now }
{
    gone.iter().all(|file| names_log(logs, *file))
}

fn tables_there(tables: &[TableLine], gone: &[TableName]) -> bool
    ensures { result ≡ list_all (λ one. names_table tables.now one) gone.now }
{
    gone.iter().all(|one| names_table(tables, one))
}

fn is_there(
    alloc: Global,
    old: Option<&StoreVersion>,
    edit: &VersionEdit,
) -> Result<bool, AllocError>
    ensures { IfOk result
        (λ is. IsTrue is ↔ IsThere (version_in (option_copied old.entry)) edit.now) }
{
    let files = removed_files(alloc, &edit.tables_gone)?;
    Ok(
        logs_there(logs_of(old), &edit.logs_gone)
            && are_once(&edit.logs_gone)
            && tables_there(tables_of(old), &edit.tables_gone)
            && are_once(&files),
    )
}

fn is_new_file(old: Option<&StoreVersion>, edit: &VersionEdit, file: u64) -> bool
    ensures { result ≡ is_new_file (version_in (option_copied old.entry)) edit.now file }
{
    3 <= file
        && file < edit.next_file
        && !names_log(logs_of(old), file)
        && !names_file(tables_of(old), file)
}

fn logs_are_new(old: Option<&StoreVersion>, edit: &VersionEdit) -> bool
    ensures { result ≡ list_all
        (λ line. is_new_file (version_in (option_copied old.entry)) edit.now line.file)
        edit.now.logs_added }
{
    edit.logs_added
        .iter()
        .all(|line| is_new_file(old, edit, line.file))
}

fn tables_are_new(old: Option<&StoreVersion>, edit: &VersionEdit) -> bool
    ensures { result ≡ list_all
        (λ line. is_new_file (version_in (option_copied old.entry)) edit.now line.file)
        edit.now.tables_added }
{
    edit.tables_added
        .iter()
        .all(|line| is_new_file(old, edit, line.file))
}

fn are_lawful(alloc: Global, logs: &[LogLine], tables: &[TableLine]) -> Result<bool, AllocError>
    ensures { IfOk result (λ is. IsTrue is ↔ AreLawful logs.now tables.now) }
{
    let files = files_of(alloc, logs, tables)?;
    Ok(
        0 < logs.len()
            && logs.len() <= MAX_LINES
            && tables.len() <= MAX_LINES
            && are_once(&files)
            && all_apart(tables),
    )
}

// Whether the old version may take the edit, but for the lines that it gives.
fn may_apply(
    alloc: Global,
    old: Option<&StoreVersion>,
    edit: &VersionEdit,
) -> Result<bool, AllocError>
    ensures { IfOk result (λ is. IsTrue is
        ↔ (NumbersRise (version_in (option_copied old.entry)) edit.now
        × IsTrue (keeps_ids (version_in (option_copied old.entry)).ids edit.now.ids)
        × IsThere (version_in (option_copied old.entry)) edit.now
        × IsNew (version_in (option_copied old.entry)) edit.now)) }
{
    Ok(
        numbers_rise(old, edit)
            && keeps_ids(old, &edit.config)
            && is_there(alloc, old, edit)?
            && logs_are_new(old, edit)
            && tables_are_new(old, edit),
    )
}

// The logs and the tables of the version after the edit, if the old version may take it.
fn lines_if_fit(
    alloc: Global,
    old: Option<&StoreVersion>,
    edit: &VersionEdit,
) -> Result<Option<(Vec<LogLine>, Vec<TableLine>)>, AllocError>
    ensures found { IfOk result (λ lines. MatchOption lines
        (IsFit (version_in (option_copied old.entry)) edit.now → ⊥)
        (λ x. IsFit (version_in (option_copied old.entry)) edit.now
        × (x.0.items ≡ (changed (version_in (option_copied old.entry)) edit.now).logs)
        × (x.1.items ≡ (changed (version_in (option_copied old.entry)) edit.now).tables))) }
    ensures lines { AreLines (version_in (option_copied old.entry)) }
{
    let old_logs = logs_of(old);
    if !may_apply(alloc, old, edit)? {
        return Ok(None);
    }
    let (logs, tables) = lines_after(alloc, old_logs, tables_of(old), edit)?;
    if !are_lawful(alloc, &logs, &tables)? {
        return Ok(None);
    }
    Ok(Some((logs, tables)))
}

/// Whether the version may take the edit.
pub fn is_fit(alloc: Global, version: &StoreVersion, edit: &VersionEdit) -> Result<bool, AllocError>
    ensures { IfOk result (λ is. IsTrue is ↔ IsFit version.now.version edit.now) }
{
    Ok(lines_if_fit(alloc, Some(version), edit)?.is_some())
}

/// The version of the node after one edit more, if there is one.
pub fn next_version(
    alloc: Global,
    id: NodeId,
    old: Option<&StoreVersion>,
    edit: &VersionEdit,
) -> Result<StoreVersion, EditError>
    requires { IsChange edit.now }
    ensures found { IfOk result (λ version. IsFit (version_in (option_copied old.entry)) edit.now
        × (version ≡ record {
          id = id;
          version = changed (version_in (option_copied old.entry)) edit.now;
        })) }
    ensures bad { IsErrOf result EditError.Damaged →
        IsFit (version_in (option_copied old.entry)) edit.now → ⊥ }
{
    let Some((logs, tables)) = lines_if_fit(alloc, old, edit)? else {
        return Err(EditError::Damaged);
    };
    Ok(StoreVersion {
        id,
        next_file: edit.next_file,
        floor: edit.floor,
        flushed: edit.flushed,
        epoch: edit.epoch,
        config: edit.config.clone()?,
        logs,
        tables,
    })
}
