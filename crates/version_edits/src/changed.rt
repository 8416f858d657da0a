// The version after an edit.
ghost use Rattle.std.specs.Prelude.{◌≡◌, ◌≤◌, ◌&&◌, ◌==◌, [], ◌∷◌, ◌++◌, length, OnOk, IfOk};
ghost use Rattle.std.specs.List.{fold, insert, list_any};
ghost use Rattle.version_edits.specs.Versions.{IsFit, with_log, with_table, table_is_before};
ghost use Rattle.version_edits.specs.Versions.{logs_left, tables_left};
ghost use Rattle.version_edits.specs.Edits.{IsChange};
ghost use Rattle.version_edits.specs.Versions.{node_version_after};

use crate::{LogLine, StoreVersion, TableLine, TableName, VersionEdit};
use std::alloc::{AllocError, Global};

// The logs but those that are given up.
fn logs_left(alloc: Global, gone: &[u64], logs: &[LogLine]) -> Result<Vec<LogLine>, AllocError>
    ensures { IfOk result (λ left. left.items ≡ logs_left gone.now logs.now) }
{
    let mut left = Vec::new(alloc);
    for line in logs {
        if !gone.contains(&line.file) {
            left.push(*line)?;
        }
    }
    Ok(left)
}

// Where one more log is put.
#[tactic(auto, using(crate::proofs::Placed::placed_at))]
fn log_place(logs: &[LogLine], line: LogLine) -> usize
    ensures bound { result ≤ length logs.now }
    ensures place { with_log logs.now line ≡ insert logs.now result line }
{
    let mut at = 0;
    while at < logs.len() {
        if line.first < logs[at].first {
            return at;
        }
        at += 1;
    }
    at
}

fn add_logs(logs: &mut Vec<LogLine>, added: &[LogLine]) -> Result<(), AllocError>
    ensures { OnOk result (logs.new.items ≡ fold with_log logs.old.items added.now) }
{
    for line in added {
        let at = log_place(logs, *line);
        logs.insert(at, *line)?;
    }
    Ok(())
}

/// Whether the table of a line is one of those that are given up.
pub fn is_removed(gone: &[TableName], line: &TableLine) -> bool
    ensures { result ≡ list_any (λ one. one.level == line.now.level && one.file == line.now.file)
        gone.now }
{
    for one in gone {
        if one.level == line.level && one.file == line.file {
            return true;
        }
    }
    false
}

// Puts a table behind the others, if it is not given up.
fn keep_table(
    left: &mut Vec<TableLine>,
    gone: &[TableName],
    line: &TableLine,
) -> Result<(), AllocError>
    ensures { OnOk result
        (left.new.items ≡ left.old.items ++ tables_left gone.now (line.now ∷ [])) }
{
    if is_removed(gone, line) {
        return Ok(());
    }
    let copy = line.clone()?;
    left.push(copy)?;
    Ok(())
}

// The tables but those that are given up.
fn tables_left(
    alloc: Global,
    gone: &[TableName],
    tables: &[TableLine],
) -> Result<Vec<TableLine>, AllocError>
    ensures { IfOk result (λ left. left.items ≡ tables_left gone.now tables.now) }
{
    let mut left = Vec::new(alloc);
    for line in tables {
        keep_table(&mut left, gone, line)?;
    }
    Ok(left)
}

/// Whether the first table stands before the second one: by level, in level 0 by file, and in a
/// deeper one by key.
pub fn table_is_before(a: &TableLine, b: &TableLine) -> bool
    ensures { result ≡ table_is_before a.now b.now }
{
    a.level < b.level
        || (a.level == b.level
            && (if a.level == 0 {
                a.file < b.file
            } else {
                a.least < b.least
            }))
}

// Where one more table is put.
#[tactic(auto, using(crate::proofs::Placed::placed_at))]
fn table_place(tables: &[TableLine], line: &TableLine) -> usize
    ensures bound { result ≤ length tables.now }
    ensures place { with_table tables.now line.now ≡ insert tables.now result line.now }
{
    let mut at = 0;
    while at < tables.len() {
        if table_is_before(line, &tables[at]) {
            return at;
        }
        at += 1;
    }
    at
}

fn add_tables(tables: &mut Vec<TableLine>, added: &[TableLine]) -> Result<(), AllocError>
    ensures { OnOk result (tables.new.items ≡ fold with_table tables.old.items added.now) }
{
    for line in added {
        let at = table_place(tables, line);
        let copy = line.clone()?;
        tables.insert(at, copy)?;
    }
    Ok(())
}

/// The logs and tables but those that an edit gives up, and those that it adds.
pub fn lines_after(
    alloc: Global,
    logs: &[LogLine],
    tables: &[TableLine],
    edit: &VersionEdit,
) -> Result<(Vec<LogLine>, Vec<TableLine>), AllocError>
    ensures { IfOk result (λ x. (x.0.items ≡
        fold with_log (logs_left edit.now.logs_gone logs.now) edit.now.logs_added)
        × (x.1.items ≡
        fold with_table (tables_left edit.now.tables_gone tables.now) edit.now.tables_added)) }
{
    let mut logs = logs_left(alloc, &edit.logs_gone, logs)?;
    add_logs(&mut logs, &edit.logs_added)?;
    let mut tables = tables_left(alloc, &edit.tables_gone, tables)?;
    add_tables(&mut tables, &edit.tables_added)?;
    Ok((logs, tables))
}

/// The version after an edit that it may take.
pub fn version_after(
    alloc: Global,
    version: &StoreVersion,
    edit: &VersionEdit,
) -> Result<StoreVersion, AllocError>
    requires { IsFit version.now.version edit.now × IsChange edit.now }
    ensures { IfOk result (λ new. new ≡ node_version_after version.now edit.now) }
{
    let config = edit.config.clone()?;
    let (logs, tables) = lines_after(alloc, &version.logs, &version.tables, edit)?;
    Ok(StoreVersion {
        id: version.id,
        next_file: edit.next_file,
        floor: edit.floor,
        flushed: edit.flushed,
        epoch: edit.epoch,
        config,
        logs,
        tables,
    })
}
