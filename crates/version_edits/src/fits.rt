// Which edits a version may take.
ghost use Rattle.std.specs.Prelude.{◌≡◌, ◌&&◌, ◌==◌, ◌<◌, map};
ghost use Rattle.std.specs.Prelude.{IfOk};
ghost use Rattle.std.specs.List.{list_all};
ghost use Rattle.version_edits.specs.Versions.{are_once, names_log};
ghost use Rattle.version_edits.specs.Versions.{names_table, names_file, files_of};
ghost use Rattle.version_edits.specs.Versions.{are_apart, all_apart};

use crate::{LogLine, TableLine, TableName};
use std::alloc::{AllocError, Global};

// Whether no number stands twice.
pub fn are_once(numbers: &[u64]) -> bool
    ensures { result ≡ are_once numbers.now }
{
    let mut rest = numbers;
    while let [first, later @ ..] = rest {
        if later.contains(first) {
            return false;
        }
        rest = later;
    }
    true
}

/// Whether one of the logs has the file.
pub fn names_log(logs: &[LogLine], file: u64) -> bool
    ensures { result ≡ names_log logs.now file }
{
    logs.iter().any(|line| line.file == file)
}

// Whether one of the tables has this level and this file.
pub fn names_table(tables: &[TableLine], one: &TableName) -> bool
    ensures { result ≡ names_table tables.now one.now }
{
    tables
        .iter()
        .any(|line| line.level == one.level && line.file == one.file)
}

/// Whether one of the tables has the file.
pub fn names_file(tables: &[TableLine], file: u64) -> bool
    ensures { result ≡ names_file tables.now file }
{
    tables.iter().any(|line| line.file == file)
}

/// The files of logs and tables, in order.
pub fn files_of(
    alloc: Global,
    logs: &[LogLine],
    tables: &[TableLine],
) -> Result<Vec<u64>, AllocError>
    ensures { IfOk result (λ files. files.items ≡ files_of logs.now tables.now) }
{
    let mut files = Vec::new(alloc);
    for line in logs {
        files.push(line.file)?;
    }
    for line in tables {
        files.push(line.file)?;
    }
    Ok(files)
}

/// The files of tables that are given up.
pub fn removed_files(alloc: Global, gone: &[TableName]) -> Result<Vec<u64>, AllocError>
    ensures { IfOk result (λ files. files.items ≡ map (λ one. one.file) gone.now) }
{
    let mut files = Vec::new(alloc);
    for one in gone {
        files.push(one.file)?;
    }
    Ok(files)
}

fn are_apart(a: &TableLine, b: &TableLine) -> bool
    ensures { result ≡ are_apart a.now b.now }
{
    a.level != b.level || a.level == 0 || a.greatest < b.least || b.greatest < a.least
}

// Whether the range is apart from each of the others.
fn is_apart(line: &TableLine, others: &[TableLine]) -> bool
    ensures { result ≡ list_all (λ other. are_apart line.now other) others.now }
{
    others.iter().all(|other| are_apart(line, other))
}

/// Whether no two ranges of a level below level 0 share a key.
pub fn all_apart(tables: &[TableLine]) -> bool
    ensures { result ≡ all_apart tables.now }
{
    let mut rest = tables;
    while let [first, later @ ..] = rest {
        if !is_apart(first, later) {
            return false;
        }
        rest = later;
    }
    true
}
