//! Which merge is due.
ghost use Rattle.std.specs.Prelude.{◌≡◌, ◌≤◌, IfSome, nat_lt, option_map};
ghost use Rattle.compaction.specs.Picks.{begins_behind, due_level, first_behind, level_bytes};
ghost use Rattle.compaction.specs.Picks.{count_of_level, picked, table_in_turn};
ghost use Rattle.compaction.specs.Turns.{turn_key};

use crate::plan::Plan;
use crate::turn::Turn;
use byte_fields::StoredKey;
use kv_types::Limits;
use version_edits::{StoreVersion, TableLine};

// The number of tables of level 0.
fn flushed_count(tables: &[TableLine]) -> usize
    ensures { result ≡ count_of_level 0 tables.now }
{
    tables.iter().filter(|line| line.level == 0).count()
}

// Whether the files of a level have more bytes than this.
fn is_larger(tables: &[TableLine], level: u8, limit: u64) -> bool
    ensures { result ≡ nat_lt limit (level_bytes level tables.now) }
{
    let mut room = limit;
    let mut rest = tables;
    while let [line, later @ ..] = rest {
        if line.level == level {
            if line.length > room {
                return true;
            }
            room -= line.length;
        }
        rest = later;
    }
    false
}

// Whether a table begins behind a key, if there is one.
fn begins_behind(after: Option<&StoredKey>, line: &TableLine) -> bool
    ensures { result ≡ begins_behind (option_map (λ key. key.now) after.entry) line.now }
{
    match after {
        Some(key) => *key < line.least,
        None => true,
    }
}

// The file of the first table of the level that begins behind the key.
fn first_behind(tables: &[TableLine], level: u8, after: Option<&StoredKey>) -> Option<u64>
    ensures { result ≡ option_map (λ line. line.file)
        (first_behind level (option_map (λ key. key.now) after.entry) tables.now) }
{
    let mut rest = tables;
    while let [line, later @ ..] = rest {
        if line.level == level && begins_behind(after, line) {
            return Some(line.file);
        }
        rest = later;
    }
    None
}

// The file of the table whose turn it is in the level.
fn file_in_turn(tables: &[TableLine], level: u8, after: Option<&StoredKey>) -> Option<u64>
    ensures { result ≡ option_map (λ line. line.file)
        (table_in_turn level (option_map (λ key. key.now) after.entry) tables.now) }
{
    match first_behind(tables, level, after) {
        Some(file) => Some(file),
        None => first_behind(tables, level, None),
    }
}

// The least level that is over its limit.
fn due_level(tables: &[TableLine], limits: &Limits) -> Option<u8>
    ensures { result ≡ due_level limits.now.l0 limits.now.level tables.now }
{
    let base = limits.level;
    if flushed_count(tables) as u64 > limits.l0 {
        Some(0)
    } else if is_larger(tables, 1, base) {
        Some(1)
    } else if is_larger(tables, 2, 10 * base) {
        Some(2)
    } else if is_larger(tables, 3, 100 * base) {
        Some(3)
    } else if is_larger(tables, 4, 1000 * base) {
        Some(4)
    } else if is_larger(tables, 5, 10000 * base) {
        Some(5)
    } else {
        None
    }
}

/// The merge that is due. Level 0 is merged if it has more tables than its limit, and else the
/// least level from 1 to 5 whose files have more bytes than its limit. Of such a level the table is
/// merged whose turn it is: the first that begins behind the last one merged, and if there is none,
/// the first. It takes no memory.
pub fn pick(version: &StoreVersion, limits: &Limits, turn: &Turn) -> Option<Plan>
    ensures due { result ≡ picked limits.now.l0 limits.now.level (turn_key turn.now)
        version.now.version }
    ensures level { IfSome result (λ plan. plan.level ≤ 5) }
{
    let below = version.next_file;
    let level = due_level(&version.tables, limits)?;
    if level == 0 {
        return Some(Plan {
            level,
            file: None,
            below,
        });
    }
    let file = file_in_turn(&version.tables, level, turn.after(level))?;
    Some(Plan {
        level,
        file: Some(file),
        below,
    })
}
