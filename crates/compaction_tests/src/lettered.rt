//! Tables whose entries are spelled in letters, versions that name them, and what an edit says in
//! letters. An entry is three letters: its key, its number, and `+` for a value or `-` for a
//! deletion. A capital letter is the key of the client of its number.
ghost use Rattle.merge_iter.specs.{IsOn};

use crate::cases::is_so;
use crate::entries::{client_key, entry_at};
use crate::items::{is_same, put, row_key_of};
use crate::open_tables::{build, cursor_in};
use byte_fields::{Format, LentKey, Space, StoredKey};
use configurations::NodeId;
use disk::{Disk, MemDisk};
use merge_iter::{Cursor, OwnedEntry};
use record_log::Log;
use sorted_table::{CachedDisk, TableCursor};
use std::alloc::Global;
use std::process::Abort;
use version_edits::{StoreVersion, TableLine, VersionEdit, replay};

/// The next file as a merge begins.
pub const FIRST: u64 = 16;

/// The length of a value.
pub const LEN: usize = 100;

// ---- the tables and the version that names them

fn write(rt: &impl Abort, bytes: &mut Vec<u8>, more: &[u8]) {
    bytes.extend_from_slice(more).expect(rt, "memory");
}

fn spell(rt: &impl Abort, bytes: &mut Vec<u8>, key: &StoredKey) {
    key.spell_into(bytes).expect(rt, "memory");
}

/// The entry of three letters, with a value of so many bytes, 5,000 at most.
fn entry_in(rt: &impl Abort, alloc: Global, letters: &[u8], len: usize) -> OwnedEntry {
    let (key, number, sign) = match letters {
        [key, number, sign] => (*key, *number, *sign),
        _ => (b'?', b'0', b'?'),
    };
    let value = [number; 5_000];
    let value = if sign == b'+' { value.get(..len) } else { None };
    let number = u64::from(number.wrapping_sub(b'0'));
    let key = if key.is_ascii_uppercase() {
        client_key(rt, alloc, u64::from(key))
    } else {
        row_key_of(rt, alloc, &[key])
    };
    entry_at(rt, alloc, key, number, value)
}

pub fn entries_of(rt: &impl Abort, alloc: Global, letters: &[u8], len: usize) -> Vec<OwnedEntry> {
    let mut entries = Vec::new(alloc);
    for three in letters.chunks(3) {
        put(rt, &mut entries, entry_in(rt, alloc, three, len));
    }
    entries
}

/// The lines of tables, as an edit spells them.
#[derive(Drop)]
pub struct Lines {
    bytes: Vec<u8>,
    count: u8,
}

/// In an edit behind next file and floor: 9 batches in tables, epoch 0, the id 1, log 3 from batch
/// 10, and no table given up.
const REST: &[u8] = &[
    0, 0, 0, 0, 0, 0, 0, 9, 0, 0, 0, 0, 1, 0, 1, 0, 0, //
    0, 1, 0, 0, 0, 0, 0, 0, 0, 3, 0, 0, 0, 0, 0, 0, 0, 10, 0, 0,
];

impl Lines {
    pub fn new(alloc: Global) -> Lines {
        Lines {
            bytes: Vec::new(alloc),
            count: 0,
        }
    }

    /// Builds a table of these entries, and adds its line.
    pub fn add<D: Disk>(
        &mut self,
        rt: &impl Abort,
        alloc: Global,
        disk: &mut D,
        place: (u8, u8),
        entries: &[OwnedEntry],
    ) {
        let done = build(rt, alloc, disk, u64::from(place.1), entries);
        self.put(rt, place, done.length, (&done.least, &done.greatest));
    }

    /// Adds the line of a table of this length, with this least and this greatest key.
    pub fn put(
        &mut self,
        rt: &impl Abort,
        (level, file): (u8, u8),
        length: u64,
        (least, greatest): (&StoredKey, &StoredKey),
    ) {
        write(rt, &mut self.bytes, &[level, 0, 0, 0, 0, 0, 0, 0, file]);
        write(rt, &mut self.bytes, &length.to_be_bytes());
        spell(rt, &mut self.bytes, least);
        spell(rt, &mut self.bytes, greatest);
        self.count = self.count.wrapping_add(1);
    }

    /// The version with these lines, this next file and this floor.
    pub fn version(&self, rt: &impl Abort, alloc: Global, next: u8, floor: u8) -> StoreVersion {
        let mut edit = Vec::new(alloc);
        let numbers = [0, 0, 0, 0, 0, 0, 0, next, 0, 0, 0, 0, 0, 0, 0, floor];
        for part in [numbers.as_slice(), REST, &[0, self.count], &self.bytes] {
            write(rt, &mut edit, part);
        }
        version_of(rt, alloc, &edit)
    }
}

/// The version that one edit gives.
fn version_of(rt: &impl Abort, alloc: Global, edit: &[u8]) -> StoreVersion {
    let mut disk = MemDisk::new(alloc);
    let mut log = Log::create(alloc, &mut disk, 1).expect(rt, "a log");
    log.append(&mut disk, edit).expect(rt, "a record");
    let opened = Log::open(alloc, &mut disk, 1, 0).expect(rt, "the log");
    let id = NodeId::new(1).expect(rt, "an id");
    replay(alloc, id, Format::Two, &opened).expect(rt, "a version")
}

// ---- what an edit says, in letters

fn digit_of(number: u64) -> u8 {
    b'0'.wrapping_add((number % 10) as u8)
}

/// The letter that is a key: a small one of a row, and a capital one of a client.
fn letter_of(key: LentKey) -> u8 {
    match (key.space(), key.as_bytes()) {
        (Space::Rows, [letter]) if !letter.is_ascii_uppercase() => *letter,
        (Space::Marks, [0, 0, 0, 0, 0, 0, 0, letter]) if letter.is_ascii_uppercase() => *letter,
        _ => b'?',
    }
}

/// The entry that a cursor stands on.
fn letters_at<C: Cursor>(cursor: &C) -> [u8; 3]
    requires { IsOn (C.position cursor.now) }
{
    let number = digit_of(cursor.number());
    let sign = match cursor.value() {
        None => b'-',
        Some(value) if is_same(value, &[number; LEN]) => b'+',
        Some(_) => b'?',
    };
    [letter_of(cursor.key()), number, sign]
}

/// Writes the entries of a table.
fn write_entries(
    rt: &impl Abort,
    letters: &mut Vec<u8>,
    files: &mut CachedDisk<MemDisk>,
    cursor: &mut TableCursor<MemDisk>,
) {
    cursor.first(files).expect(rt, "the first entry");
    for _ in 0..16u8 {
        if cursor.valid() {
            write(rt, letters, &letters_at(cursor));
            cursor.next(files).expect(rt, "a step");
        }
    }
}

/// Writes the place of a file behind the first, the least and the greatest key by the line, and the
/// entries.
fn write_table(
    rt: &impl Abort,
    alloc: Global,
    letters: &mut Vec<u8>,
    files: &mut CachedDisk<MemDisk>,
    line: &TableLine,
) {
    let len = files.length(line.file).expect(rt, "a file");
    is_so(rt, line.level == 1 && line.length == len, "a line");
    let place = digit_of(line.file.wrapping_sub(FIRST));
    let least = letter_of(line.least.lent());
    let greatest = letter_of(line.greatest.lent());
    write(rt, letters, &[b' ', place, least, greatest, b':']);
    let mut cursor = cursor_in(rt, alloc, files, line.file);
    write_entries(rt, letters, files, &mut cursor);
}

/// What an edit gives up, level and file by level and file, and then the tables that it adds.
pub fn letters_of(
    rt: &impl Abort,
    alloc: Global,
    files: &mut CachedDisk<MemDisk>,
    edit: &VersionEdit,
) -> Vec<u8> {
    let mut letters = Vec::new(alloc);
    for one in &edit.tables_gone {
        let level = digit_of(u64::from(one.level));
        write(rt, &mut letters, &[level, digit_of(one.file)]);
    }
    for line in &edit.tables_added {
        is_so(rt, line.file < edit.next_file, "a file");
        write_table(rt, alloc, &mut letters, files, line);
    }
    letters
}
