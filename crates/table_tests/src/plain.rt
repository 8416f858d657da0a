//! Entries as a plain sorted list, and a walk over it: what cursors are compared with.

use crate::changes::KeyChange;
use crate::items::put;
use crate::sequence::Sequence;
use std::alloc::Global;
use std::process::Abort;

/// An entry: keys rise, and in one key numbers fall.
#[derive(Clone, Copy)]
pub struct PlainEntry {
    pub key: u16,
    pub number: u64,
    pub value: Option<u16>,
}

impl PlainEntry {
    /// Whether the entry comes before this key and number.
    fn is_before(self, key: u16, number: u64) -> bool {
        self.key < key || self.key == key && self.number > number
    }
}

/// The place of the first entry that does not come before this key and number.
fn place_of(entries: &[PlainEntry], key: u16, number: u64) -> usize {
    for (i, entry) in entries.iter().enumerate() {
        if !entry.is_before(key, number) {
            return i;
        }
    }
    entries.len()
}

/// Adds an entry in its place, or puts it in place of the one there.
fn add(rt: &impl Abort, entries: &mut Vec<PlainEntry>, entry: PlainEntry) {
    let place = place_of(entries, entry.key, entry.number);
    if place >= entries.len() {
        put(rt, entries, entry);
    } else if entries[place].key == entry.key && entries[place].number == entry.number {
        entries[place] = entry;
    } else {
        entries.insert(place, entry).expect(rt, "memory");
    }
}

/// Adds the entries of a numbered batch: the last change of each key.
pub fn add_all(rt: &impl Abort, entries: &mut Vec<PlainEntry>, number: u64, changes: &[KeyChange]) {
    for change in changes {
        let KeyChange { key, value } = *change;
        add(rt, entries, PlainEntry { key, number, value });
    }
}

/// Of each key the newest entry with at most this number, unless it is a deletion.
pub fn shown_at(
    rt: &impl Abort,
    alloc: Global,
    entries: &[PlainEntry],
    at: u64,
) -> Vec<PlainEntry> {
    let mut shown = Vec::new(alloc);
    let mut last = None;
    for entry in entries {
        if entry.number <= at && last != Some(entry.key) {
            last = Some(entry.key);
            if entry.value.is_some() {
                put(rt, &mut shown, *entry);
            }
        }
    }
    shown
}

/// One move of a cursor.
#[derive(Clone, Copy)]
pub enum Move {
    Next,
    Prev,
    First,
    Last,
    Seek(u16, u64),
}

/// The next of a fixed list of moves, for a walk that stands on an entry or on none.
pub fn move_of(sequence: &mut Sequence, is_on: bool, numbers: u8) -> Move {
    match sequence.next() % 16 {
        0 => Move::First,
        1 => Move::Last,
        2..5 => Move::Seek(
            sequence.next() % 64,
            u64::from(sequence.next() % (u16::from(numbers) + 2)),
        ),
        5..11 => { if is_on { Move::Next } else { Move::First } }
        _ => { if is_on { Move::Prev } else { Move::Last } }
    }
}

/// A place in a plain list.
#[derive(Drop)]
pub struct PlainWalk<'a> {
    entries: &'a [PlainEntry],
    at: Option<usize>,
}

impl<'a> PlainWalk<'a> {
    pub fn new(entries: &'a [PlainEntry]) -> PlainWalk<'a> {
        PlainWalk { entries, at: None }
    }

    /// The entry that it stands on.
    pub fn entry(&self) -> Option<PlainEntry> {
        match self.at {
            Some(at) => self.entries.get(at).copied(),
            None => None,
        }
    }

    pub fn apply(&mut self, step: Move) {
        self.at = match (step, self.at) {
            (Move::First, _) => Some(0),
            (Move::Last, _) => self.entries.len().checked_sub(1),
            (Move::Seek(key, number), _) => Some(place_of(self.entries, key, number)),
            (Move::Next, Some(at)) => at.checked_add(1),
            (Move::Prev, Some(at)) => at.checked_sub(1),
            (_, None) => None,
        };
    }
}
