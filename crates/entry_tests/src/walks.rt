//! Walks of 2,000 moves over unions of five cursors, and over the view at every number, against
//! plain lists.

use crate::changes::{KeyChange, batch_of, changes_of};
use crate::counts::is_count;
use crate::entries::owned;
use crate::items::put;
use crate::moves::agreeing;
use crate::numbered::Numbered;
use crate::plain::{PlainEntry, add_all, shown_at};
use crate::sequence::Sequence;
use memtable::MemCursor;
use merge_iter::{AtNumber, ListCursor, Merged};
use std::alloc::Global;
use std::process::Abort;

const CHILDREN: usize = 5;

const NUMBERS: u8 = 100;

fn empty_tables(rt: &impl Abort, alloc: Global) -> Vec<Numbered> {
    let mut tables = Vec::new(alloc);
    for _ in 0..CHILDREN {
        put(rt, &mut tables, Numbered::new(alloc));
    }
    tables
}

/// Adds the batch of these changes to the memtable whose turn it is.
fn add(
    rt: &impl Abort,
    alloc: Global,
    tables: &mut [Numbered],
    number: u64,
    changes: &[KeyChange],
) {
    if let Some(table) = tables.get_mut(number as usize % CHILDREN) {
        table.add(rt, number, &batch_of(rt, alloc, changes));
    }
}

/// All entries of batches with one to three changes each, and five memtables of them.
fn entries_and_tables(rt: &impl Abort, alloc: Global) -> (Vec<PlainEntry>, Vec<Numbered>) {
    let (mut sequence, mut entries) = (Sequence::new(7), Vec::new(alloc));
    let mut tables = empty_tables(rt, alloc);
    for number in 1..=u64::from(NUMBERS) {
        let count = sequence.next() % 3 + 1;
        let changes = changes_of(rt, alloc, &mut sequence, count);
        add_all(rt, &mut entries, number, &changes);
        add(rt, alloc, &mut tables, number, &changes);
    }
    (entries, tables)
}

/// The union of the memtables.
fn union_of<'a>(rt: &impl Abort, alloc: Global, tables: &'a [Numbered]) -> Merged<MemCursor<'a>> {
    let mut children = Vec::new(alloc);
    for table in tables {
        let cursor = table.table().cursor().expect(rt, "memory");
        put(rt, &mut children, cursor);
    }
    Merged::new(children)
}

/// A list with every fifth entry.
fn list_of(rt: &impl Abort, alloc: Global, entries: &[PlainEntry], which: usize) -> ListCursor {
    let mut list = Vec::new(alloc);
    for (i, entry) in entries.iter().enumerate() {
        if i % CHILDREN == which {
            put(rt, &mut list, owned(rt, alloc, *entry));
        }
    }
    ListCursor::new(list)
}

/// The union of five such lists.
fn union_of_lists(rt: &impl Abort, alloc: Global, entries: &[PlainEntry]) -> Merged<ListCursor> {
    let mut children = Vec::new(alloc);
    for which in 0..CHILDREN {
        put(rt, &mut children, list_of(rt, alloc, entries, which));
    }
    Merged::new(children)
}

#[test]
fn a_union_of_five_memtables(rt: HostRuntime) {
    let (entries, tables) = entries_and_tables(&rt, rt.alloc());
    let mut union = union_of(&rt, rt.alloc(), &tables);
    let count = agreeing(&rt, &mut union, &mut (), &entries, NUMBERS);
    is_count(&rt, count, 2_000);
}

#[test]
fn a_union_of_five_lists(rt: HostRuntime) {
    let entries = entries_and_tables(&rt, rt.alloc()).0;
    let mut union = union_of_lists(&rt, rt.alloc(), &entries);
    let count = agreeing(&rt, &mut union, &mut (), &entries, NUMBERS);
    is_count(&rt, count, 2_000);
}

/// How many of the moves over the view at a number led where they lead in the plain list.
fn agreeing_at(
    rt: &impl Abort,
    alloc: Global,
    tables: &[Numbered],
    entries: &[PlainEntry],
    at: u64,
) -> usize {
    let shown = shown_at(rt, alloc, entries, at);
    let mut cursor = AtNumber::new(alloc, union_of(rt, alloc, tables), at);
    agreeing(rt, &mut cursor, &mut (), &shown, NUMBERS)
}

#[test]
fn the_view_at_every_number(rt: HostRuntime) {
    let (entries, tables) = entries_and_tables(&rt, rt.alloc());
    let mut count = 0usize;
    for at in 0..=u64::from(NUMBERS) {
        count = count.wrapping_add(agreeing_at(&rt, rt.alloc(), &tables, &entries, at));
    }
    is_count(&rt, count, 202_000);
}
