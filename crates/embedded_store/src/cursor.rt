//! A cursor over the map of a store at a number.
ghost use Rattle.std.specs.Prelude.{◌≡◌, ◌↔◌, List, None, IfOk, IsTrue, MatchResult, true, false};
ghost use Rattle.std.specs.Prelude.{IfSome, IsOk, [], option_copied};
ghost use Rattle.kv_types.specs.{BatchContent};
ghost use Rattle.engine.specs.EngineError.TheVariants.{Memory};
ghost use Rattle.embedded_store.specs.Cursors.{CursorIsOf, FindsIn, FindsRow, IsAnyRow};
ghost use Rattle.embedded_store.specs.Cursors.{IsAtOrBehind, IsOnPage, MovesRowCursor, NeedsNoRead};
ghost use Rattle.embedded_store.specs.Cursors.{StepsIn, StepsUnread, StepsWhereRead};
ghost use Rattle.embedded_store.specs.Cursors.{cursor_number, cursor_row};
ghost use Rattle.embedded_store.specs.Cursors.{place_in_span, span_before, span_beside, span_from};
ghost use Rattle.embedded_store.specs.Stores.{MeetsDamageIn, ShowsBatches};

use crate::EmbeddedStore;
use disk::Disk;
use engine::EngineError;
use kv_types::laws::{maps_agree, pages_agree};
use kv_types::{Key, Number, Page, Range, Row};
use std::alloc::Global;
use std::mem;

/// How many rows a cursor reads at once.
const ROWS: u32 = 64;

/// A place in the map of a store at a number: on a row, or on none. It has some rows at hand, and
/// reads others from the store, which each move is lent. A refused move leaves it where it stood;
/// it is `Damaged` only where a table is damaged whose keys meet the range that it reads.
#[derive(Debug, Drop)]
pub struct RowCursor {
    at: Number,
    page: Page,
    place: usize,
    is_backward: bool,
}

// The range of the rows from a key on.
fn rows_from(key: Key) -> Result<Range, EngineError>
    ensures { MatchResult result (λ range. range ≡ span_from key) (λ e. e ≡ Memory) }
{
    match Range::new(key, None, false, ROWS) {
        Ok(range) => Ok(range),
        Err(_) => Err(EngineError::Memory),
    }
}

// The range of the rows before a key, or of all, from the last one back.
fn rows_before(alloc: Global, key: Option<Key>) -> Result<Range, EngineError>
    ensures { MatchResult result (λ range. range ≡ span_before key) (λ e. e ≡ Memory) }
{
    let Ok(from) = Key::new(Vec::new(alloc)) else {
        return Err(EngineError::Memory);
    };
    match Range::new(from, key, true, ROWS) {
        Ok(range) => Ok(range),
        Err(_) => Err(EngineError::Memory),
    }
}

// The range of the rows behind this one in the direction.
fn rows_beside(alloc: Global, row: &Row, backward: bool) -> Result<Range, EngineError>
    ensures { MatchResult result (λ range. range ≡ span_beside backward row.now)
        (λ e. e ≡ Memory) }
{
    let Ok(key) = row.to_key(alloc) else {
        return Err(EngineError::Memory);
    };
    if backward {
        rows_before(alloc, Some(key))
    } else {
        rows_from(key)
    }
}

// Where the row behind stands in the walk of that range.
fn place_beside(backward: bool) -> usize
    ensures { result ≡ place_in_span backward }
{
    if backward { 0 } else { 1 }
}

// Whether two directions are the same one.
fn are_alike(backward: bool, other: bool) -> bool
    ensures { IsTrue result ↔ backward ≡ other }
{
    if backward { other } else { !other }
}

impl RowCursor {
    // The cursor at a number, on no row.
    pub(crate) fn new(alloc: Global, at: Number) -> RowCursor
        ensures number { cursor_number result ≡ at }
        ensures none { cursor_row result ≡ None }
        ensures sound { (list : List BatchContent) → CursorIsOf list result }
    {
        RowCursor {
            at,
            page: Page::new(Vec::new(alloc), false),
            place: 0,
            is_backward: false,
        }
    }

    /// The number of the map that it goes through.
    pub fn number(&self) -> Number
        ensures { result ≡ cursor_number self.now }
    {
        self.at
    }

    /// The row on which it stands, or none.
    pub fn row(&self) -> Option<&Row>
        ensures { option_copied result ≡ cursor_row self.now }
    {
        self.page.rows().get(self.place)
    }

    // Reads the rows of a range, and stands on the one at this place of their walk.
    fn read<D: Disk + Drop>(
        &mut self,
        alloc: Global,
        store: &mut EmbeddedStore<D>,
        range: &Range,
        place: usize,
    ) -> Result<(), EngineError>
        ensures moves { MovesRowCursor D.Disk store.old store.new self.old self.new ⊥ result }
        ensures finds { (list : List BatchContent) → ShowsBatches D.Disk store.old list →
            IfOk result (λ _. IsOnPage list range.now place self.old self.new) }
        ensures damaged { MeetsDamageIn D.Disk store.old range.now result }
    {
        pages_agree(); // law: a page has the rows of its range
        maps_agree(); // law: a map's rows were put by a batch
        match store.rows(alloc, range, Some(self.at)) {
            Ok(page) => {
                drop(mem::replace(&mut self.page, page));
                self.place = place;
                self.is_backward = range.is_backward();
                Ok(())
            }
            Err(e) => Err(e),
        }
    }

    /// Moves to the first row whose key is this one or behind it, or to none.
    pub fn seek<D: Disk + Drop>(
        &mut self,
        alloc: Global,
        store: &mut EmbeddedStore<D>,
        key: &Key,
    ) -> Result<(), EngineError>
        ensures moves { MovesRowCursor D.Disk store.old store.new self.old self.new ⊥ result }
        ensures finds { FindsIn D.Disk store.old self.old self.new
            (λ map. FindsRow false map (IsAtOrBehind key.now)) result }
        ensures damaged { MeetsDamageIn D.Disk store.old (span_from key.now) result }
    {
        let Ok(key) = key.clone() else {
            return Err(EngineError::Memory);
        };
        match rows_from(key) {
            Ok(range) => self.read(alloc, store, &range, 0),
            Err(e) => Err(e),
        }
    }

    /// Moves to the first row, or to none where the map has none.
    pub fn first<D: Disk + Drop>(
        &mut self,
        alloc: Global,
        store: &mut EmbeddedStore<D>,
    ) -> Result<(), EngineError>
        ensures moves { MovesRowCursor D.Disk store.old store.new self.old self.new ⊥ result }
        ensures finds { FindsIn D.Disk store.old self.old self.new
            (λ map. FindsRow false map IsAnyRow) result }
        ensures damaged { MeetsDamageIn D.Disk store.old (span_from []) result }
    {
        match Key::new(Vec::new(alloc)) {
            Ok(key) => self.seek(alloc, store, &key),
            Err(_) => Err(EngineError::Memory),
        }
    }

    /// Moves to the last row, or to none where the map has none.
    pub fn last<D: Disk + Drop>(
        &mut self,
        alloc: Global,
        store: &mut EmbeddedStore<D>,
    ) -> Result<(), EngineError>
        ensures moves { MovesRowCursor D.Disk store.old store.new self.old self.new ⊥ result }
        ensures finds { FindsIn D.Disk store.old self.old self.new
            (λ map. FindsRow true map IsAnyRow) result }
        ensures damaged { MeetsDamageIn D.Disk store.old (span_before None) result }
    {
        match rows_before(alloc, None) {
            Ok(range) => self.read(alloc, store, &range, 0),
            Err(e) => Err(e),
        }
    }

    // Steps to a row that is at hand, and answers whether there is one.
    fn steps(&mut self, backward: bool) -> bool
        ensures { StepsWhereRead backward self.old self.new result }
    {
        let count = self.page.rows().len();
        if self.place >= count {
            return false;
        }
        if !are_alike(backward, self.is_backward) {
            if self.place == 0 {
                return false;
            }
            self.place -= 1;
            return true;
        }
        if count - self.place < 2 {
            return false;
        }
        self.place += 1;
        true
    }

    // Steps to the row behind the one on which it stands, in this direction.
    fn step<D: Disk + Drop>(
        &mut self,
        alloc: Global,
        store: &mut EmbeddedStore<D>,
        backward: bool,
    ) -> Result<(), EngineError>
        ensures moves { MovesRowCursor D.Disk store.old store.new self.old self.new
            (StepsUnread backward self.old self.new) result }
        ensures finds { StepsIn D.Disk store.old self.old self.new backward result }
        ensures unread { NeedsNoRead backward self.old →
            (store.new ≡ store.old) × IsOk result }
        ensures damaged { IfSome (cursor_row self.old) (λ row.
            MeetsDamageIn D.Disk store.old (span_beside backward row) result) }
    {
        if self.steps(backward) {
            return Ok(());
        }
        let Some(row) = self.row() else {
            return Ok(());
        };
        match rows_beside(alloc, row, backward) {
            Ok(range) => self.read(alloc, store, &range, place_beside(backward)),
            Err(e) => Err(e),
        }
    }

    /// Steps to the next row, or to none behind the last one. On no row it stays so. Where it needs
    /// no read, it succeeds over an ended store too.
    pub fn next<D: Disk + Drop>(
        &mut self,
        alloc: Global,
        store: &mut EmbeddedStore<D>,
    ) -> Result<(), EngineError>
        ensures moves { MovesRowCursor D.Disk store.old store.new self.old self.new
            (StepsUnread false self.old self.new) result }
        ensures finds { StepsIn D.Disk store.old self.old self.new false result }
        ensures unread { NeedsNoRead false self.old →
            (store.new ≡ store.old) × IsOk result }
        ensures damaged { IfSome (cursor_row self.old) (λ row.
            MeetsDamageIn D.Disk store.old (span_beside false row) result) }
    {
        self.step(alloc, store, false)
    }

    /// Steps to the row before, or to none before the first one. On no row it stays so. Where it
    /// needs no read, it succeeds over an ended store too.
    pub fn prev<D: Disk + Drop>(
        &mut self,
        alloc: Global,
        store: &mut EmbeddedStore<D>,
    ) -> Result<(), EngineError>
        ensures moves { MovesRowCursor D.Disk store.old store.new self.old self.new
            (StepsUnread true self.old self.new) result }
        ensures finds { StepsIn D.Disk store.old self.old self.new true result }
        ensures unread { NeedsNoRead true self.old →
            (store.new ≡ store.old) × IsOk result }
        ensures damaged { IfSome (cursor_row self.old) (λ row.
            MeetsDamageIn D.Disk store.old (span_beside true row) result) }
    {
        self.step(alloc, store, true)
    }
}
