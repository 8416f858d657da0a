// A walk over all rows, page after page.
ghost use Rattle.std.specs.Prelude.{◌≡◌, ◌==◌, ◌⊎◌, IfErr, IfOk, IsOk, OnErr, OnOk, length, false};
ghost use Rattle.byte_fields.specs.declared.stored_key.TheConstants.{MAX_KEY};
ghost use Rattle.benchmarks.specs.Walks.{NoneBehind, NoneFits, first_range, range_behind};
ghost use Rattle.benchmarks.specs.Walks.{range_left, range_passed, seek_range, with_passed};

use crate::Count;
use kv_types::{Key, KvError, Page, Range, Row};
use std::alloc::Global;

/// Rows of a page at most.
const ROWS: u32 = 1024;

/// A walk over all rows, or to one.
#[derive(Drop)]
pub struct Walk {
    range: Range,
}

/// The rows in front of this one in a walk backward, or behind it.
fn range_behind(alloc: Global, row: &Row, is_backward: bool) -> Result<Range, KvError>
    ensures range { IfOk result (λ range. range ≡ range_behind is_backward row.now.key) }
    ensures refused { IfErr result (λ e. (e ≡ KvError.Memory) ⊎ ((e ≡ KvError.KeyTooLong)
        × (is_backward ≡ false) × (length row.now.key ≡ MAX_KEY))) }
{
    let mut bytes = row.key().to_vec(alloc)?;
    if is_backward {
        let bound = Key::new(bytes)?;
        return Range::new(Key::new(Vec::new(alloc))?, Some(bound), true, ROWS);
    }
    bytes.push(0)?;
    Range::new(Key::new(bytes)?, None, false, ROWS)
}

impl Walk {
    /// A walk that has not begun.
    pub fn new(alloc: Global, is_backward: bool) -> Result<Walk, KvError>
        ensures range { IfOk result (λ walk. walk.range ≡ first_range is_backward) }
        ensures refused { IfErr result (λ e. e ≡ KvError.Memory) }
    {
        let range = Range::new(Key::new(Vec::new(alloc))?, None, is_backward, ROWS)?;
        Ok(Walk { range })
    }

    /// Begins again at this key, for one row.
    pub fn seek(&mut self, key: Key) -> Result<(), KvError>
        ensures done { IsOk result }
        ensures range { self.new.range ≡ seek_range key }
    {
        self.range = Range::new(key, None, false, 1)?;
        Ok(())
    }

    /// The range of its next page.
    pub fn range(&self) -> &Range
        ensures { result.now ≡ self.now.range }
    {
        &self.range
    }

    /// Whether it seeks one key.
    fn seeks(&self) -> bool
        ensures { result ≡ (self.now.range.limit == 1) }
    {
        self.range.limit() == 1
    }

    /// Moves behind the last of the rows, if there is one.
    fn move_behind(&mut self, alloc: Global, rows: &[Row]) -> Result<(), KvError>
        ensures range { OnOk result (self.new.range ≡ range_left self.old.range rows.now) }
        ensures err { OnErr result (self.new ≡ self.old) }
        ensures refused { IfErr result (λ e. (e ≡ KvError.Memory) ⊎ ((e ≡ KvError.KeyTooLong)
            × (self.old.range.backward ≡ false) × NoneFits rows.now)) }
    {
        match rows.last() {
            Some(row) => {
                self.range = range_behind(alloc, row, self.range.is_backward())?;
                Ok(())
            }
            None => Ok(()),
        }
    }

    /// Counts the rows of the next page, and goes on behind it, if more rows follow. Of a seek it
    /// counts the row that has the key, if there is one. After an `Err` nothing has changed. But
    /// for memory it is refused only where a walk forward is to go on behind a key of 1,024 bytes.
    pub fn pass(&mut self, alloc: Global, page: Page, count: &mut Count) -> Result<(), KvError>
        ensures range { OnOk result (self.new.range ≡ range_passed self.old.range page) }
        ensures count { OnOk result (count.new ≡ with_passed count.old self.old.range page) }
        ensures err { OnErr result ((self.new ≡ self.old) × (count.new ≡ count.old)) }
        ensures refused { IfErr result (λ e. (e ≡ KvError.Memory)
            ⊎ ((e ≡ KvError.KeyTooLong) × NoneBehind self.old.range page)) }
    {
        if self.seeks() {
            count.add_operations(1);
            count.add_found(page, self.range.from());
            return Ok(());
        }
        if page.has_more() {
            self.move_behind(alloc, page.rows())?;
            count.add_page(page);
        } else {
            count.add_page(page);
            count.end();
        }
        Ok(())
    }
}
