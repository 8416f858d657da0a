//! The rows of a page while it is read, within the limits of an answer.
ghost use Rattle.std.specs.Prelude.{◌≡◌, ◌↔◌, ◌+◌, ◌≤◌, [], length, IfOk, IsTrue};
ghost use Rattle.byte_fields.specs.declared.stored_key.TheConstants.{MAX_KEY};
ghost use Rattle.kv_types.specs.declared.bounds.TheConstants.{MAX_PAGE, MAX_VALUE, ROW_OVERHEAD};
ghost use Rattle.kv_types.specs.{row_size};
ghost use Rattle.row_pages.specs.Additions.{AddsRow, HasRoom};

use kv_types::bounds::{MAX_PAGE, ROW_OVERHEAD};
use kv_types::{Page, Row};
use std::alloc::{AllocError, Global};
use std::marker::Model;

/// A page takes memory for so many rows at first.
const FIRST_ROWS: u32 = 128;

/// The rows that a page has so far, and the bytes that they count.
#[derive(Drop)]
pub struct PageRows {
    rows: Vec<Row>,
    size: usize,
}

impl Model for PageRows {
    ghost use Rattle.std.specs.Prelude.{◌≡◌, ◌≤◌, List};
    ghost use Rattle.std.specs.List.{sum_by};
    ghost use Rattle.kv_types.specs.{Row};
    ghost use Rattle.kv_types.specs.declared.bounds.TheConstants.{MAX_PAGE};
    ghost use Rattle.kv_types.specs.{row_size};

    ghost Value = { List Row };

    ghost view = { λ page. page.rows.items };

    ghost invariant = { λ page. (page.size ≡ sum_by row_size page.rows.items)
        × (page.size ≤ MAX_PAGE) };
}

impl PageRows {
    /// No rows, with memory for some of so many.
    pub fn new(alloc: Global, limit: u32) -> Result<PageRows, AllocError>
        ensures { IfOk result (λ page. page ≡ []) }
    {
        let rows = Vec::with_capacity(alloc, limit.min(FIRST_ROWS) as usize)?;
        Ok(PageRows { rows, size: 0 })
    }

    // Whether a row of this size keeps the page within both limits.
    fn has_room(&self, limit: u32, size: usize) -> bool
        ensures { IsTrue result ↔ HasRoom limit self.now size }
    {
        self.rows.len() < limit as usize && size <= MAX_PAGE - self.size
    }

    /// Adds a row, unless it would exceed the limits. Says whether it was added.
    pub fn add(
        &mut self,
        alloc: Global,
        limit: u32,
        key: &[u8],
        value: &[u8],
    ) -> Result<bool, AllocError>
        requires key { length key.now ≤ MAX_KEY }
        requires value { length value.now ≤ MAX_VALUE }
        ensures { IfOk result (AddsRow limit self.old
            (record { key = key.now; value = value.now }) self.new) }
    {
        let size = size_of_row(key, value);
        if !self.has_room(limit, size) {
            return Ok(false);
        }
        self.rows.push(Row::new(alloc, key, value)?)?;
        self.size += size;
        Ok(true)
    }

    /// The page of these rows.
    pub fn into_page(self, more: bool) -> Page
        ensures { result ≡ record { rows = self; more = more } }
    {
        Page::new(self.rows, more)
    }
}

// The bytes that a row of this key and value counts in a page.
fn size_of_row(key: &[u8], value: &[u8]) -> usize
    requires key { length key.now ≤ MAX_KEY }
    requires value { length value.now ≤ MAX_VALUE }
    ensures { result ≡ row_size (record { key = key.now; value = value.now }) }
{
    key.len() + value.len() + ROW_OVERHEAD
}
