//! Reading the page of a range.
ghost use Rattle.std.specs.Prelude.{IfOk};
ghost use Rattle.kv_types.specs.Pages.{IsPage, Map};
ghost use Rattle.merge_iter.specs.LentCursors.{ShiftsCursor};
ghost use Rattle.merge_iter.specs.{IfOn, IsOn};
ghost use Rattle.row_pages.specs.Additions.{AddsRowOf};
ghost use Rattle.row_pages.specs.Rows.{HasRowsOf, HasWalk};

use crate::page_rows::PageRows;
use crate::walking::{begin, stands_within, step};
use kv_types::{Page, Range};
use merge_iter::{Cursor, CursorError};
use std::alloc::{AllocError, Global};

// Adds the row of the entry that the cursor stands on, unless it would exceed the limits. Says
// whether there was room for it. A deletion is no row.
fn add_entry<C: Cursor>(
    alloc: Global,
    cursor: &C,
    limit: u32,
    page: &mut PageRows,
) -> Result<bool, AllocError>
    requires { IsOn (C.position cursor.now) }
    ensures { IfOk result (λ added. IfOn (C.position cursor.now)
        (λ entry. AddsRowOf limit page.old entry page.new added)) }
{
    match cursor.value() {
        Some(value) => page.add(alloc, limit, cursor.key().as_bytes(), value),
        None => Ok(true),
    }
}

/// The page of the range: the longest beginning of the walk over the rows that the cursor has in
/// the range, within the limits of an answer. The cursor is moved, wherever to.
pub fn read_page<C: Cursor>(
    alloc: Global,
    cursor: &mut C,
    source: &mut C::Source,
    range: &Range,
) -> Result<Page, CursorError>
    ensures moved { ShiftsCursor C.Cursor (Unit {0}) cursor.old source.old cursor.new source.new
        result }
    ensures page { (meant : C.Meant) → (map : Map) → C.is_sound meant cursor.old source.old →
        HasRowsOf map range.now (C.holds meant cursor.old source.old) → HasWalk map range.now →
        IfOk result (IsPage map range.now) }
{
    begin(cursor, source, range)?;
    let limit = range.limit();
    let mut page = PageRows::new(alloc, limit)?;
    while stands_within(cursor, range) {
        if !add_entry(alloc, cursor, limit, &mut page)? {
            return Ok(page.into_page(true));
        }
        step(cursor, source, range)?;
    }
    Ok(page.into_page(false))
}
