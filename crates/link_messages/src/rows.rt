// The rows of an answer, written as bytes and read from them.
ghost use Rattle.std.specs.Prelude.{◌≡◌, ◌++◌, OnOk, All, nat_le};
ghost use Rattle.std.specs.List.{flat_map, sum_by};
ghost use Rattle.kv_types.specs.{row_size};
ghost use Rattle.link_messages.specs.Spelling.{row_text, page_text, IsRow};
ghost use Rattle.byte_fields.specs.{many};
ghost use Rattle.link_messages.specs.Reading.{ReadsField, items_of, row_at, rows_at, page_at};

use crate::FrameError;
use crate::fields::{key_of, value_of};
use crate::numbers::{put_truth, put_u16, truth_of, u16_of};
use byte_fields::put_text;
use kv_types::bounds::{MAX_PAGE, MAX_ROWS};
use kv_types::{Page, Row};
use std::alloc::{AllocError, Global};

// ---- writing

fn put_row(out: &mut Vec<u8>, row: &Row) -> Result<(), AllocError>
    ensures spelled { OnOk result (out.new.items ≡ out.old.items ++ row_text row.now) }
    ensures is { OnOk result (IsRow row.now) }
{
    put_text(out, row.key())?;
    put_text(out, row.value())
}

fn put_rows(out: &mut Vec<u8>, rows: &[Row]) -> Result<(), AllocError>
    ensures spelled { OnOk result (out.new.items ≡ out.old.items ++ flat_map row_text rows.now) }
    ensures each { OnOk result (All IsRow rows.now) }
{
    for row in rows {
        put_row(out, row)?;
    }
    Ok(())
}

pub fn put_page(out: &mut Vec<u8>, page: &Page) -> Result<(), AllocError>
    ensures spelled { OnOk result (out.new.items ≡ out.old.items ++ page_text page.now) }
    ensures each { OnOk result (All IsRow page.now.rows) }
{
    put_truth(out, page.has_more())?;
    put_u16(out, (page.rows().len() % (1 << 16)) as u16)?;
    put_rows(out, page.rows())
}

// ---- reading: from the front of the bytes, which then hold the bytes behind the field

#[tactic(auto, unfolding(crate::specs::Reading::row_at))]
fn row_of(alloc: Global, bytes: &mut &[u8]) -> Result<Row, FrameError>
    ensures { ReadsField result bytes.new.now (row_at bytes.old.now) }
{
    let key = key_of(alloc, bytes)?;
    let value = value_of(alloc, bytes)?;
    Ok(Row::new(alloc, key.as_bytes(), value.as_bytes())?)
}

fn rows_in(alloc: Global, count: u16, bytes: &mut &[u8]) -> Result<Vec<Row>, FrameError>
    ensures { ReadsField (items_of result) bytes.new.now (many row_at count bytes.old.now) }
{
    let mut rows = Vec::new(alloc);
    for _ in 0..count {
        rows.push(row_of(alloc, bytes)?)?;
    }
    Ok(rows)
}

#[tactic(auto, unfolding(crate::specs::Reading::rows_at))]
fn rows_of(alloc: Global, bytes: &mut &[u8]) -> Result<Vec<Row>, FrameError>
    ensures { ReadsField (items_of result) bytes.new.now (rows_at bytes.old.now) }
{
    let count = u16_of(bytes)?;
    if count as u32 > MAX_ROWS {
        return Err(FrameError::BadField);
    }
    rows_in(alloc, count, bytes)
}

// Whether the rows keep the limit of a page.
fn are_small(rows: &[Row]) -> bool
    ensures { result ≡ nat_le (sum_by row_size rows.now) MAX_PAGE }
{
    let mut left = MAX_PAGE;
    for row in rows {
        let size = row.size();
        if left < size {
            return false;
        }
        left -= size;
    }
    true
}

#[tactic(auto, unfolding(crate::specs::Reading::page_at))]
pub fn page_of(alloc: Global, bytes: &mut &[u8]) -> Result<Page, FrameError>
    ensures { ReadsField result bytes.new.now (page_at bytes.old.now) }
{
    let more = truth_of(bytes)?;
    let rows = rows_of(alloc, bytes)?;
    if !are_small(&rows) {
        return Err(FrameError::BadField);
    }
    Ok(Page::new(rows, more))
}
