// The rows of a store, page by page in the order of their keys.
ghost use Rattle.std.specs.Prelude.{◌≡◌, ◌⊎◌, ◌∷◌, ◌++◌, [], List, drop, length, take};
ghost use Rattle.std.specs.Prelude.{IfErr, IfOk, IsErrOf, MatchResult, OnOk, string_bytes};
ghost use Rattle.std.specs.List.{flat_map};
ghost use Rattle.kv_types.specs.{BatchContent};
ghost use Rattle.kv_types.specs.Pages.{page_of};
ghost use Rattle.engine.specs.{EngineReads, IsReadable, engine_disk, look_ups};
ghost use Rattle.node.specs.declared.stop.Stop.TheVariants as stop;
ghost use Rattle.dumps.specs.declared.dump_error.DumpError.TheVariants.{Store};
ghost use Rattle.dumps.specs.Walks.{all_from};
ghost use Rattle.dumps.specs.Dumped.{AreAllWritten, AreBegun, DiskIsOnlyRead, IsDumpRefusal};
ghost use Rattle.dumps.specs.Dumped.{IsOfOpened, ShowsList, StillShows, row_line};

use crate::dump_error::DumpError;
use byte_fields::laws::byte_order_is_strict;
use disk::Disk;
use engine::Engine;
use kv_types::bounds::MAX_ROWS;
use kv_types::laws::{maps_agree, pages_agree};
use kv_types::{Key, Number, Page, Range, Row};
use node::Stop;
use std::alloc::{AllocError, Global};
use std::io::Write;
use store_texts::{RowText, print};

// The least key.
fn least_key(alloc: Global) -> Result<Key, DumpError>
    ensures key { IfOk result (λ key. key ≡ []) }
    ensures refused { IfErr result (λ error. error ≡ Store stop.Memory) }
{
    match Key::new(Vec::new(alloc)) {
        Ok(key) => Ok(key),
        Err(_) => Err(DumpError::Store(Stop::Memory)),
    }
}

// The page of the keys from this one on. An engine that reads a list refuses it for the device or
// for memory alone; one that was meant to read a list answers of that list.
fn page_from<D: Disk + Drop>(
    alloc: Global,
    engine: &mut Engine<D>,
    at: Number,
    from: Key,
) -> Result<Page, DumpError>
    ensures page { (list : List BatchContent) → ShowsList D.Disk engine.old list →
        IfOk result (λ page. page ≡ page_of (take at list) (all_from from)) }
    ensures shows { OnOk result ((list : List BatchContent) →
        StillShows D.Disk engine.old engine.new list) }
    ensures looks { look_ups engine.new ≡ look_ups engine.old }
    ensures device { DiskIsOnlyRead D.Disk (engine_disk engine.old) (engine_disk engine.new)
        (IsErrOf result (Store stop.Disk)) }
    ensures refused { (list : List BatchContent) → EngineReads D.Disk engine.old list →
        IsReadable (look_ups engine.old).facts.floor (look_ups engine.old).committed at →
        IfErr result IsDumpRefusal }
    ensures created { IfErr result IsOfOpened }
{
    let Ok(range) = Range::new(from, None, false, MAX_ROWS) else {
        return Err(DumpError::Store(Stop::Memory));
    };
    match engine.rows(alloc, at, &range) {
        Ok(page) => Ok(page),
        Err(e) => Err(DumpError::from(e)),
    }
}

// Makes the text of these rows, in place of what stood there.
fn make_text(rows: &[Row], text: &mut String) -> Result<(), AllocError>
    ensures { OnOk result (string_bytes text.new ≡ flat_map row_line rows.now) }
{
    text.clear();
    for row in rows {
        let line = RowText(row);
        writeln!(text, "{line}")?;
    }
    Ok(())
}

// The rows behind the first so many.
fn behind(rows: &[Row], count: usize) -> &[Row]
    ensures { result.now ≡ drop count rows.now }
{
    rows.get(count..).unwrap_or(&[])
}

// The key of the last row. It is refused for memory, or where there is no row.
fn last_key(alloc: Global, rows: &[Row]) -> Result<Key, DumpError>
    ensures key { IfOk result (λ key. (front : List Row) × (last : Row)
        × (rows.now ≡ front ++ last ∷ []) × (key ≡ last.key)) }
    ensures refused { IfErr result (λ error. (error ≡ Store stop.Memory)
        ⊎ ((error ≡ Store stop.Damaged) × (length rows.now ≡ 0))) }
{
    match rows.split_last() {
        Some((last, _front)) => Ok(last.to_key(alloc)?),
        None => Err(DumpError::Store(Stop::Damaged)),
    }
}

/// Writes all rows at a number, and answers how many. The rows of a page are flushed before the
/// next page is read. Each page but the first begins with the last row of the one before it, which
/// it has: a row fits into a page, so one behind which rows are left has a row. `Memory` is also
/// answered for more rows or pages than can be counted.
pub fn write_rows<D: Disk + Drop, W: Write>(
    alloc: Global,
    engine: &mut Engine<D>,
    at: Number,
    out: &mut W,
) -> Result<u64, DumpError>
    ensures rows { MatchResult result
        (λ count. AreAllWritten (ShowsList D.Disk engine.old) at count
        (W.contents out.old) (W.contents out.new))
        (AreBegun (ShowsList D.Disk engine.old) at (W.contents out.old) (W.contents out.new)) }
    ensures refused { (list : List BatchContent) → EngineReads D.Disk engine.old list →
        IsReadable (look_ups engine.old).facts.floor (look_ups engine.old).committed at →
        IfErr result IsDumpRefusal }
    ensures device { DiskIsOnlyRead D.Disk (engine_disk engine.old) (engine_disk engine.new)
        (IsErrOf result (Store stop.Disk)) }
    ensures created { IfErr result IsOfOpened }
{
    byte_order_is_strict(); // law: byte order is a strict order of all keys
    pages_agree(); // law: the page as a function is the page of a map
    maps_agree(); // law: what a map has was put by an edit
    let mut text = String::new(alloc);
    let (mut from, mut known, mut count) = (least_key(alloc)?, 0, 0u64);
    for _ in 0..u64::MAX {
        let page = page_from(alloc, engine, at, from)?;
        let rows = behind(page.rows(), known);
        make_text(rows, &mut text)?;
        print(text.as_bytes(), out)?;
        let Some(more) = count.checked_add(rows.len() as u64) else {
            return Err(DumpError::Store(Stop::Memory));
        };
        count = more;
        if !page.has_more() {
            return Ok(count);
        }
        from = last_key(alloc, page.rows())?;
        known = 1;
    }
    Err(DumpError::Store(Stop::Memory))
}
