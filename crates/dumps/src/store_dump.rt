// A store is opened and written out.
ghost use Rattle.std.specs.Prelude.{◌≡◌, ℕ, List, Ok, Err, IfErr, IsErrOf, MatchResult, OnOk};
ghost use Rattle.disk.specs.{contents};
ghost use Rattle.kv_types.specs.{BatchContent};
ghost use Rattle.engine.specs.{AreShut, EngineReads, Facts, FilesRepresent, WereMeant, engine_disk};
ghost use Rattle.engine.specs.{facts_of, look_ups};
ghost use Rattle.node.specs.declared.stop.Stop.TheVariants as stop;
ghost use Rattle.dumps.specs.declared.dump_error.DumpError.TheVariants.{Store};
ghost use Rattle.dumps.specs.Dumped.{AreTableCounts, DiskIsOnlyRead};
ghost use Rattle.dumps.specs.Dumped.{IsBegunDump, IsBegunFor, IsCutDump, IsDumpFor, IsDumpOf};
ghost use Rattle.dumps.specs.Dumped.{IsDumpRefusal, IsNotOpened, IsOfOpened, IsSomeBegun};
ghost use Rattle.dumps.specs.Dumped.{IsSomeDump, LeavesDevice, ReturnsFiles, ShowsList};
ghost use Rattle.dumps.specs.Dumped.{WritesText, count_line, store_line};

use crate::dump_error::DumpError;
use crate::row_walk::write_rows;
use disk::Disk;
use engine::Engine;
use kv_types::laws::pages_agree;
use kv_types::{Limits, Number};
use node::Numbers;
use std::alloc::Global;
use std::io::Write;
use store_texts::{StoreText, print};

// The numbers of an engine.
fn numbers_of<D: Disk + Drop>(engine: &Engine<D>) -> Numbers
    ensures epoch { result.epoch ≡ (look_ups engine.now).facts.epoch }
    ensures count { result.count ≡ (look_ups engine.now).count }
    ensures floor { result.floor ≡ (look_ups engine.now).facts.floor }
    ensures kept { result.kept ≡ (look_ups engine.now).facts.kept }
    ensures tables { AreTableCounts engine.now result.tables }
{
    Numbers {
        epoch: engine.epoch(),
        count: engine.count(),
        committed: engine.committed(),
        floor: engine.floor(),
        kept: engine.kept(),
        tables: engine.tables(),
    }
}

// Writes the line of the engine's numbers.
fn write_numbers<D: Disk + Drop, W: Write>(
    alloc: Global,
    engine: &Engine<D>,
    out: &mut W,
) -> Result<(), DumpError>
    ensures { (tables : List ℕ) × WritesText
        (store_line (look_ups engine.now).facts (look_ups engine.now).count tables)
        (W.contents out.old) (W.contents out.new) result × AreTableCounts engine.now tables }
{
    let numbers = numbers_of(engine);
    let line = StoreText(engine.id(), &numbers);
    let text = format!(in alloc; "{line}\n")?;
    print(text.as_bytes(), out)?;
    Ok(())
}

// Writes how many rows there are, and at which number.
fn write_count<W: Write>(
    alloc: Global,
    count: u64,
    at: Number,
    out: &mut W,
) -> Result<(), DumpError>
    ensures { WritesText (count_line count at) (W.contents out.old) (W.contents out.new) result }
{
    let at = at.get();
    let text = format!(in alloc; "rows {count} at {at}\n")?;
    print(text.as_bytes(), out)?;
    Ok(())
}

// The disk behind what was written, or beside the refusal.
fn with_disk<D>(written: Result<(), DumpError>, disk: D) -> Result<D, (DumpError, D)>
    ensures { MatchResult written (λ _. result ≡ Ok disk) (λ e. result ≡ Err (e, disk)) }
{
    match written {
        Ok(()) => Ok(disk),
        Err(e) => Err((e, disk)),
    }
}

// Writes the numbers of an engine, all rows at its count, and how many they are.
fn write_store<D: Disk + Drop, W: Write>(
    alloc: Global,
    engine: &mut Engine<D>,
    out: &mut W,
) -> Result<(), DumpError>
    ensures dump { MatchResult result
        (λ _. IsDumpFor (ShowsList D.Disk engine.old) (AreTableCounts engine.old)
        (facts_of engine.old) (look_ups engine.old).count (W.contents out.old) (W.contents out.new))
        (IsBegunFor (ShowsList D.Disk engine.old) (AreTableCounts engine.old)
        (facts_of engine.old) (look_ups engine.old).count (W.contents out.old)
        (W.contents out.new)) }
    ensures refused { (list : List BatchContent) → EngineReads D.Disk engine.old list →
        IfErr result IsDumpRefusal }
    ensures device { DiskIsOnlyRead D.Disk (engine_disk engine.old) (engine_disk engine.new)
        (IsErrOf result (Store stop.Disk)) }
    ensures created { IfErr result IsOfOpened }
{
    pages_agree(); // law: a map has a page in each range
    write_numbers(alloc, engine, out)?;
    let at = engine.count();
    engine.set_committed(at);
    let count = write_rows(alloc, engine, at, out)?;
    write_count(alloc, count, at, out)
}

/// Opens the store of a disk, and writes its numbers, all rows at its count in the order of their
/// keys, and how many they are. The disk is returned, on an error too. The rows of a page are
/// flushed before the next page is read, so after an error the text of the first ones may be out.
/// `Memory` is also answered for more rows or pages than can be counted.
pub fn dump_store<D: Disk + Drop, W: Write>(
    alloc: Global,
    disk: D,
    out: &mut W,
) -> Result<D, (DumpError, D)>
    ensures written { (facts : Facts) (list : List BatchContent) → D.is_honest disk →
        FilesRepresent facts list (contents (D.state disk)) → OnOk result
        (IsDumpOf facts list (W.contents out.old) (W.contents out.new)) }
    ensures refused { (facts : Facts) (list : List BatchContent) → D.is_honest disk →
        FilesRepresent facts list (contents (D.state disk)) → IfErr result (λ refused.
        IsCutDump facts list (W.contents out.old) (W.contents out.new) refused.0) }

    // Where blocks of tables are damaged, no wrong row is written, and none is left out.
    ensures meant { (facts : Facts) (list : List BatchContent) → D.is_honest disk →
        WereMeant facts list (contents (D.state disk)) → MatchResult result
        (λ _. IsDumpOf facts list (W.contents out.old) (W.contents out.new))
        (λ refused. IsBegunDump facts list (W.contents out.old) (W.contents out.new) refused.0) }

    ensures unopened { D.is_honest disk → AreShut (contents (D.state disk)) →
        IsNotOpened D.Disk disk (W.contents out.old) (W.contents out.new) result }

    // Of any disk: the text of some store was written, or a beginning of it, which ends within a
    // line only where the output took no more. It is refused for the device exactly where a failure
    // is counted.
    ensures printed { MatchResult result
        (λ _. IsSomeDump (W.contents out.old) (W.contents out.new))
        (λ refused. IsSomeBegun (W.contents out.old) (W.contents out.new) refused.0) }
    ensures device { LeavesDevice D.Disk disk result }

    // No file is changed behind the opening, also where a crash cuts the dump short. A store that
    // was opened is not refused as one that was not created, or of the old format.
    ensures files { ReturnsFiles D.Disk disk (W.contents out.old) (W.contents out.new) result }
{
    pages_agree(); // law: a map has a page in each range
    let mut engine = match Engine::open(alloc, disk, &Limits::default()) {
        Ok(engine) => engine,
        Err((e, disk)) => return Err((DumpError::from(e), disk)),
    };
    let written = write_store(alloc, &mut engine, out);
    with_disk(written, engine.into_disk())
}
