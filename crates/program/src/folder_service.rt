//! Runs in folders and what is written of one, from paths and streams to the exit status.
ghost use Rattle.std.specs.Prelude.{◌≡◌, ◌≢◌, ℕ, List, false, map, codes, MatchResult};
ghost use Rattle.std.specs.Prelude.{Some, None};
ghost use Rattle.store_texts.specs.Writing.{AppendsPart};
ghost use Rattle.program.specs.FolderFailures.{dump_failure_line, loop_failure_line};
ghost use Rattle.program.specs.FolderFailures.{upgrade_failure_line};
ghost use Rattle.program.specs.FolderDumps.{DumpEndsFor, DumpOrUsage};
ghost use Rattle.program.specs.FolderRuns.{LoopEnds, LoopEndsFor, LoopOrUsage, stopped_status};
ghost use Rattle.program.specs.FolderUpgrades.{UpgradeEndsFor, UpgradeOrUsage};
ghost use Rattle.program.specs.Invocations.{dump_folder, has_option, loop_paths, upgrade_folder};
ghost use Rattle.program.specs.Runs.{UsageIsReported};

use crate::failure::Failure;
use crate::folder_dump::dump_folder;
use crate::folder_failure::{DumpFailure, LoopFailure, UpgradeFailure};
use crate::folder_run::run_in_folders;
use crate::folder_upgrade::upgrade_folder;
use crate::invocation::{WordsError, loop_request, path_request};
use crate::service::{LINE, refuse};
use arrayvec::ArrayVec;
use dir_disk::{DirDisk, Unchanged};
use disk::Disk;
use std::alloc::Global;
use std::fs::{File, OpenOptions};
use std::io::{self, Read, Write};
use std::net::{Net, TcpListener, TcpStream};
use std::rt::Files;
use store_texts::print;

/// Runs a script at nodes in the folders of this one, and answers the status: 1 also where a node
/// stopped by itself, of which the run has printed a line. The script `-` is standard input.
fn run_script_at<F, R: Read, O: Write, E: Write>(
    rt: &F,
    script: &str,
    folder: &str,
    input: &mut R,
    out: &mut O,
    err: &mut E,
) -> u8
where
    F: Files<File = File> + Net<Listener = TcpListener, Stream = TcpStream>,
    F: Alloc<A = Global> + Clone + Drop,
    ensures input { script.now ≡ codes "-" → LoopEnds ⟦<DirDisk<F> as Disk>⟧ folder.now
        (R.remaining input.old) (O.contents out.old) (O.contents out.new) (E.contents err.old)
        (E.contents err.new) result }
    ensures path { script.now ≢ codes "-" → input.new ≡ input.old }
    ensures ends { LoopEnds ⟦<DirDisk<F> as Disk>⟧ folder.now None (O.contents out.old)
        (O.contents out.new) (E.contents err.old) (E.contents err.new) result }
{
    if script == "-" {
        return end_loop(run_in_folders(rt, input, folder, out), err);
    }
    match OpenOptions::new().read(true).open(rt, script) {
        Ok(mut file) => end_loop(run_in_folders(rt, &mut file, folder, out), err),
        Err(_) => report_loop(err, LoopFailure::Run(Failure::Unreadable)),
    }
}

/// The status of a run in folders, which answered whether a node stopped by itself.
fn end_loop<E: Write>(ran: Result<bool, LoopFailure>, err: &mut E) -> u8
    ensures { MatchResult ran
        (λ stopped. (result ≡ stopped_status stopped) × (E.contents err.new ≡ E.contents err.old))
        (λ failure. (result ≡ 1) × AppendsPart (E.contents err.old) (E.contents err.new)
        (loop_failure_line failure)) }
{
    match ran {
        Ok(false) => 0,
        Ok(true) => 1,
        Err(failure) => report_loop(err, failure),
    }
}

/// Writes why a run in folders ended early.
fn write_loop_failure<E: Write>(err: &mut E, failure: LoopFailure) -> io::Result<()>
    ensures { AppendsPart (E.contents err.old) (E.contents err.new) (loop_failure_line failure) }
{
    let mut line = ArrayVec::<u8, LINE>::new();
    writeln!(line, "{failure}")?;
    print(line.as_slice(), err)
}

/// The status of a run in folders that ended early. Standard error may take only a beginning of the
/// line that says why.
fn report_loop<E: Write>(err: &mut E, failure: LoopFailure) -> u8
    ensures status { result ≡ 1 }
    ensures text { AppendsPart (E.contents err.old) (E.contents err.new)
        (loop_failure_line failure) }
{
    let _ = write_loop_failure(err, failure);
    1
}

/// Writes why a store was not written out whole.
fn write_dump_failure<E: Write>(err: &mut E, failure: DumpFailure) -> io::Result<()>
    ensures { AppendsPart (E.contents err.old) (E.contents err.new) (dump_failure_line failure) }
{
    let mut line = ArrayVec::<u8, LINE>::new();
    writeln!(line, "{failure}")?;
    print(line.as_slice(), err)
}

/// The status where what a store has was not written out whole. Standard error may take only a
/// beginning of the line that says why.
fn report_dump<E: Write>(err: &mut E, failure: DumpFailure) -> u8
    ensures status { result ≡ 1 }
    ensures text { AppendsPart (E.contents err.old) (E.contents err.new)
        (dump_failure_line failure) }
{
    let _ = write_dump_failure(err, failure);
    1
}

/// Writes what the store of a folder has, and answers the status.
fn write_folder<F, O: Write, E: Write>(rt: &F, folder: &str, out: &mut O, err: &mut E) -> u8
where
    F: Files<File = File> + Alloc<A = Global> + Clone + Drop,
    ensures { DumpEndsFor ⟦<Unchanged<DirDisk<F>> as Disk>⟧ folder.now (O.contents out.old)
        (O.contents out.new) (E.contents err.old) (E.contents err.new) result }
{
    match dump_folder(rt, folder, out) {
        Ok(()) => 0,
        Err(failure) => report_dump(err, failure),
    }
}

/// Writes why a store was not upgraded.
fn write_upgrade_failure<E: Write>(err: &mut E, failure: UpgradeFailure) -> io::Result<()>
    ensures { AppendsPart (E.contents err.old) (E.contents err.new) (upgrade_failure_line failure) }
{
    let mut line = ArrayVec::<u8, LINE>::new();
    writeln!(line, "{failure}")?;
    print(line.as_slice(), err)
}

/// The status where a store was not upgraded. Standard error may take only a beginning of the line
/// that says why.
fn report_upgrade<E: Write>(err: &mut E, failure: UpgradeFailure) -> u8
    ensures status { result ≡ 1 }
    ensures text { AppendsPart (E.contents err.old) (E.contents err.new)
        (upgrade_failure_line failure) }
{
    let _ = write_upgrade_failure(err, failure);
    1
}

/// Does what words ask for that name `loop`, and answers the exit status.
pub fn serve_loop<F, R: Read, O: Write, E: Write>(
    rt: &F,
    words: &[&str],
    input: &mut R,
    out: &mut O,
    err: &mut E,
) -> u8
where
    F: Files<File = File> + Net<Listener = TcpListener, Stream = TcpStream>,
    F: Alloc<A = Global> + Clone + Drop,
    ensures looped { (script folder : List ℕ) →
        loop_paths (map (λ w. w.now) words.now) ≡ Some (script, folder) →
        LoopEndsFor ⟦<DirDisk<F> as Disk>⟧ script folder input.old input.new
        (R.remaining input.old) (O.contents out.old) (O.contents out.new) (E.contents err.old)
        (E.contents err.new) result }
    ensures unknown { loop_paths (map (λ w. w.now) words.now) ≡ None →
        has_option (codes "loop") (map (λ w. w.now) words.now) ≡ false → (input.new ≡ input.old)
        × UsageIsReported (O.contents out.old) (O.contents out.new) (E.contents err.old)
        (E.contents err.new) result }
    ensures usage { result ≡ 2 → input.new ≡ input.old }
    ensures ends { LoopOrUsage ⟦<DirDisk<F> as Disk>⟧ (O.contents out.old)
        (O.contents out.new) (E.contents err.old) (E.contents err.new) result }
{
    match loop_request(rt.alloc(), words) {
        Ok((script, folder)) => run_script_at(rt, script, folder, input, out, err),
        Err(WordsError::Memory) => report_loop(err, LoopFailure::Run(Failure::Memory)),
        Err(WordsError::Usage) => refuse(err),
    }
}

/// Does what words ask for that name `dump`, and answers the exit status.
pub fn serve_dump<F, O: Write, E: Write>(rt: &F, words: &[&str], out: &mut O, err: &mut E) -> u8
where
    F: Files<File = File> + Alloc<A = Global> + Clone + Drop,
    ensures dumped { (folder : List ℕ) →
        dump_folder (map (λ w. w.now) words.now) ≡ Some folder →
        DumpEndsFor ⟦<Unchanged<DirDisk<F>> as Disk>⟧ folder (O.contents out.old)
        (O.contents out.new) (E.contents err.old) (E.contents err.new) result }
    ensures unknown { dump_folder (map (λ w. w.now) words.now) ≡ None →
        has_option (codes "dump") (map (λ w. w.now) words.now) ≡ false →
        UsageIsReported (O.contents out.old) (O.contents out.new) (E.contents err.old)
        (E.contents err.new) result }
    ensures ends { DumpOrUsage ⟦<Unchanged<DirDisk<F>> as Disk>⟧ (O.contents out.old)
        (O.contents out.new) (E.contents err.old) (E.contents err.new) result }
{
    match path_request(rt.alloc(), "dump", "DIR", words) {
        Ok(folder) => write_folder(rt, folder, out, err),
        Err(WordsError::Memory) => report_dump(err, DumpFailure::Memory),
        Err(WordsError::Usage) => refuse(err),
    }
}

/// Takes the store of a folder over, and answers the status.
fn upgrade_at<F, O: Write, E: Write>(rt: &F, folder: &str, out: &mut O, err: &mut E) -> u8
where
    F: Files<File = File> + Alloc<A = Global> + Clone + Drop,
    ensures { UpgradeEndsFor ⟦<DirDisk<F> as Disk>⟧ folder.now (O.contents out.old)
        (O.contents out.new) (E.contents err.old) (E.contents err.new) result }
{
    match upgrade_folder(rt, folder, out) {
        Ok(()) => 0,
        Err(failure) => report_upgrade(err, failure),
    }
}

/// Does what words ask for that name `upgrade`, and answers the exit status.
pub fn serve_upgrade<F, O: Write, E: Write>(rt: &F, words: &[&str], out: &mut O, err: &mut E) -> u8
where
    F: Files<File = File> + Alloc<A = Global> + Clone + Drop,
    ensures upgraded { (folder : List ℕ) →
        upgrade_folder (map (λ w. w.now) words.now) ≡ Some folder →
        UpgradeEndsFor ⟦<DirDisk<F> as Disk>⟧ folder (O.contents out.old)
        (O.contents out.new) (E.contents err.old) (E.contents err.new) result }
    ensures unknown { upgrade_folder (map (λ w. w.now) words.now) ≡ None →
        has_option (codes "upgrade") (map (λ w. w.now) words.now) ≡ false →
        UsageIsReported (O.contents out.old) (O.contents out.new) (E.contents err.old)
        (E.contents err.new) result }
    ensures ends { UpgradeOrUsage ⟦<DirDisk<F> as Disk>⟧ (O.contents out.old)
        (O.contents out.new) (E.contents err.old) (E.contents err.new) result }
{
    match path_request(rt.alloc(), "upgrade", "DIR", words) {
        Ok(folder) => upgrade_at(rt, folder, out, err),
        Err(WordsError::Memory) => report_upgrade(err, UpgradeFailure::Memory),
        Err(WordsError::Usage) => refuse(err),
    }
}
