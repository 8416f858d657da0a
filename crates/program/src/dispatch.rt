//! From the program's words and streams to its exit status.
ghost use Rattle.std.specs.Prelude.{◌≡◌, ◌≢◌, ℕ, List, map, codes, Some, None};
ghost use Rattle.program.specs.FolderRuns.{FolderWordsEnd, LeavesInput, LoopEndsFor, ProgramEnds};
ghost use Rattle.program.specs.Invocations.{AsksForNothing, lab_script, loop_paths};
ghost use Rattle.program.specs.Runs.{RunEndsAs, UsageIsReported};

use crate::folder_service::{serve_dump, serve_loop, serve_upgrade};
use crate::invocation::is_named;
use crate::service::serve_lab;
use dir_disk::{DirDisk, Unchanged};
use disk::Disk;
use std::alloc::Global;
use std::fs::File;
use std::io::{Read, Write};
use std::net::{Net, TcpListener, TcpStream};
use std::rt::Files;

/// Does what the words ask for, and answers the exit status: 0 for a run, for what a store has, or
/// for one of format 2; 1 for a fault in script, folder, network, output or memory, and of a run in
/// folders also where a node stopped by itself; 2 for words that ask for nothing. A fault is
/// reported in one line on `err`.
pub fn serve<F, R: Read, O: Write, E: Write>(
    rt: &F,
    words: &[&str],
    input: &mut R,
    out: &mut O,
    err: &mut E,
) -> u8
where
    F: Files<File = File> + Net<Listener = TcpListener, Stream = TcpStream>,
    F: Alloc<A = Global> + Clone + Drop,
    // The words `lab SCRIPT` in their plain forms.
    ensures input { lab_script (map (λ w. w.now) words.now) ≡ Some (codes "-") →
        RunEndsAs (R.remaining input.old) (O.contents out.old) (O.contents out.new)
        (E.contents err.old) (E.contents err.new) result }
    ensures path { (path : List ℕ) → lab_script (map (λ w. w.now) words.now) ≡ Some path →
        path ≢ codes "-" → (input.new ≡ input.old) × RunEndsAs None (O.contents out.old)
        (O.contents out.new) (E.contents err.old) (E.contents err.new) result }
    ensures unknown { AsksForNothing (map (λ w. w.now) words.now) → (input.new ≡ input.old)
        × UsageIsReported (O.contents out.old) (O.contents out.new) (E.contents err.old)
        (E.contents err.new) result }

    // The words `loop SCRIPT --dir D`, `dump DIR` and `upgrade DIR` in their plain forms.
    ensures looped { (script folder : List ℕ) →
        loop_paths (map (λ w. w.now) words.now) ≡ Some (script, folder) →
        LoopEndsFor ⟦<DirDisk<F> as Disk>⟧ script folder input.old input.new
        (R.remaining input.old) (O.contents out.old) (O.contents out.new) (E.contents err.old)
        (E.contents err.new) result }
    ensures folders { FolderWordsEnd ⟦<DirDisk<F> as Disk>⟧ ⟦<Unchanged<DirDisk<F>> as Disk>⟧
        (map (λ w. w.now) words.now) input.old input.new (O.contents out.old) (O.contents out.new)
        (E.contents err.old) (E.contents err.new) result }

    // All words, by the command that they name.
    ensures ends { ProgramEnds ⟦<DirDisk<F> as Disk>⟧ ⟦<Unchanged<DirDisk<F>> as Disk>⟧
        (map (λ w. w.now) words.now) (O.contents out.old) (O.contents out.new)
        (E.contents err.old) (E.contents err.new) result }
    ensures left { LeavesInput (map (λ w. w.now) words.now) input.old input.new result }
{
    if is_named("loop", words) {
        return serve_loop(rt, words, input, out, err);
    }
    if is_named("dump", words) {
        return serve_dump(rt, words, out, err);
    }
    if is_named("upgrade", words) {
        return serve_upgrade(rt, words, out, err);
    }
    serve_lab(rt, words, input, out, err)
}
