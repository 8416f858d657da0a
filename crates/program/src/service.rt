//! From the words `lab SCRIPT` and streams to the exit status.
ghost use Rattle.std.specs.Prelude.{◌≡◌, ◌≢◌, ℕ, List, false, map, codes, Some, None};
ghost use Rattle.std.specs.Prelude.{IfOk, OnOk, OnErr};
ghost use Rattle.std.specs.Io.KnownBytes.{Appends};
ghost use Rattle.program.specs.Failures.{failure_line};
ghost use Rattle.program.specs.Invocations.{has_option, lab_script, usage_line};
ghost use Rattle.store_texts.specs.Writing.{AppendsPart};
ghost use Rattle.program.specs.Runs.{FailureIsReported, LabOrUsage};
ghost use Rattle.program.specs.Runs.{RunEnds, RunEndsAs, UsageIsReported};

use crate::failure::Failure;
use crate::invocation::{Invocation, WordsError, invocation_of};
use crate::run_input::run_input;
use arrayvec::ArrayVec;
use std::alloc::Global;
use std::fs::OpenOptions;
use std::io::{self, Read, Write};
use std::rt::Files;
use store_texts::print;

/// The line for words that ask for nothing.
const USAGE: &str = "usage: chainstore lab SCRIPT | loop SCRIPT --dir D | dump DIR | upgrade DIR\n";

/// Room for the line of a failure: each is shorter.
pub const LINE: usize = 64;

/// Does what words ask for that name `lab` or no command, and answers the exit status: 0 for a
/// run, whatever became of its nodes, 1 for a fault in script, output or memory, 2 for words that
/// ask for nothing. A fault is reported in one line on `err`.
pub fn serve_lab<F: Files + Alloc<A = Global>, R: Read, O: Write, E: Write>(
    rt: &F,
    words: &[&str],
    input: &mut R,
    out: &mut O,
    err: &mut E,
) -> u8
    ensures input { lab_script (map (λ w. w.now) words.now) ≡ Some (codes "-") →
        RunEndsAs (R.remaining input.old) (O.contents out.old) (O.contents out.new)
        (E.contents err.old) (E.contents err.new) result }
    ensures path { (path : List ℕ) → lab_script (map (λ w. w.now) words.now) ≡ Some path →
        path ≢ codes "-" → (input.new ≡ input.old) × RunEndsAs None (O.contents out.old)
        (O.contents out.new) (E.contents err.old) (E.contents err.new) result }
    ensures unknown { lab_script (map (λ w. w.now) words.now) ≡ None →
        has_option (codes "lab") (map (λ w. w.now) words.now) ≡ false → (input.new ≡ input.old)
        × UsageIsReported (O.contents out.old) (O.contents out.new) (E.contents err.old)
        (E.contents err.new) result }
    ensures usage { result ≡ 2 → input.new ≡ input.old }
    ensures ends { LabOrUsage (O.contents out.old) (O.contents out.new)
        (E.contents err.old) (E.contents err.new) result }
{
    match invocation_of(rt.alloc(), words) {
        Ok(Invocation::Input) => serve_script(rt.alloc(), input, out, err).unwrap_or(1),
        Ok(Invocation::Script(path)) => match OpenOptions::new().read(true).open(rt, path) {
            Ok(mut file) => serve_script(rt.alloc(), &mut file, out, err).unwrap_or(1),
            Err(_) => report(err, Failure::Unreadable),
        },
        Err(WordsError::Memory) => report(err, Failure::Memory),
        Err(WordsError::Usage) => refuse(err),
    }
}

/// The status for words that ask for nothing. Standard error may take only a beginning of the usage
/// line.
pub fn refuse<E: Write>(err: &mut E) -> u8
    ensures status { result ≡ 2 }
    ensures text { AppendsPart (E.contents err.old) (E.contents err.new) usage_line }
{
    let _ = print(USAGE.as_bytes(), err);
    2
}

/// The status where nothing could be run. Standard error may take only a beginning of the line.
pub fn report<E: Write>(err: &mut E, failure: Failure) -> u8
    ensures status { result ≡ 1 }
    ensures text { AppendsPart (E.contents err.old) (E.contents err.new) (failure_line failure) }
{
    let _ = write_failure(err, failure);
    1
}

/// Writes why a run ended early.
fn write_failure<E: Write>(err: &mut E, failure: Failure) -> io::Result<()>
    ensures text { OnOk result (Appends (E.contents err.old) (E.contents err.new)
        (failure_line failure)) }
    ensures part { AppendsPart (E.contents err.old) (E.contents err.new) (failure_line failure) }
{
    let mut line = ArrayVec::<u8, LINE>::new();
    writeln!(line, "{failure}")?;
    print(line.as_slice(), err)
}

/// Runs a script, and answers the status. It is refused only where standard error is.
pub fn serve_script<R: Read, O: Write, E: Write>(
    alloc: Global,
    input: &mut R,
    out: &mut O,
    err: &mut E,
) -> io::Result<u8>
    ensures ended { IfOk result (RunEnds (R.remaining input.old) (O.contents out.old)
        (O.contents out.new) (E.contents err.old) (E.contents err.new)) }
    ensures refused { OnErr result (FailureIsReported (R.remaining input.old) (O.contents out.old)
        (O.contents out.new) 1 (AppendsPart (E.contents err.old) (E.contents err.new))) }
{
    match run_input(alloc, input, out) {
        Ok(()) => Ok(0),
        Err(failure) => {
            write_failure(err, failure)?;
            Ok(1)
        }
    }
}
