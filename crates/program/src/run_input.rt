//! From a script's bytes to the bytes that are printed.
ghost use Rattle.std.specs.Prelude.{◌≡◌, All, IfOk, IfErr, IfSome, OnOk};
ghost use Rattle.std.specs.Prelude.{None, true};
ghost use Rattle.script_words.specs.Lines.{script_lines};
ghost use Rattle.scripts.specs.Scripts.{IsScript, Names};
ghost use Rattle.scripts.specs.Faults.{script_fault, start};
ghost use Rattle.program.specs.Failures.{IsOfReading, IsFailureOf};
ghost use Rattle.program.specs.Runs.{IsRunOf, IsRunOfText, RunFailsSo, RunHasFailed};

use crate::failure::Failure;
use crate::reading;
use client::run_script;
use lab::World;
use scripts::{Script, read_script};
use std::alloc::Global;
use std::io::{Read, Write};
use std::mem::forget;

/// The script that is read, in which faults of disks may be spelled, or not. `kept` gets its text,
/// if that was read. The caller keeps it until the run has ended: an allocator that got back so
/// large a piece may no longer let lists grow where they are.
pub fn input_script<R: Read>(
    alloc: Global,
    input: &mut R,
    faults: bool,
    kept: &mut Vec<u8>,
) -> Result<Script, Failure>
    ensures found { IfOk result (λ script. IfSome (R.remaining input.old) (λ text.
        IsScript 1 (script_lines text) script.setup script.statements.items)) }
    ensures lawful { OnOk result (IfSome (R.remaining input.old) (λ text.
        script_fault (start faults) 1 (script_lines text) ≡ None)) }
    ensures fault { IfErr result (λ failure. IfSome (R.remaining input.old) (λ text.
        IsFailureOf faults text failure)) }
    ensures cause { IfErr result IsOfReading }
    ensures node { IfOk result (λ script.
        All (λ it. Names script.setup.configs it.action) script.statements.items) }
{
    let text = reading::script_text(alloc, input)?;
    let read = read_script(alloc, &text, faults);
    *kept = text;
    match read {
        Ok(script) => Ok(script),
        Err(fault) => Err(Failure::Script(fault)),
    }
}

/// Runs a script at nodes that are created for it, on disks in memory, and prints what happens. The
/// memory of the nodes is not freed.
fn run_in_memory<W: Write>(alloc: Global, script: &Script, out: &mut W) -> Result<(), Failure>
    requires { All (λ it. Names script.now.setup.configs it.action) script.now.statements.items }
    ensures run { OnOk result (IsRunOf script.now.setup script.now.statements.items
        (W.contents out.old) (W.contents out.new)) }
    ensures failed { IfErr result (RunFailsSo script.now.setup script.now.statements.items
        (W.contents out.old) (W.contents out.new)) }
{
    let mut world = World::new(alloc, &script.setup.configs, &script.setup.limits)?;
    let ran = run_script(alloc, script, &mut world, out);
    forget(world);
    ran?;
    Ok(())
}

/// Reads a script whole, runs it at the nodes of its configurations, and writes what happens,
/// statement by statement. The memory of a run that was begun is not freed: a process ends with it,
/// and the system frees all of that at once.
pub fn run_input<R: Read, W: Write>(
    alloc: Global,
    input: &mut R,
    out: &mut W,
) -> Result<(), Failure>
    ensures run { OnOk result (IsRunOfText (R.remaining input.old)
        (W.contents out.old) (W.contents out.new)) }
    ensures failed { IfErr result
        (RunHasFailed (R.remaining input.old) (W.contents out.old) (W.contents out.new)) }
{
    let mut text = Vec::new(alloc);
    let script = input_script(alloc, input, true, &mut text)?;
    let ran = run_in_memory(alloc, &script, out);
    forget(script);
    forget(text);
    ran
}
