//! A script is run at nodes in folders.
ghost use Rattle.std.specs.Prelude.{◌≡◌, ◌⊎◌, [], IfErr, IfOk, MatchResult};
ghost use Rattle.std.specs.List.{list_any};
ghost use Rattle.lab.specs.{lines_so_far};
ghost use Rattle.client.specs.PrintedRuns.{IsReadyToRun};
ghost use Rattle.program.specs.FolderRuns.{EndsEarly, FailsInFolders, IsPrintedReport};
ghost use Rattle.program.specs.FolderRuns.{IsRunInFolders, IsRunThatStops, LoopHasFailed};
ghost use Rattle.program.specs.FolderRuns.{ReportFails, SpellsStatements, has_stop, is_stop};
ghost use Rattle.program.specs.declared.failure.Failure.TheVariants.{Memory, Output};
ghost use Rattle.program.specs.declared.folder_failure.LoopFailure.TheVariants.{Network, Run};

use crate::failure::Failure;
use crate::folder_failure::LoopFailure;
use crate::run_input::input_script;
use client::run_script;
use dir_disk::DirDisk;
use disk::{Crash, Disk};
use folder_nodes::nodes_in;
use lab::{Carrier, Line, Lines, World};
use scripts::Script;
use std::alloc::Global;
use std::fs::File;
use std::io::{ErrorKind, Read, Write};
use std::net::{Net, TcpListener, TcpStream};
use std::rt::Files;
use tcp_carrier::TcpCarrier;

/// Any free port of this machine's own network.
const ADDRESS: &str = "127.0.0.1:0";

/// What carries between the nodes of a run, over a listener of its own.
fn carrier<N>(rt: &N) -> Result<TcpCarrier<N>, LoopFailure>
where
    N: Net<Listener = TcpListener, Stream = TcpStream> + Clone + Drop,
    ensures { IfErr result (λ failure. (failure ≡ Run Memory) ⊎ (failure ≡ Network)) }
{
    let Ok(own) = rt.clone() else {
        return Err(LoopFailure::Run(Failure::Memory));
    };
    match TcpListener::bind(rt, ADDRESS) {
        Ok(listener) => Ok(TcpCarrier::new(own, listener)),
        Err(e) if e.kind() == ErrorKind::OutOfMemory => Err(LoopFailure::Run(Failure::Memory)),
        Err(_) => Err(LoopFailure::Network),
    }
}

/// Whether the line says that a node stopped by itself.
fn is_stop(line: &Line) -> bool
    ensures { result ≡ is_stop line.now }
{
    matches!(line, Line::Stopped { cause: Some(_), .. })
}

/// Whether one of these lines says that a node stopped by itself.
fn has_stop_line(lines: &[Line]) -> bool
    ensures { result ≡ list_any is_stop lines.now }
{
    lines.iter().any(|line| is_stop(line))
}

/// Whether a node stopped by itself in one of the steps.
fn has_stop(steps: &[Lines]) -> bool
    ensures { result ≡ has_stop steps.now }
{
    steps.iter().any(|step| has_stop_line(step.as_slice()))
}

/// Runs a script in a world that has run nothing yet, and answers whether a node stopped by itself.
fn run_world<D: Crash + Drop, C: Carrier + Drop, W: Write>(
    alloc: Global,
    script: &Script,
    mut world: World<D, C>,
    out: &mut W,
) -> Result<bool, Failure>
    ensures run { IsReadyToRun C.Carrier world script.now.setup script.now.statements.items →
        IfOk result (IsRunThatStops D.Disk C.Carrier script.now.setup
        script.now.statements.items (W.contents out.old) (W.contents out.new)) }
    ensures failed { IsReadyToRun C.Carrier world script.now.setup script.now.statements.items →
        IfErr result (EndsEarly D.Disk C.Carrier script.now.setup script.now.statements.items
        (W.contents out.old) (W.contents out.new)) }
    ensures cause { IfErr result (λ failure. (failure ≡ Output) ⊎ (failure ≡ Memory)) }

    // In any world that has no line yet.
    ensures printed { lines_so_far world ≡ [] → MatchResult result
        (IsPrintedReport C.Carrier world script.now.statements.items (W.contents out.old)
        (W.contents out.new))
        (ReportFails C.Carrier world script.now.statements.items (W.contents out.old)
        (W.contents out.new)) }
{
    let ran = run_script(alloc, script, &mut world, out);
    let stopped = has_stop(world.report());
    world.close();
    ran?;
    Ok(stopped)
}

/// Finds the nodes of a script in the folders of this one, runs it at them and writes what happens,
/// statement by statement. It answers whether a node stopped by itself.
fn run_at_nodes<F, W: Write>(
    rt: &F,
    script: &Script,
    folder: &str,
    out: &mut W,
) -> Result<bool, LoopFailure>
where
    F: Files<File = File> + Net<Listener = TcpListener, Stream = TcpStream>,
    F: Alloc<A = Global> + Clone + Drop,
    ensures printed { IfOk result (IsRunInFolders ⟦<DirDisk<F> as Disk>⟧ folder.now
        script.now.setup script.now.statements.items (W.contents out.old) (W.contents out.new)) }
    ensures failed { IfErr result (FailsInFolders ⟦<DirDisk<F> as Disk>⟧ folder.now
        script.now.setup script.now.statements.items (W.contents out.old) (W.contents out.new)) }
{
    let (alloc, setup) = (rt.alloc(), &script.setup);
    let Ok(configs) = setup.configs.clone(alloc) else {
        return Err(LoopFailure::Run(Failure::Memory));
    };
    let nodes = nodes_in(rt, folder, &configs, &setup.limits)?;
    let carrier = carrier(rt)?;
    let world = World::over(alloc, configs, nodes, carrier, &setup.limits);
    Ok(run_world(alloc, script, world, out)?)
}

/// Reads a script whole, finds its nodes in the folders of this one, runs it at them and writes
/// what happens, statement by statement. It answers whether a node stopped by itself.
pub fn run_in_folders<F, R: Read, W: Write>(
    rt: &F,
    input: &mut R,
    folder: &str,
    out: &mut W,
) -> Result<bool, LoopFailure>
where
    F: Files<File = File> + Net<Listener = TcpListener, Stream = TcpStream>,
    F: Alloc<A = Global> + Clone + Drop,
    ensures printed { IfOk result (λ stopped. SpellsStatements (R.remaining input.old)
        (λ setup statements. IsRunInFolders ⟦<DirDisk<F> as Disk>⟧ folder.now setup statements
        (W.contents out.old) (W.contents out.new) stopped)) }
    ensures failed { IfErr result (LoopHasFailed ⟦<DirDisk<F> as Disk>⟧ folder.now
        (R.remaining input.old) (W.contents out.old) (W.contents out.new)) }
{
    let alloc = rt.alloc();
    let mut text = Vec::new(alloc);
    let script = input_script(alloc, input, false, &mut text)?;
    let ran = run_at_nodes(rt, &script, folder, out);
    drop(script);
    drop(text);
    ran
}
