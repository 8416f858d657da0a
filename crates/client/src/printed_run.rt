//! A script is run statement by statement, and each is printed before the next begins.
ghost use Rattle.std.specs.Prelude.{◌≡◌, ◌++◌, drop, replicate, string_bytes};
ghost use Rattle.std.specs.Prelude.{OnOk, IfErr, MatchResult};
ghost use Rattle.client.specs.PrintedRuns.{HasEndedEarly, IsPrintedRun, IsReadyToRun};
ghost use Rattle.client.specs.ReportedRuns.{ReportIsCut, ReportIsPrinted};
ghost use Rattle.client.specs.Text.{result_text};

use crate::run_error::RunError;
use crate::script_run::run_statement;
use crate::statement_result::StatementResult;
use crate::text::{add_event_lines, print_result};
use disk::Crash;
use lab::{Carrier, Lines, World};
use scripts::Script;
use std::alloc::{AllocError, Global};
use std::collections::VecDeque;
use std::io::Write;
use store_texts::print;

// The lines behind so many steps.
fn behind(steps: &[Lines], count: usize) -> &[Lines]
    ensures { result.now ≡ drop count steps.now }
{
    steps.get(count..).unwrap_or(&[])
}

// Makes the text of a statement's result, in place of what stood there. Its events have their
// places behind those of the statements before it.
fn make_text(
    places: &mut Vec<u32>,
    turn: &StatementResult,
    steps: &[Lines],
    text: &mut String,
) -> Result<(), AllocError>
    ensures places { OnOk result
        (places.new.items ≡ places.old.items ++ replicate turn.now.events turn.now.line) }
    ensures text { OnOk result
        (string_bytes text.new ≡ result_text places.new.items turn.now steps.now) }
{
    add_event_lines(places, turn.line, turn.events)?;
    text.clear();
    print_result(places, turn, steps, text)
}

/// Runs the statements of a script in a world that has run nothing yet, one after another. The text
/// of each is written and flushed before the next one begins. `Write`: the output took no more of
/// the text of the last statement that was run. `Memory`: nothing is written of the statement that
/// wanted it, of which the world may have events. After an error the run can't be taken up again.
///
/// Of a world that has run events before, or whose nodes were started on what an earlier run left,
/// only `reported` is promised. The statements are run there as in any. But a flow does not deliver
/// frames that were sent before, and a reply may stand at any line: requests are numbered among all
/// events of the world, and the lines are known of this script's alone.
pub fn run_script<D: Crash + Drop, C: Carrier + Drop, W: Write>(
    alloc: Global,
    script: &Script,
    world: &mut World<D, C>,
    out: &mut W,
) -> Result<(), RunError>
    ensures printed { IsReadyToRun C.Carrier world.old script.now.setup
        script.now.statements.items → OnOk result (IsPrintedRun C.Carrier world.new
        script.now.setup script.now.statements.items (W.contents out.old) (W.contents out.new)) }
    ensures ended { IsReadyToRun C.Carrier world.old script.now.setup
        script.now.statements.items → IfErr result (λ error. HasEndedEarly C.Carrier
        error world.new script.now.setup script.now.statements.items (W.contents out.old)
        (W.contents out.new)) }

    // In any world: what is printed is the text of the lines that it reports.
    ensures reported { MatchResult result
        (λ _. ReportIsPrinted C.Carrier world.old world.new script.now.statements.items
        (W.contents out.old) (W.contents out.new))
        (λ error. ReportIsCut C.Carrier error world.old world.new script.now.statements.items
        (W.contents out.old) (W.contents out.new)) }
{
    let mut left = VecDeque::new(alloc);
    let mut places = Vec::new(alloc);
    let mut text = String::new(alloc);
    let mut before = world.report().len();
    for statement in &script.statements {
        let turn = run_statement(alloc, world, &mut left, statement)?;
        let steps = world.report();
        make_text(&mut places, &turn, behind(steps, before), &mut text)?;
        before = steps.len();
        print(text.as_bytes(), out)?;
    }
    Ok(())
}
