//! A run: a command, and what is said of it. Each command has a file of its own.
ghost use Rattle.std.specs.Prelude.{◌≡◌};
ghost use Rattle.desk_cli.specs.DeskFiles.{Leaves};

use crate::explain_command::explain_all;
use crate::help::{put_help, put_usage};
use crate::lint_command::say_lint;
use crate::packet_command::run_packet;
use crate::page_command::{run_page, run_pilot_page};
use crate::report_command::run_report;
use crate::status::DeskStatus;
use crate::words::DeskCommand;
use duty_calendar::Memory;
use file_places::Prose;
use shelf::{Shelf, Sink, SinkFault};
use std::alloc::Global;

/// Puts what is said, and says how the run ends.
pub fn say<O: Sink>(out: &mut O, prose: &Prose, status: DeskStatus) -> DeskStatus {
    match out.put(prose.as_slice()) {
        Ok(()) => status,
        Err(SinkFault::PutFailed) => DeskStatus::WriteFault,
        Err(SinkFault::NoMemory) => DeskStatus::NoMemory,
    }
}

/// Says what each line of a text says. No file is written.
pub fn run_explain<S: Shelf, O: Sink>(
    alloc: Global,
    shelf: &mut S,
    out: &mut O,
    text: &[u8],
) -> DeskStatus
    ensures kept { S.holds shelf.new ≡ S.holds shelf.old }
{
    let mut prose = Prose::new(alloc);
    match explain_all(alloc, shelf, &mut prose, text) {
        Ok(status) => say(out, &prose, status),
        Err(Memory::NoMemory) => DeskStatus::NoMemory,
    }
}

/// Appends what each command is for.
fn say_help(prose: &mut Prose) -> Result<DeskStatus, Memory> {
    put_help(prose)?;
    Ok(DeskStatus::Done)
}

/// Appends how the program is called.
fn say_usage(prose: &mut Prose) -> Result<DeskStatus, Memory> {
    put_usage(prose)?;
    Ok(DeskStatus::Faulty)
}

/// Does what a command asks, and appends what it says. What more standard input or other folders hold is not looked at here.
fn answer<S: Shelf>(
    alloc: Global,
    shelf: &mut S,
    prose: &mut Prose,
    command: &DeskCommand,
    built: &[u8],
) -> Result<DeskStatus, Memory>
    ensures left { Leaves command.now (S.holds shelf.old) (S.holds shelf.new) }
{
    match command {
        DeskCommand::Explain(line) => explain_all(alloc, shelf, prose, line.as_bytes()),
        DeskCommand::Lint => say_lint(alloc, shelf, prose),
        DeskCommand::Page => run_page(alloc, shelf, prose, built),
        DeskCommand::PilotPage(name) => run_pilot_page(alloc, shelf, prose, name.as_str(), built),
        DeskCommand::Packet => run_packet(alloc, shelf, prose, built),
        DeskCommand::Report => run_report(alloc, shelf, prose, built),
        DeskCommand::ExplainInput | DeskCommand::Collect(_) => Ok(DeskStatus::Done),
        DeskCommand::Diff(_) | DeskCommand::PageSince(_) => Ok(DeskStatus::Done),
        DeskCommand::Calendars(_) | DeskCommand::History(_) => Ok(DeskStatus::Done),
        DeskCommand::Import(_) => Ok(DeskStatus::Done),
        DeskCommand::Help => say_help(prose),
        DeskCommand::Usage => say_usage(prose),
    }
}

/// Does what a command asks, and puts what it says. `built` says what the program was built from, or nothing.
pub fn run<S: Shelf, O: Sink>(
    alloc: Global,
    shelf: &mut S,
    out: &mut O,
    command: &DeskCommand,
    built: &[u8],
) -> DeskStatus
    ensures left { Leaves command.now (S.holds shelf.old) (S.holds shelf.new) }
{
    let mut prose = Prose::new(alloc);
    match answer(alloc, shelf, &mut prose, command, built) {
        Ok(status) => say(out, &prose, status),
        Err(Memory::NoMemory) => DeskStatus::NoMemory,
    }
}
