//! The program `pbs-desk FOLDER WORDS`: the files of a folder, standard input and standard output.
#![tactic(auto)]

mod award;
mod calendars_command;
mod calendars_main;
mod calendars_words;
mod collect_command;
mod collect_words;
mod diff_command;
mod diff_main;
mod diff_words;
mod explain_command;
mod help;
mod history_command;
mod history_main;
mod history_notes;
mod history_words;
mod import_before;
mod import_command;
mod import_main;
mod import_words;
mod lint_command;
mod names_file;
mod packet_command;
mod page_command;
mod page_words;
mod report_command;
mod runner;
mod since_command;
mod spots;
mod status;
mod stops;
mod words;
mod writing;

use crate::calendars_main::calendars_in_folders;
use crate::collect_command::run_collect;
use crate::collect_words::CollectWords;
use crate::diff_main::{diff_with, page_since};
use crate::history_main::history_into;
use crate::import_main::import_from;
use crate::runner::{run, run_explain};
use crate::status::DeskStatus;
use crate::words::{DeskCommand, Request, request_of};
use shelf::{FolderShelf, OutSink, Sink};
use std::alloc::AllocError;
use std::fs::Files;
use std::io::{Input, Read};
use std::process::ExitCode;
use std::rt::Env;
use std::{env, io};

/// The words behind the program's own name, or none where one of them is not UTF-8.
fn command_line(rt: &(impl Env + AllocGlobal)) -> Result<Vec<String>, AllocError> {
    let mut words = Vec::new(rt.alloc());
    match env::args(rt) {
        Ok(all) => {
            for word in all.skip(1) {
                words.push(word)?;
            }
        }
        Err(error) => {
            if error.kind() == io::ErrorKind::OutOfMemory {
                return Err(AllocError);
            }
        }
    }
    Ok(words)
}

/// What the program is asked to do.
fn asked_for(rt: &(impl Env + AllocGlobal)) -> Result<Request, AllocError> {
    let words = command_line(rt)?;
    request_of(rt.alloc(), &words)
}

/// All of standard input; what was read of it where it breaks off.
fn standard_input(rt: &(impl Input + AllocGlobal)) -> Vec<u8> {
    let mut bytes = Vec::new(rt.alloc());
    match rt.reader().read_to_end(&mut bytes) {
        Ok(_) => bytes,
        Err(_) => bytes,
    }
}

/// What the program was built from, where its script says so.
fn built_from(rt: &(impl Env + AllocGlobal)) -> String {
    match env::var(rt, "PBS_BUILT_FROM") {
        Ok(built) => built,
        Err(_) => String::new(rt.alloc()),
    }
}

/// Makes the text of bids of what lies in other folders.
fn collected<'a, R: Files + AllocGlobal>(
    rt: &'a R,
    shelf: &mut FolderShelf<'a, R>,
    out: &mut impl Sink,
    words: CollectWords,
) -> DeskStatus {
    let CollectWords {
        sheets,
        standing,
        is_forced,
    } = words;
    let mut sheets = FolderShelf::new(rt, sheets);
    match standing {
        Some(folder) => {
            let mut old = FolderShelf::new(rt, folder);
            run_collect(
                rt.alloc(),
                shelf,
                &mut sheets,
                Some(&mut old),
                out,
                is_forced,
            )
        }
        None => run_collect(rt.alloc(), shelf, &mut sheets, None, out, is_forced),
    }
}

/// Does what a command asks of a folder.
fn run_over<R: Files + Input + Env + AllocGlobal>(
    rt: &R,
    folder: String,
    command: DeskCommand,
    out: &mut impl Sink,
) -> DeskStatus {
    let mut shelf = FolderShelf::new(rt, folder);
    match command {
        DeskCommand::ExplainInput => run_explain(rt.alloc(), &mut shelf, out, &standard_input(rt)),
        DeskCommand::Diff(other) => diff_with(rt, &mut shelf, other.as_str(), out),
        DeskCommand::PageSince(other) => {
            let built = built_from(rt);
            page_since(rt, &mut shelf, other.as_str(), out, built.as_bytes())
        }
        DeskCommand::Collect(words) => collected(rt, &mut shelf, out, words),
        DeskCommand::History(words) => history_into(rt, &mut shelf, words, out),
        DeskCommand::Import(words) => import_from(rt, &mut shelf, &words, out),
        command => run(
            rt.alloc(),
            &mut shelf,
            out,
            &command,
            built_from(rt).as_bytes(),
        ),
    }
}

fn main(rt: HostRuntime) -> ExitCode {
    let mut out = OutSink::new(io::writer(&rt));
    let Ok(request) = asked_for(&rt) else {
        return ExitCode::from(DeskStatus::NoMemory.code());
    };
    let Request { folder, command } = request;
    let status = match command {
        DeskCommand::Calendars(old) => {
            calendars_in_folders(&rt, folder.as_str(), old.as_ref(), &mut out)
        }
        command => run_over(&rt, folder, command, &mut out),
    };
    ExitCode::from(status.code())
}
