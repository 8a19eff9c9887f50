//! The program `pbs-page FOLDER`: the files of a folder, and standard output.
#![tactic(auto)]

mod ending;
mod runner;

use crate::runner::{run, run_usage};
use answer_texts::Status;
use shelf::{FolderShelf, OutSink};
use std::alloc::AllocError;
use std::process::ExitCode;
use std::rt::Env;
use std::{env, io};

/// The words behind the program's own name, or none where one of them is not UTF-8.
fn command_line(rt: &(impl Env + AllocGlobal)) -> Result<Vec<String>, AllocError> {
    let mut words = Vec::new(rt.alloc());
    match env::args(rt) {
        Ok(all) => {
            for word in all.skip(1) {
                words.push(word)?;
            }
        }
        Err(error) => {
            if error.kind() == io::ErrorKind::OutOfMemory {
                return Err(AllocError);
            }
        }
    }
    Ok(words)
}

/// The folder, where it is the only word.
fn only_folder(rt: &(impl Env + AllocGlobal)) -> Result<Option<String>, AllocError> {
    let mut words = command_line(rt)?;
    if words.len() != 1 {
        return Ok(None);
    }
    Ok(words.pop())
}

/// What the program was built from, where its script says so.
fn built_from(rt: &(impl Env + AllocGlobal)) -> String {
    match env::var(rt, "PBS_BUILT_FROM") {
        Ok(built) => built,
        Err(_) => String::new(rt.alloc()),
    }
}

fn main(rt: HostRuntime) -> ExitCode {
    let mut out = OutSink::new(io::writer(&rt));
    let status = match only_folder(&rt) {
        Err(_) => Status::NoMemory,
        Ok(None) => run_usage(rt.alloc(), &mut out),
        Ok(Some(folder)) => run(
            rt.alloc(),
            &mut FolderShelf::new(&rt, folder),
            &mut out,
            built_from(&rt).as_bytes(),
        ),
    };
    ExitCode::from(status.code())
}
