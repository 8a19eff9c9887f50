//! The program `pbs FOLDER WORDS`: the files of a folder, and standard output.
#![tactic(auto)]

use node_guesses::MixGuide;
use pbs_engine::{Status, run};
use shelf::{FolderShelf, OutSink};
use std::alloc::AllocError;
use std::process::ExitCode;
use std::rt::Env;
use std::{env, io};
use weight_certificates::Rounds;

/// The words behind the program's own name, or none where one of them is not UTF-8.
fn command_line(rt: &(impl Env + AllocGlobal)) -> Result<Vec<String>, AllocError> {
    let mut words = Vec::new(rt.alloc());
    match env::args(rt) {
        Ok(all) => {
            for word in all.skip(1) {
                words.push(word)?;
            }
        }
        Err(error) => {
            if error.kind() == io::ErrorKind::OutOfMemory {
                return Err(AllocError);
            }
        }
    }
    Ok(words)
}

/// The folder, which is the first word, and the words behind it. Without words the folder is `.`.
fn folder_and_words(rt: &(impl Env + AllocGlobal)) -> Result<(String, Vec<String>), AllocError> {
    let mut words = command_line(rt)?;
    if words.is_empty() {
        return Ok((String::from_str(rt.alloc(), ".")?, words));
    }
    let folder = words.remove(0);
    Ok((folder, words))
}

fn main(rt: HostRuntime) -> ExitCode {
    let Ok((folder, words)) = folder_and_words(&rt) else {
        return ExitCode::from(Status::NoMemory.code());
    };
    let mut shelf = FolderShelf::new(&rt, folder);
    let mut out = OutSink::new(io::writer(&rt));
    let status = run::<Rounds<MixGuide>, _, _>(rt.alloc(), &words, &mut shelf, &mut out);
    ExitCode::from(status.code())
}
