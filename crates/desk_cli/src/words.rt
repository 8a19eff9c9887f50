//! The words of the command line. Each command has its grammar and its words in a file of its own.

use crate::calendars_words::{calendars_grammar, calendars_words};
use crate::collect_words::{CollectWords, collect_grammar, collect_words};
use crate::diff_words::{diff_grammar, diff_words};
use crate::history_words::{HistoryWords, history_grammar, history_words};
use crate::import_words::{ImportWords, import_grammar, import_words};
use crate::page_words::{page_grammar, page_words};
use clap::error::ErrorKind;
use clap::{ArgMatches, Command as Grammar};
use std::alloc::{AllocError, Global};

/// What the desk is asked to do.
#[derive(Drop)]
pub enum DeskCommand {
    /// Say what this line says.
    Explain(String),
    /// Say what each line of standard input says.
    ExplainInput,
    /// Say what is wrong with the files, and what looks wrong.
    Lint,
    /// Write the page of the month.
    Page,
    /// Write the page of the month, with what is otherwise than in another folder, or in a roster's file.
    PageSince(String),
    /// Write the page of the pilot of this name.
    PilotPage(String),
    /// Write the page of what can be bid for.
    Packet,
    /// Make the text of bids of what each pilot sent.
    Collect(CollectWords),
    /// Write the report for planners.
    Report,
    /// Say what is otherwise than in another folder, or in a roster's file.
    Diff(String),
    /// Write a calendar for each pilot, and cancel what fell away since another folder where one is named.
    Calendars(Option<String>),
    /// Make the month the past of the next one, in another folder.
    History(HistoryWords),
    /// Make a file of the month of a sheet of a spreadsheet.
    Import(ImportWords),
    /// Say what each command is for.
    Help,
    /// Say that the words are no command.
    Usage,
}

/// A folder, and what is asked of it.
#[derive(Drop)]
pub struct Request {
    pub folder: String,
    pub command: DeskCommand,
}

/// A program with a command more.
fn and_command<'w>(
    program: Grammar<'w>,
    command: Result<Grammar<'w>, AllocError>,
) -> Result<Grammar<'w>, AllocError> {
    match command {
        Ok(command) => program.subcommand(command),
        Err(error) => Err(error),
    }
}

/// The program with the commands of one word.
fn with_lone<'w>(alloc: Global) -> Result<Grammar<'w>, AllocError> {
    let program = Grammar::new(alloc, "pbs-desk").subcommand(Grammar::new(alloc, "lint"))?;
    let program = program.subcommand(Grammar::new(alloc, "packet"))?;
    program.subcommand(Grammar::new(alloc, "report"))
}

/// A program with the commands over other folders.
fn with_others<'w>(alloc: Global, program: Grammar<'w>) -> Result<Grammar<'w>, AllocError> {
    let program = and_command(program, diff_grammar(alloc))?;
    let program = and_command(program, history_grammar(alloc))?;
    let program = and_command(program, import_grammar(alloc))?;
    and_command(program, calendars_grammar(alloc))
}

/// The commands, but for `explain` and `help`, behind which any words may stand.
fn grammar<'w>(alloc: Global) -> Result<Grammar<'w>, AllocError> {
    let program = with_lone(alloc)?;
    let program = and_command(program, page_grammar(alloc))?;
    let program = with_others(alloc, program)?;
    and_command(program, collect_grammar(alloc))
}

/// What `clap` reads from the words, of which the first is the program's name, or nothing where it refuses them.
fn parse<'w>(alloc: Global, words: &'w [&'w str]) -> Result<Option<ArgMatches<'w>>, AllocError> {
    let commands = grammar(alloc)?;
    match commands.try_get_matches_from(words) {
        Ok(matches) => Ok(Some(matches)),
        Err(error) => {
            if error.kind() == ErrorKind::OutOfMemory {
                return Err(AllocError);
            }
            Ok(None)
        }
    }
}

/// The command of a name, with what was read behind it.
fn named(alloc: Global, name: &str, found: &ArgMatches<'_>) -> Result<DeskCommand, AllocError> {
    match name {
        "lint" => Ok(DeskCommand::Lint),
        "page" => page_words(alloc, found),
        "packet" => Ok(DeskCommand::Packet),
        "collect" => collect_words(alloc, found),
        "diff" => diff_words(alloc, found),
        "calendars" => calendars_words(alloc, found),
        "history" => history_words(alloc, found),
        "import" => import_words(alloc, found),
        "report" => Ok(DeskCommand::Report),
        _ => Ok(DeskCommand::Usage),
    }
}

/// The command of these words, behind the program's name.
fn command_of(alloc: Global, texts: &[&str]) -> Result<DeskCommand, AllocError> {
    let Some(matches) = parse(alloc, texts)? else {
        return Ok(DeskCommand::Usage);
    };
    let Some((name, found)) = matches.subcommand() else {
        return Ok(DeskCommand::Usage);
    };
    named(alloc, name, found)
}

/// The command of these words.
fn read(alloc: Global, words: &[String]) -> Result<DeskCommand, AllocError> {
    let mut texts = Vec::new(alloc);
    texts.push("pbs-desk")?;
    for word in words {
        texts.push(word.as_str())?;
    }
    command_of(alloc, &texts)
}

/// Words with a blank between each two.
fn joined(alloc: Global, words: &[String]) -> Result<String, AllocError> {
    let mut line = String::new(alloc);
    for word in words {
        if !line.is_empty() {
            line.push_str(" ")?;
        }
        line.push_str(word.as_str())?;
    }
    Ok(line)
}

/// The command `explain` with these words behind it.
fn explain_words(alloc: Global, words: &[String]) -> Result<DeskCommand, AllocError> {
    if words.is_empty() {
        return Ok(DeskCommand::ExplainInput);
    }
    Ok(DeskCommand::Explain(joined(alloc, words)?))
}

/// Whether a word asks for help.
fn asks_help(word: &str) -> bool {
    word == "help" || word == "--help"
}

/// The command of the words behind the folder.
fn behind(alloc: Global, words: &[String]) -> Result<DeskCommand, AllocError> {
    match words.split_first() {
        Some((name, rest)) if name.as_str() == "explain" => explain_words(alloc, rest),
        Some((name, _)) if asks_help(name.as_str()) => Ok(DeskCommand::Help),
        _ => read(alloc, words),
    }
}

/// What these words ask for: the folder is the first of them.
pub fn request_of(alloc: Global, words: &[String]) -> Result<Request, AllocError> {
    let Some((folder, rest)) = words.split_first() else {
        return Ok(Request {
            folder: String::from_str(alloc, ".")?,
            command: DeskCommand::Usage,
        });
    };
    let command = if rest.is_empty() && asks_help(folder.as_str()) {
        DeskCommand::Help
    } else {
        behind(alloc, rest)?
    };
    Ok(Request {
        folder: String::from_str(alloc, folder.as_str())?,
        command,
    })
}
