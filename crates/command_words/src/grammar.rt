//! The commands, as `clap` is told of them.
ghost use Rattle.std.specs.Prelude.{◌≡◌, true, false, None, IfOk, IfSome, IsOkAnd, codes};
ghost use Rattle.clap.specs.Words.{AddsSubcommand, app_of, new_app, rule_of, subcommand_rows_of, subcommand_of, takes, with_rule};
ghost use Rattle.command_words.specs.Found.{words_of};
ghost use Rattle.command_words.specs.Reading.{nodes_rule, needed_rule, one_app, sized_app, month_commands, made_commands, desk_commands, commands};

use clap::error::ErrorKind;
use clap::{Arg, ArgMatches, Command as Grammar};
use duty_calendar::Memory;
use std::alloc::{AllocError, Global};

/// The option `--nodes N`.
fn nodes<'w>(alloc: Global) -> Arg<'w>
    ensures rule { rule_of result ≡ nodes_rule }
    ensures here { result.global ≡ false }
{
    Arg::new(alloc, "nodes").long("nodes")
}

/// An argument that may not be left out.
fn needed<'w>(alloc: Global, id: &'w str) -> Arg<'w>
    ensures rule { rule_of result ≡ needed_rule id.entry.now }
    ensures here { result.global ≡ false }
{
    Arg::new(alloc, id).required(true)
}

/// A command with one argument or option.
fn with_one<'w>(alloc: Global, name: &'w str, argument: Arg<'w>) -> Result<Grammar<'w>, AllocError>
    requires here { argument.global ≡ false }
    ensures shape { IfOk result (λ c. app_of c
        ≡ with_rule (new_app name.entry.now) (rule_of argument.entry)) }
{
    Grammar::new(alloc, name).arg(argument)
}

/// A command with one argument and the option.
fn with_nodes<'w>(alloc: Global, name: &'w str, id: &'w str) -> Result<Grammar<'w>, AllocError>
    ensures shape { IfOk result (λ c. app_of c
        ≡ with_rule (one_app name.entry.now id.entry.now) nodes_rule) }
{
    let one = with_one(alloc, name, needed(alloc, id))?;
    one.arg(nodes(alloc))
}

/// A command with the sizes of a month.
fn with_sizes<'w>(alloc: Global, name: &'w str) -> Result<Grammar<'w>, AllocError>
    ensures shape { IfOk result (λ c. app_of c ≡ sized_app name.entry.now) }
{
    let first = with_one(alloc, name, needed(alloc, "number"))?;
    let second = first.arg(needed(alloc, "members"))?;
    second.arg(needed(alloc, "pairings"))
}

/// The command `trial`.
fn trial<'w>(alloc: Global) -> Result<Grammar<'w>, AllocError>
    ensures shape { IfOk result (λ c. app_of c ≡ with_rule (sized_app (codes "trial")) nodes_rule) }
{
    let sized = with_sizes(alloc, "trial")?;
    sized.arg(nodes(alloc))
}

/// The program with a command more.
fn and_command<'w>(
    program: Grammar<'w>,
    command: Result<Grammar<'w>, AllocError>,
) -> Result<Grammar<'w>, AllocError>
    ensures shape { IfOk result (λ r.
        IsOkAnd command.entry (λ c. AddsSubcommand program.entry c r)) }
{
    match command {
        Ok(command) => program.subcommand(command),
        Err(error) => Err(error),
    }
}

/// The program with the commands for a month that is there.
fn with_month<'w>(alloc: Global) -> Result<Grammar<'w>, AllocError>
    ensures shape { IfOk result (λ c. app_of c ≡ month_commands) }
{
    let program = Grammar::new(alloc, "pbs").subcommand(Grammar::new(alloc, "check"))?;
    let program = and_command(program, with_one(alloc, "award", nodes(alloc)))?;
    and_command(program, with_one(alloc, "show", needed(alloc, "member")))
}

/// The program with these and with the commands for a month that is made.
fn with_made<'w>(alloc: Global) -> Result<Grammar<'w>, AllocError>
    ensures shape { IfOk result (λ c. app_of c ≡ made_commands) }
{
    let month = with_month(alloc)?;
    let made = and_command(month, with_sizes(alloc, "make"))?;
    and_command(made, trial(alloc))
}

/// The program with these and with the commands for an award that stands.
fn with_desk<'w>(alloc: Global) -> Result<Grammar<'w>, AllocError>
    ensures shape { IfOk result (λ c. app_of c ≡ desk_commands) }
{
    let made = with_made(alloc)?;
    let first = made.subcommand(Grammar::new(alloc, "migrate"))?;
    let second = first.subcommand(Grammar::new(alloc, "trade"))?;
    and_command(second, with_one(alloc, "calendar", needed(alloc, "member")))
}

/// The commands of the program.
fn grammar<'w>(alloc: Global) -> Result<Grammar<'w>, AllocError>
    ensures shape { IfOk result (λ c. app_of c ≡ commands) }
{
    let desk = with_desk(alloc)?;
    let first = and_command(desk, with_nodes(alloc, "whatif", "member"))?;
    let second = and_command(first, with_nodes(alloc, "open", "lines"))?;
    and_command(second, with_one(alloc, "opencheck", needed(alloc, "lines")))
}

/// What `clap` reads from the words, of which the first is the program's name, or nothing where it
/// refuses them.
pub(crate) fn parse<'w>(
    alloc: Global,
    words: &'w [&'w str],
) -> Result<Option<ArgMatches<'w>>, Memory>
    ensures refused { IfOk result (λ read. read ≡ None
        → takes commands (words_of words.entry.now) ≡ true → ⊥) }
    ensures found { IfOk result (λ read. IfSome read (λ m.
        subcommand_rows_of m ≡ subcommand_of commands (words_of words.entry.now))) }
{
    let commands = grammar(alloc)?;
    match commands.try_get_matches_from(words) {
        Ok(matches) => Ok(Some(matches)),
        Err(error) => {
            if error.kind() == ErrorKind::OutOfMemory {
                Err(Memory::NoMemory)
            } else {
                Ok(None)
            }
        }
    }
}
