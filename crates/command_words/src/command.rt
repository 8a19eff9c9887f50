//! The commands.
ghost use Rattle.std.specs.Prelude.{◌≡◌, ◌∷◌, ℕ, List as Sequence, codes, map, option_map, string_bytes, IfOk, IfSome};
ghost use Rattle.command_words.specs.Numbers.{nodes_in, sizes_in};
ghost use Rattle.command_words.specs.declared.command.Command.TheVariants.{Show, Calendar};
ghost use Rattle.command_words.specs.Words.{alone_in, command_in, HasLimits};
ghost use Rattle.command_words.specs.Spelling.{IsSpelt};
ghost use Rattle.command_words.specs.Reading.{award_read, one_read, name_read, sizes_read, make_read, trial_read, whatif_read, lines_read, open_read, opencheck_read, named_read};
ghost use Rattle.command_words.specs.Found.{texts_found, words_of, option_word};

use crate::grammar::parse;
use crate::number::{number_within, read_long};
use crate::spelling::{is_argument, stands};
use clap::ArgMatches;
use duty_calendar::{List, Memory};
use std::alloc::Global;

/// The most nodes that an award may count, and as many as it may where the words do not say.
const MOST_NODES: u32 = 20_000;

/// The most vacant lines that may be asked for.
const MOST_LINES: u32 = 50;

/// How large a made month is.
#[derive(Clone, Copy, Debug, PartialEq, Eq)]
pub struct Sizes {
    /// What the month is drawn from.
    pub number: u64,
    /// The number of members.
    pub members: u32,
    /// The number of pairings.
    pub pairings: u32,
}

/// What a run is asked to do.
#[derive(Debug, PartialEq, Eq, Drop)]
pub enum Command {
    /// Judge the award in the folder.
    Check,
    /// Award the month in the folder, with so many nodes at most.
    Award(u32),
    /// Show the month of the member with this name, in bytes.
    Show(List<u8>),
    /// Write a month of these sizes.
    Make(Sizes),
    /// Award a month of these sizes, with so many nodes at most, and write nothing.
    Trial(Sizes, u32),
    /// Write the certificate in the folder anew, in the version of today.
    Migrate,
    /// Judge the trades in the folder, and write the roster that they leave.
    Trade,
    /// Write the calendar of the member with this name, in bytes.
    Calendar(List<u8>),
    /// Award the month once more with the other bids of the member with this name, in bytes, and with so many nodes at
    /// most.
    WhatIf(List<u8>, u32),
    /// Find the fewest vacant lines, up to so many, with which the crew in the folder can fly the month, and award it with
    /// them, with so many nodes at most for each number.
    Open(u32, u32),
    /// Judge the award with so many vacant lines in the folder.
    OpenCheck(u32),
}

/// The number of nodes that an option allows.
fn nodes_allowed(option: Option<&str>) -> Option<u32>
    ensures value { result ≡ nodes_in (option_word option.entry) }
{
    match option {
        Some(word) => number_within(word, 1, MOST_NODES),
        None => Some(MOST_NODES),
    }
}

/// The sizes that three words write.
fn sizes_written(number: &str, members: &str, pairings: &str) -> Option<Sizes>
    ensures value { result ≡ sizes_in number.now members.now pairings.now }
{
    let number = read_long(number)?;
    let members = number_within(members, 1, 200)?;
    let pairings = number_within(pairings, 0, 600)?;
    Some(Sizes {
        number,
        members,
        pairings,
    })
}

/// The command, where no words stand behind it.
fn alone(command: Command, words: &[&str]) -> Option<Command>
    ensures value { result ≡ alone_in command (words_of words.now) }
{
    if words.is_empty() {
        Some(command)
    } else {
        None
    }
}

/// The command `award` with these words behind it.
fn award(words: &[&str], found: &ArgMatches<'_>) -> Option<Command>
    ensures value { result ≡ award_read (words_of words.now) (texts_found found.now).nodes }
{
    let option = found.get_str("nodes");
    if !stands(words, &[], option) {
        return None;
    }
    let nodes = nodes_allowed(option)?;
    Some(Command::Award(nodes))
}

/// The argument that was read, where it is the one that the words have, with this option among them where there is
/// one.
fn one<'w>(words: &[&str], argument: Option<&'w str>, option: Option<&str>) -> Option<&'w str>
    ensures value { option_map (λ n. n.now) result
        ≡ one_read (words_of words.now) (option_word option.entry) (option_word argument.entry) }
{
    let word = argument?;
    if !is_argument(word) {
        return None;
    }
    if !stands(words, &[word], option) {
        return None;
    }
    Some(word)
}

/// The name that these words are.
fn name<'w>(words: &[&str], found: &ArgMatches<'w>) -> Option<&'w str>
    ensures value { option_map (λ n. n.now) result
        ≡ name_read (words_of words.now) (texts_found found.now).member }
{
    one(words, found.get_str("member"), None)
}

/// The sizes that were read, where the words are their arguments, with this option among them
/// where there is one.
fn sizes_found(words: &[&str], found: &ArgMatches<'_>, option: Option<&str>) -> Option<Sizes>
    ensures value { result ≡ sizes_read (words_of words.now) (option_word option.entry)
        (texts_found found.now).number (texts_found found.now).members
        (texts_found found.now).pairings }
{
    let number = found.get_str("number")?;
    let members = found.get_str("members")?;
    let pairings = found.get_str("pairings")?;
    if !stands(words, &[number, members, pairings], option) {
        return None;
    }
    sizes_written(number, members, pairings)
}

/// The command `make` with these words behind it.
fn make(words: &[&str], found: &ArgMatches<'_>) -> Option<Command>
    ensures value { result ≡ make_read (words_of words.now)
        (texts_found found.now).number (texts_found found.now).members
        (texts_found found.now).pairings }
{
    let sizes = sizes_found(words, found, None)?;
    Some(Command::Make(sizes))
}

/// The command `trial` with these words behind it.
fn trial(words: &[&str], found: &ArgMatches<'_>) -> Option<Command>
    ensures value { result ≡ trial_read (words_of words.now) (texts_found found.now).nodes
        (texts_found found.now).number (texts_found found.now).members
        (texts_found found.now).pairings }
{
    let option = found.get_str("nodes");
    let sizes = sizes_found(words, found, option)?;
    let nodes = nodes_allowed(option)?;
    Some(Command::Trial(sizes, nodes))
}

/// The bytes of a text.
fn bytes_of(alloc: Global, text: &str) -> Result<List<u8>, Memory>
    ensures value { IfOk result (λ bytes. bytes ≡ text.now) }
{
    let bytes = text.as_bytes().to_vec(alloc)?;
    Ok(List::from_vec(bytes))
}

/// The command `show` with these words behind it.
fn show(alloc: Global, words: &[&str], found: &ArgMatches<'_>) -> Result<Option<Command>, Memory>
    ensures value { IfOk result (λ read. read ≡ option_map (λ n. Show n)
        (name_read (words_of words.now) (texts_found found.now).member)) }
{
    let Some(name) = name(words, found) else {
        return Ok(None);
    };
    let bytes = bytes_of(alloc, name)?;
    Ok(Some(Command::Show(bytes)))
}

/// The command `calendar` with these words behind it.
fn calendar(
    alloc: Global,
    words: &[&str],
    found: &ArgMatches<'_>,
) -> Result<Option<Command>, Memory>
    ensures value { IfOk result (λ read. read ≡ option_map (λ n. Calendar n)
        (name_read (words_of words.now) (texts_found found.now).member)) }
{
    let Some(name) = name(words, found) else {
        return Ok(None);
    };
    let bytes = bytes_of(alloc, name)?;
    Ok(Some(Command::Calendar(bytes)))
}

/// The command `whatif` with these words behind it.
fn whatif(alloc: Global, words: &[&str], found: &ArgMatches<'_>) -> Result<Option<Command>, Memory>
    ensures value { IfOk result (λ read. read
        ≡ whatif_read (words_of words.now) (texts_found found.now).nodes (texts_found found.now).member) }
{
    let option = found.get_str("nodes");
    let Some(name) = one(words, found.get_str("member"), option) else {
        return Ok(None);
    };
    let Some(nodes) = nodes_allowed(option) else {
        return Ok(None);
    };
    let bytes = bytes_of(alloc, name)?;
    Ok(Some(Command::WhatIf(bytes, nodes)))
}

/// The number of vacant lines that these words are, with this option among them where there is one.
fn lines_found(words: &[&str], found: &ArgMatches<'_>, option: Option<&str>) -> Option<u32>
    ensures value { result ≡ lines_read (words_of words.now) (option_word option.entry)
        (texts_found found.now).lines }
{
    let word = one(words, found.get_str("lines"), option)?;
    number_within(word, 0, MOST_LINES)
}

/// The command `open` with these words behind it.
fn open_lines(words: &[&str], found: &ArgMatches<'_>) -> Option<Command>
    ensures value { result ≡ open_read (words_of words.now) (texts_found found.now).nodes
        (texts_found found.now).lines }
{
    let option = found.get_str("nodes");
    let lines = lines_found(words, found, option)?;
    let nodes = nodes_allowed(option)?;
    Some(Command::Open(lines, nodes))
}

/// The command `opencheck` with these words behind it.
fn open_check(words: &[&str], found: &ArgMatches<'_>) -> Option<Command>
    ensures value { result ≡ opencheck_read (words_of words.now) (texts_found found.now).lines }
{
    let lines = lines_found(words, found, None)?;
    Some(Command::OpenCheck(lines))
}

/// The command of a first word with what was read behind it.
fn named(
    alloc: Global,
    word: &str,
    words: &[&str],
    found: &ArgMatches<'_>,
) -> Result<Option<Command>, Memory>
    ensures value { IfOk result (λ read. read
        ≡ named_read word.now (words_of words.now) (texts_found found.now)) }
{
    if word == "check" {
        return Ok(alone(Command::Check, words));
    }
    if word == "award" {
        return Ok(award(words, found));
    }
    if word == "show" {
        return show(alloc, words, found);
    }
    if word == "make" {
        return Ok(make(words, found));
    }
    if word == "trial" {
        return Ok(trial(words, found));
    }
    if word == "migrate" {
        return Ok(alone(Command::Migrate, words));
    }
    if word == "trade" {
        return Ok(alone(Command::Trade, words));
    }
    if word == "calendar" {
        return calendar(alloc, words, found);
    }
    if word == "whatif" {
        return whatif(alloc, words, found);
    }
    if word == "open" {
        return Ok(open_lines(words, found));
    }
    if word == "opencheck" {
        return Ok(open_check(words, found));
    }
    Ok(None)
}

/// The command of the texts behind the program's name, if they are one.
fn command_of(alloc: Global, texts: &[&str]) -> Result<Option<Command>, Memory>
    ensures value { (words : Sequence (Sequence ℕ)) → words_of texts.now ≡ codes "pbs" ∷ words
        → IfOk result (λ read. read ≡ command_in words) }
{
    let Some((_, words)) = texts.split_first() else {
        return Ok(None);
    };
    let Some((first, rest)) = words.split_first() else {
        return Ok(None);
    };
    let Some(matches) = parse(alloc, texts)? else {
        return Ok(None);
    };
    let Some((_, found)) = matches.subcommand() else {
        return Ok(None);
    };
    named(alloc, first, rest, found)
}

impl Command {
    /// The command that these words are, if they are one.
    pub fn from_words(alloc: Global, words: &[String]) -> Result<Option<Command>, Memory>
        ensures value { IfOk result (λ read. read ≡ command_in (map string_bytes words.now)) }
        ensures spelt { IfOk result (IsSpelt (map string_bytes words.now)) }
        ensures in_range { IfOk result (λ read. IfSome read HasLimits) }
    {
        let mut texts = Vec::new(alloc);
        texts.push("pbs")?;
        for word in words {
            texts.push(word.as_str())?;
        }
        command_of(alloc, &texts)
    }
}
