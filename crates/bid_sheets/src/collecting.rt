//! From pilots' files to the text of bids.
ghost use Rattle.std.specs.Prelude.{◌≡◌};
ghost use Rattle.month_files.specs.Reading.{AreShort, view_texts};

use crate::framing::frame_bids;
use crate::reading::{LONGEST, Read, read_all};
use crate::receipts::{put_count, put_receipt};
use crate::standing::standing_of;
use crate::words::{put_fault, put_file, put_foreign, put_left_out};
use bid_language::print_bids;
use duty_calendar::{List, Memory};
use file_places::Prose;
use month_files::{Texts, read_month};
use month_page::{PageStop, plan_texts};
use roster_model::Problem;
use shelf::{Shelf, ShelfFault};
use std::alloc::Global;
use std::str::from_utf8;

/// The text of the bids of all pilots; none where something is wrong with a file.
#[derive(Drop)]
pub struct Collected {
    pub text: Option<List<u8>>,
}

/// What was taken so far: the bids of pilots one after the other, whether nothing was wrong, and how many sent, stand, or have
/// none.
#[derive(Drop)]
struct Tray {
    bids: Vec<u8>,
    is_sound: bool,
    sent: u32,
    standing: u32,
    none: u32,
}

/// What lies under a pilot's name.
#[derive(Drop)]
enum Sheet {
    Sent(Vec<u8>),
    Nothing,
    Unread,
}

/// The name of a pilot's file.
fn file_of(alloc: Global, name: &[u8]) -> Result<Vec<u8>, Memory> {
    let mut file = Vec::new(alloc);
    file.extend_from_slice(name)?;
    file.extend_from_slice(b".txt")?;
    Ok(file)
}

/// Reads the file of a name.
fn read_named<S: Shelf>(alloc: Global, sheets: &mut S, file: &str) -> Result<Sheet, Memory>
    ensures kept { S.holds sheets.new ≡ S.holds sheets.old }
{
    if file.is_empty() || file.len() > 32 {
        return Ok(Sheet::Unread);
    }
    match sheets.read(alloc, file, LONGEST as u64) {
        Ok(bytes) => Ok(Sheet::Sent(bytes)),
        Err(ShelfFault::Missing) => Ok(Sheet::Nothing),
        Err(ShelfFault::NoMemory) => Err(Memory::NoMemory),
        Err(_) => Ok(Sheet::Unread),
    }
}

/// Reads the file of a pilot.
fn read_sheet<S: Shelf>(alloc: Global, sheets: &mut S, name: &[u8]) -> Result<Sheet, Memory>
    ensures kept { S.holds sheets.new ≡ S.holds sheets.old }
{
    let file = file_of(alloc, name)?;
    match from_utf8(&file) {
        Ok(text) => read_named(alloc, sheets, text),
        Err(_) => Ok(Sheet::Unread),
    }
}

/// Appends that a pilot's file was not read to its end.
fn put_unread(prose: &mut Prose, name: &[u8]) -> Result<(), Memory> {
    put_file(prose, name)?;
    prose.say(b": it could not be read, or is longer than a pilot's bids may be\n")
}

/// Says each fault of what a pilot sent.
fn put_faults(prose: &mut Prose, name: &[u8], sent: &[u8], read: &Read) -> Result<(), Memory> {
    for fault in &read.faults {
        put_fault(prose, name, sent, fault)?;
    }
    if !read.is_read {
        put_unread(prose, name)?;
    }
    Ok(())
}

/// Says each line of what a pilot sent that names another one.
fn put_all_foreign(
    prose: &mut Prose,
    name: &[u8],
    sent: &[u8],
    foreign: &[u64],
) -> Result<(), Memory> {
    for number in foreign {
        put_foreign(prose, name, sent, *number)?;
    }
    Ok(())
}

/// Takes what a pilot sent.
fn take_sent(
    alloc: Global,
    problem: &Problem,
    prose: &mut Prose,
    tray: &mut Tray,
    name: &[u8],
    sent: &[u8],
) -> Result<(), Memory> {
    let made = frame_bids(alloc, name, sent)?;
    put_all_foreign(prose, name, sent, &made.foreign)?;
    let is_own = made.foreign.is_empty();
    let read = read_all(alloc, problem, made.text)?;
    put_faults(prose, name, sent, &read)?;
    if is_own && read.is_read && read.faults.is_empty() {
        put_receipt(alloc, prose, name, read.bids, sent)?;
        tray.bids.extend_from_slice(&read.text)?;
    } else {
        tray.is_sound = false;
    }
    tray.sent = tray.sent.saturating_add(1);
    Ok(())
}

/// Says which standing bids do not read in this month.
fn put_all_left_out(
    prose: &mut Prose,
    name: &[u8],
    lines: &[u8],
    read: &Read,
) -> Result<(), Memory> {
    for fault in &read.faults {
        put_left_out(prose, name, lines, fault)?;
    }
    Ok(())
}

/// Takes the bids that stand for a pilot who sent none.
fn take_standing(
    alloc: Global,
    problem: &Problem,
    prose: &mut Prose,
    tray: &mut Tray,
    name: &[u8],
    lines: &[u8],
) -> Result<(), Memory> {
    let made = frame_bids(alloc, name, lines)?;
    let read = read_all(alloc, problem, made.text)?;
    put_all_left_out(prose, name, lines, &read)?;
    if !read.is_read {
        tray.is_sound = false;
        return put_unread(prose, name);
    }
    prose.text(name)?;
    prose.say(b": ")?;
    put_count(prose, read.bids)?;
    prose.say(b" of the last month, which stand\n")?;
    tray.bids.extend_from_slice(&read.text)?;
    tray.standing = tray.standing.saturating_add(1);
    Ok(())
}

/// Takes what stands for a pilot who sent no file, where something does.
fn take_none(
    alloc: Global,
    problem: &Problem,
    prose: &mut Prose,
    tray: &mut Tray,
    name: &[u8],
    old: &[u8],
) -> Result<(), Memory> {
    if let Some(lines) = standing_of(alloc, name, old)? {
        return take_standing(alloc, problem, prose, tray, name, &lines);
    }
    prose.text(name)?;
    prose.say(b": no file, and no bids\n")?;
    tray.none = tray.none.saturating_add(1);
    Ok(())
}

/// Takes the bids of a pilot.
fn take_pilot<S: Shelf>(
    alloc: Global,
    problem: &Problem,
    sheets: &mut S,
    prose: &mut Prose,
    tray: &mut Tray,
    name: &[u8],
    old: &[u8],
) -> Result<(), Memory>
    ensures kept { S.holds sheets.new ≡ S.holds sheets.old }
{
    match read_sheet(alloc, sheets, name)? {
        Sheet::Sent(sent) => take_sent(alloc, problem, prose, tray, name, &sent),
        Sheet::Nothing => take_none(alloc, problem, prose, tray, name, old),
        Sheet::Unread => {
            tray.is_sound = false;
            put_unread(prose, name)
        }
    }
}

/// Takes the bids of all pilots, in order of seniority.
fn take_all<S: Shelf>(
    alloc: Global,
    problem: &Problem,
    sheets: &mut S,
    prose: &mut Prose,
    old: &[u8],
) -> Result<Tray, Memory>
    ensures kept { S.holds sheets.new ≡ S.holds sheets.old }
{
    let mut tray = Tray {
        bids: Vec::new(alloc),
        is_sound: true,
        sent: 0,
        standing: 0,
        none: 0,
    };
    for member in problem.base.members.as_slice() {
        let name = member.name.bytes();
        take_pilot(alloc, problem, sheets, prose, &mut tray, name, old)?;
    }
    Ok(tray)
}

/// Says how many pilots sent bids.
fn put_counts(prose: &mut Prose, tray: &Tray) -> Result<(), Memory> {
    prose.number(u64::from(tray.sent))?;
    prose.say(b" sent a file, of ")?;
    prose.number(u64::from(tray.standing))?;
    prose.say(b" the bids of the last month stand, ")?;
    prose.number(u64::from(tray.none))?;
    prose.say(b" have none\n")
}

/// The text of the bids of all pilots, as the printer of bids has it.
fn text_of(alloc: Global, texts: &Texts) -> Result<List<u8>, PageStop>
    requires short { AreShort (view_texts texts.now) }
{
    let problem = read_month(alloc, texts)?;
    Ok(print_bids(alloc, &problem)?)
}

/// The texts with other bids; nothing where these are too long.
fn with_bids(alloc: Global, texts: Texts, bids: Vec<u8>) -> Result<List<u8>, PageStop>
    requires short { AreShort (view_texts texts) }
{
    let mut texts = texts;
    if bids.len() > 67_108_864 {
        return Err(PageStop::NoMemory);
    }
    texts.bids = bids;
    text_of(alloc, &texts)
}

/// Makes the text of bids of what lies in the other folder under the name of each pilot, and `.txt`. `old` is a text of bids
/// of another month, whose bids stand for those who sent nothing. What is said: each fault, a receipt for each pilot whose
/// file has none, and how many sent. No file is written.
pub fn collect<S: Shelf, T: Shelf>(
    alloc: Global,
    shelf: &mut S,
    sheets: &mut T,
    prose: &mut Prose,
    old: &[u8],
) -> Result<Collected, PageStop>
    ensures kept { S.holds shelf.new ≡ S.holds shelf.old }
    ensures sheets { T.holds sheets.new ≡ T.holds sheets.old }
{
    let texts = plan_texts(alloc, shelf)?;
    let problem = read_month(alloc, &texts)?;
    let tray = take_all(alloc, &problem, sheets, prose, old)?;
    put_counts(prose, &tray)?;
    if !tray.is_sound {
        return Ok(Collected { text: None });
    }
    let text = with_bids(alloc, texts, tray.bids)?;
    Ok(Collected { text: Some(text) })
}
