//! What is wrong with a month, and what looks wrong.
ghost use Rattle.std.specs.Prelude.{◌≡◌, IfOk};
ghost use Rattle.std.specs.Option.{ForSome};
ghost use Rattle.month_files.specs.Reading.{AreShort, view_texts};
ghost use Rattle.month_lint.specs.Verdicts.{Judges, IsVerdict};

use crate::bid_oddities::note_bids;
use crate::drawer::Drawer;
use crate::duty_oddities::note_pairing;
use crate::faults::without_faults;
use crate::findings::Findings;
use crate::pilot_oddities::note_crew;
use crate::trip_oddities::note_trips;
use crate::verdict::Verdict;
use duty_calendar::{Memory, Station};
use file_places::Prose;
use month_files::{BadInput, File, Texts, Unread, read_file, read_month, read_texts};
use plain_answers::put_trouble;
use printed_lines::Trouble;
use roster_model::Problem;
use shelf::Shelf;
use std::alloc::Global;

/// Notes what looks wrong in a month.
fn note_oddities(found: &mut Findings, texts: &Texts, problem: &Problem) -> Result<(), Memory> {
    for pairing in problem.base.pairings.as_slice() {
        note_pairing(found, texts, pairing, Some(problem.base.rules.base))?;
    }
    note_crew(found, texts, problem)?;
    note_trips(found, texts, problem)?;
    note_bids(found, texts, problem)
}

/// The base, where the rules have one.
fn known_base(drawer: &Drawer, problem: &Problem) -> Option<Station> {
    if drawer.no_base {
        return None;
    }
    Some(problem.base.rules.base)
}

/// Notes what looks wrong in the pairings without a fault of a month from which faults were taken out.
fn note_sound(found: &mut Findings, drawer: &Drawer, problem: &Problem) -> Result<(), Memory> {
    for pairing in problem.base.pairings.as_slice() {
        if !drawer.is_spoilt(pairing.name.bytes()) {
            let base = known_base(drawer, problem);
            note_pairing(found, &drawer.texts, pairing, base)?;
        }
    }
    Ok(())
}

/// Notes the faults of texts that name no month, and what looks wrong in the pairings without one.
fn note_faults(found: &mut Findings, texts: Texts) -> Result<(), Memory> {
    let mut drawer = Drawer::new(found.alloc(), texts);
    match without_faults(found, &mut drawer)? {
        Some(problem) => note_sound(found, &drawer, &problem),
        None => Ok(()),
    }
}

/// Notes what there is to say of texts.
#[tactic(auto, using(crate::proofs::Verdicts::names_month, crate::proofs::Verdicts::is_faulty))]
fn look_at(found: &mut Findings, texts: Texts) -> Result<Verdict, Memory>
    requires short { AreShort (view_texts texts) }
    ensures verdict { IfOk result (Judges (view_texts texts)) }
{
    match read_month(found.alloc(), &texts) {
        Ok(problem) => {
            note_oddities(found, &texts, &problem)?;
            if found.is_empty() {
                return Ok(Verdict::Clean);
            }
            Ok(Verdict::Odd)
        }
        Err(BadInput::Fault(_)) => {
            note_faults(found, texts)?;
            Ok(Verdict::Faulty)
        }
        Err(BadInput::NoMemory) => Err(Memory::NoMemory),
    }
}

/// Notes what became of a file.
fn note_trouble(found: &mut Findings, file: File, trouble: Trouble) -> Result<(), Memory> {
    let mut words = found.words();
    put_trouble(&mut words, trouble)?;
    found.add(file, 0, words)
}

/// Notes that a file is not read, where that is so.
fn note_unread<S: Shelf>(shelf: &mut S, found: &mut Findings, file: File) -> Result<(), Memory>
    ensures kept { S.holds shelf.new ≡ S.holds shelf.old }
{
    match read_file(found.alloc(), shelf, file) {
        Ok(_) => Ok(()),
        Err(Unread::Missing(_)) => note_trouble(found, file, Trouble::Missing),
        Err(Unread::ReadFault(_)) => note_trouble(found, file, Trouble::ReadFault),
        Err(Unread::TooLong(_)) => note_trouble(found, file, Trouble::TooLong),
        Err(Unread::NoMemory) => Err(Memory::NoMemory),
    }
}

/// The files of a month.
static FILES: [File; 8] = [
    File::Rules,
    File::Pairings,
    File::Duties,
    File::Legs,
    File::Crew,
    File::History,
    File::Fixed,
    File::Bids,
];

/// Notes each file that is not read.
fn note_all_unread<S: Shelf>(shelf: &mut S, found: &mut Findings) -> Result<(), Memory>
    ensures kept { S.holds shelf.new ≡ S.holds shelf.old }
{
    for file in FILES {
        note_unread(shelf, found, file)?;
    }
    Ok(())
}

/// Notes what there is to say of the files.
#[tactic(auto, using(crate::proofs::Verdicts::verdict_told))]
fn look<S: Shelf>(shelf: &mut S, found: &mut Findings) -> Result<Verdict, Memory>
    ensures kept { S.holds shelf.new ≡ S.holds shelf.old }
    ensures told { ForSome (S.holds shelf.old) (λ files. IfOk result (IsVerdict files)) }
{
    match read_texts(found.alloc(), shelf) {
        Ok(texts) => look_at(found, texts),
        Err(Unread::NoMemory) => Err(Memory::NoMemory),
        Err(_) => {
            note_all_unread(shelf, found)?;
            Ok(Verdict::Unread)
        }
    }
}

/// Appends a line for each fault of the eight files in the folder, and for what is legal but looks wrong, in order of files
/// and lines. No file is written. The verdict says that there are faults where the files have a first fault, and else that
/// they name a month.
pub fn lint<S: Shelf>(alloc: Global, shelf: &mut S, prose: &mut Prose) -> Result<Verdict, Memory>
    ensures kept { S.holds shelf.new ≡ S.holds shelf.old }
    ensures told { ForSome (S.holds shelf.old) (λ files. IfOk result (IsVerdict files)) }
{
    let mut found = Findings::new(alloc);
    let verdict = look(shelf, &mut found)?;
    found.put(prose)?;
    Ok(verdict)
}
