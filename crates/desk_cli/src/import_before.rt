//! What is read of a folder before a sheet becomes one of its files.
ghost use Rattle.std.specs.Prelude.{◌≡◌, ◌≤◌, IfOk, IfSome, length};
ghost use Rattle.field_text.specs.Sizes.{longest};

use duty_calendar::{Memory, Rules};
use field_text::FileName;
use file_places::Prose;
use folder_answers::{rule_answer, tell_answer};
use month_files::File;
use rules_file::read_rules;
use shelf::{Shelf, ShelfFault};
use std::alloc::Global;

/// The texts of the files that the readers take before one, two at most.
#[derive(Drop)]
pub struct Earlier {
    pub first: Vec<u8>,
    pub second: Vec<u8>,
}

/// The bytes of a file, where one is named; where it is not read, that is appended.
fn tell_file<S: Shelf>(
    alloc: Global,
    shelf: &mut S,
    prose: &mut Prose,
    file: Option<File>,
) -> Result<Option<Vec<u8>>, Memory>
    ensures kept { S.holds shelf.new ≡ S.holds shelf.old }
    ensures short { IfOk result (λ o. IfSome o (λ v. length v.items ≤ longest)) }
{
    let Some(file) = file else {
        return Ok(Some(Vec::new(alloc)));
    };
    match shelf.read(alloc, file.name(), 67_108_864) {
        Ok(bytes) => Ok(Some(bytes)),
        Err(ShelfFault::NoMemory) => Err(Memory::NoMemory),
        Err(_) => {
            prose.text(file.name().as_bytes())?;
            prose.say(b" is read first, and is not there or was not read\n")?;
            Ok(None)
        }
    }
}

/// The files that are read before one.
fn files_before(file: FileName) -> [Option<File>; 2] {
    match file {
        FileName::Pairings | FileName::Crew => [None, None],
        FileName::Duties => [Some(File::Pairings), None],
        FileName::Legs => [Some(File::Pairings), Some(File::Duties)],
        FileName::History => [Some(File::Crew), None],
        FileName::Fixed => [Some(File::Crew), Some(File::History)],
    }
}

/// The files that are read before one; where one of them is not read, why is appended.
pub fn tell_earlier<S: Shelf>(
    alloc: Global,
    shelf: &mut S,
    prose: &mut Prose,
    file: FileName,
) -> Result<Option<Earlier>, Memory>
    ensures kept { S.holds shelf.new ≡ S.holds shelf.old }
    ensures short_first { IfOk result (λ o. IfSome o (λ e. length e.first.items ≤ longest)) }
    ensures short_second { IfOk result (λ o. IfSome o (λ e. length e.second.items ≤ longest)) }
{
    let [first, second] = files_before(file);
    let Some(first) = tell_file(alloc, shelf, prose, first)? else {
        return Ok(None);
    };
    let Some(second) = tell_file(alloc, shelf, prose, second)? else {
        return Ok(None);
    };
    Ok(Some(Earlier { first, second }))
}

/// The rules of a text; where it has a fault, that is appended.
fn rules_of<S: Shelf>(
    alloc: Global,
    shelf: &mut S,
    prose: &mut Prose,
    text: &[u8],
) -> Result<Option<Rules>, Memory>
    ensures kept { S.holds shelf.new ≡ S.holds shelf.old }
{
    match read_rules(alloc, text) {
        Ok(rules) => Ok(Some(rules)),
        Err(fault) => {
            let Some(answer) = rule_answer(&fault) else {
                return Err(Memory::NoMemory);
            };
            tell_answer(alloc, shelf, prose, &answer)?;
            Ok(None)
        }
    }
}

/// The rules of a folder; where there are none, why is appended.
pub fn tell_rules<S: Shelf>(
    alloc: Global,
    shelf: &mut S,
    prose: &mut Prose,
) -> Result<Option<Rules>, Memory>
    ensures kept { S.holds shelf.new ≡ S.holds shelf.old }
{
    match tell_file(alloc, shelf, prose, Some(File::Rules))? {
        Some(text) => rules_of(alloc, shelf, prose, &text),
        None => Ok(None),
    }
}
