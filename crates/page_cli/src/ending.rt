//! How a run ends.
ghost use Rattle.std.specs.Prelude.{◌≡◌, IfOk, Ok, Err};
ghost use Rattle.answer_texts.specs.CheckTexts.{check_status, check_text};
ghost use Rattle.month_page.specs.declared.page_stop.PageStop.TheVariants.{Unwritten as Lost};
ghost use Rattle.page_cli.specs.PageTexts.{EndsSo};

use answer_texts::{Status, check_status, check_text, line_text};
use duty_calendar::{List, Memory};
use field_text::{put_bytes, put_number};
use month_commands::CheckStop;
use month_files::WriteStop;
use month_page::PageStop;
use std::alloc::Global;

/// How a run ends, and what it prints.
#[derive(Drop)]
pub struct Ending {
    pub status: Status,
    pub text: List<u8>,
}

/// What is said where the words are not one folder.
pub fn usage(alloc: Global) -> Result<Ending, Memory> {
    Ok(Ending {
        status: Status::Usage,
        text: line_text(alloc, b"usage: pbs-page FOLDER")?,
    })
}

/// What is said of a page that was written and shows so many members.
fn written(alloc: Global, members: u32) -> Result<Ending, Memory>
    ensures ending { IfOk result (EndsSo (Ok members)) }
{
    let mut text = List::new(alloc);
    put_bytes(&mut text, b"page ")?;
    put_number(&mut text, members)?;
    put_bytes(&mut text, b" members\n")?;
    Ok(Ending {
        status: Status::Done,
        text,
    })
}

/// What is said of files that name no page, in the words of `check`.
fn refused(alloc: Global, stop: CheckStop) -> Result<Ending, Memory>
    ensures status { IfOk result (λ s. s.status ≡ check_status (Err stop)) }
    ensures text { IfOk result (λ s. s.text ≡ check_text (Err stop)) }
{
    let end = Err(stop);
    Ok(Ending {
        status: check_status(&end),
        text: check_text(alloc, &end)?,
    })
}

/// What is said of a page that was not written.
fn unwritten(alloc: Global, why: WriteStop) -> Result<Ending, Memory>
    ensures ending { IfOk result (EndsSo (Err (Lost why))) }
{
    match why {
        WriteStop::Fault => Ok(Ending {
            status: Status::WriteFault,
            text: line_text(alloc, b"write fault month.html")?,
        }),
        WriteStop::NoMemory => Err(Memory::NoMemory),
    }
}

/// How a run ends in which a page came to this.
pub fn ending_of(alloc: Global, end: Result<u32, PageStop>) -> Result<Ending, Memory>
    ensures value { IfOk result (EndsSo end) }
{
    match end {
        Ok(members) => written(alloc, members),
        Err(PageStop::Unread(why)) => refused(alloc, CheckStop::Unread(why)),
        Err(PageStop::BadInput(why)) => refused(alloc, CheckStop::BadInput(why)),
        Err(PageStop::Roster(fault)) => refused(alloc, CheckStop::from(fault)),
        Err(PageStop::Reasons(fault)) => refused(alloc, CheckStop::from(fault)),
        Err(PageStop::Unwritten(why)) => unwritten(alloc, why),
        Err(PageStop::NoMemory) => Err(Memory::NoMemory),
    }
}
