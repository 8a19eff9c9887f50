//! How a run of `whatif` ends, and what it prints.
ghost use Rattle.std.specs.Prelude.{◌≡◌, [], ◌∷◌, ◌++◌, codes, length, IfOk};
ghost use Rattle.bid_language.specs.Codes.{bid_code};
ghost use Rattle.month_files.specs.declared.file.File.TheVariants.{OtherBids};
ghost use Rattle.answer_texts.specs.Lines.{line_of};
ghost use Rattle.answer_texts.specs.MonthEnds.{bad_words};
ghost use Rattle.answer_texts.specs.WhatIfTexts.{other_bids_text, unasked_text, whatif_lines, whatif_status, whatif_text};

use crate::check_ends::no_line;
use crate::lines::{budget_line, line_text, numbered, put_vector, titled};
use crate::month_ends::{bad_input_text, input_status, unread_status, unread_text};
use crate::status::Status;
use crate::write_ends::{unwritten_text, write_status};
use bid_language::BidFault;
use duty_calendar::{List, Memory};
use field_text::put_bytes;
use std::alloc::Global;
use whatif_commands::{Unasked, WhatIf, WhatIfStop};

/// How a run of `whatif` ends.
pub fn whatif_status(end: &Result<WhatIf, WhatIfStop>) -> Status
    ensures value { result ≡ whatif_status end.now }
{
    match end {
        Ok(_) => Status::Done,
        Err(WhatIfStop::Unread(why)) => unread_status(*why),
        Err(WhatIfStop::BadInput(why)) => input_status(why),
        Err(WhatIfStop::BadBids(_)) => Status::BadInput,
        Err(WhatIfStop::No(_)) => Status::No,
        Err(WhatIfStop::Budget(_)) => Status::Budget,
        Err(WhatIfStop::Unwritten(_, stop)) => write_status(stop.why),
        Err(WhatIfStop::NoMemory) => Status::NoMemory,
    }
}

/// The lines of an award with the other bids.
fn whatif_lines(alloc: Global, found: &WhatIf) -> Result<List<u8>, Memory>
    ensures value { IfOk result (λ t. t ≡ whatif_lines found.now.scores (length found.now.ledger.entries)) }
{
    let mut out = line_text(alloc, b"whatif")?;
    put_vector(&mut out, found.scores.as_slice())?;
    let counted = numbered(alloc, b"nodes", &[u64::from(found.ledger.len())])?;
    put_bytes(&mut out, counted.as_slice())?;
    Ok(out)
}

/// The line of a fault of the other bids.
fn other_bids_line(alloc: Global, fault: &BidFault) -> Result<List<u8>, Memory>
    ensures value { IfOk result (λ t. t ≡ other_bids_text fault.now) }
{
    numbered(
        alloc,
        b"bad bids2.txt",
        &[
            u64::from(fault.line),
            u64::from(fault.column),
            u64::from(fault.code.code()),
        ],
    )
}

/// The line of a no.
fn unasked_line(alloc: Global, name: &[u8], why: &Unasked) -> Result<List<u8>, Memory>
    ensures value { IfOk result (λ t. t ≡ unasked_text name.now why.now) }
{
    match why {
        Unasked::Member => titled(alloc, b"no member ", name),
        Unasked::Certificate(fault) => numbered(
            alloc,
            b"no certificate",
            &[u64::from(fault.line), u64::from(fault.code.code())],
        ),
        Unasked::NoAward => line_text(alloc, b"no award"),
        Unasked::Roster(fault) => numbered(
            alloc,
            b"no roster",
            &[u64::from(fault.row), u64::from(fault.code.code())],
        ),
        Unasked::Reasons(fault) => numbered(
            alloc,
            b"no reasons",
            &[u64::from(fault.line), u64::from(fault.code.code())],
        ),
        Unasked::Judged(no) => no_line(alloc, *no),
        Unasked::Bids(other) => titled(alloc, b"no bids ", other.as_slice()),
    }
}

/// The text of a run of `whatif` with this name.
pub fn whatif_text(
    alloc: Global,
    name: &[u8],
    end: &Result<WhatIf, WhatIfStop>,
) -> Result<List<u8>, Memory>
    ensures value { IfOk result (λ t. t ≡ whatif_text name.now end.now) }
{
    match end {
        Ok(found) => whatif_lines(alloc, found),
        Err(WhatIfStop::Unread(why)) => unread_text(alloc, *why),
        Err(WhatIfStop::BadInput(why)) => bad_input_text(alloc, why),
        Err(WhatIfStop::BadBids(fault)) => other_bids_line(alloc, fault),
        Err(WhatIfStop::No(why)) => unasked_line(alloc, name, why),
        Err(WhatIfStop::Budget(ledger)) => budget_line(alloc, ledger),
        Err(WhatIfStop::Unwritten(_, stop)) => unwritten_text(alloc, *stop),
        Err(WhatIfStop::NoMemory) => Ok(List::new(alloc)),
    }
}
