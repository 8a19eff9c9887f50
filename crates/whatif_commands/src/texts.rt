//! The texts that `whatif` reads.
ghost use Rattle.std.specs.Prelude.{◌≡◌, ◌++◌, IfOk};
ghost use Rattle.std.specs.Option.{ForSome};
ghost use Rattle.month_files.specs.Reading.{HasCause, Finds, AreShort, view_texts};
ghost use Rattle.whatif_commands.specs.Asking.{asked_in, claimed_in};
ghost use Rattle.whatif_commands.specs.AskingTexts.{view_asked, asked_texts, AreBrief, view_claimed, claimed_texts, IsBrief};

use month_files::{File, Texts, Unread, read_file, read_texts};
use shelf::Shelf;
use std::alloc::Global;

/// The texts that are read first: the inputs, the certificate and the other bids.
#[derive(Drop)]
pub struct AskedTexts {
    pub inputs: Texts,
    pub certificate: Vec<u8>,
    pub bids: Vec<u8>,
}

/// The texts that are read behind the certificate of an award: the roster and the reasons.
#[derive(Drop)]
pub struct ClaimedTexts {
    pub roster: Vec<u8>,
    pub reasons: Vec<u8>,
}

/// Reads the inputs, the certificate and the other bids, in this order.
#[tactic(auto, unfolding(crate::specs::Asking::asked_in))]
pub(crate) fn read_asked<S: Shelf>(alloc: Global, shelf: &mut S) -> Result<AskedTexts, Unread>
    ensures cause { HasCause (S.tally shelf.old) (S.tally shelf.new) result }
    ensures told { ForSome (S.holds shelf.old) (λ files.
        Finds view_asked result (asked_in files)) }
    ensures short { IfOk result (λ texts. AreShort (view_texts texts.inputs)) }
    ensures brief { IfOk result (λ texts. AreBrief (view_asked texts)) }
    ensures kept { S.holds shelf.new ≡ S.holds shelf.old }
    ensures logged { IfOk result (λ texts.
        S.log shelf.new ≡ S.log shelf.old ++ asked_texts (view_asked texts)) }
{
    let inputs = read_texts(alloc, shelf)?;
    let certificate = read_file(alloc, shelf, File::Certificate)?;
    let bids = read_file(alloc, shelf, File::OtherBids)?;
    Ok(AskedTexts {
        inputs,
        certificate,
        bids,
    })
}

/// Reads the roster and the reasons, in this order.
#[tactic(auto, unfolding(crate::specs::Asking::claimed_in))]
pub(crate) fn read_claimed<S: Shelf>(alloc: Global, shelf: &mut S) -> Result<ClaimedTexts, Unread>
    ensures cause { HasCause (S.tally shelf.old) (S.tally shelf.new) result }
    ensures told { ForSome (S.holds shelf.old) (λ files.
        Finds view_claimed result (claimed_in files)) }
    ensures brief { IfOk result (λ texts. IsBrief (view_claimed texts)) }
    ensures kept { S.holds shelf.new ≡ S.holds shelf.old }
    ensures logged { IfOk result (λ texts.
        S.log shelf.new ≡ S.log shelf.old ++ claimed_texts (view_claimed texts)) }
{
    let roster = read_file(alloc, shelf, File::Roster)?;
    let reasons = read_file(alloc, shelf, File::Reasons)?;
    Ok(ClaimedTexts { roster, reasons })
}
