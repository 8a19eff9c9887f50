//! What was read of a text so far.
ghost use Rattle.std.specs.Prelude.{◌≡◌, ◌<◌, vec_len};
ghost use Rattle.std.specs.Option.{ForSome};
ghost use Rattle.bid_language.specs.Lines.{member_named};

use crate::keywords::is_text;
use duty_calendar::{List, Member};
use roster_model::Bid;

/// What a line says.
#[derive(Drop)]
pub enum Entry {
    Nothing,
    Member(u32),
    Bid(u32, Bid),
}

/// What was read so far: whose bids the next line has, which members had their line, and the bids
/// of each.
#[derive(Drop)]
pub struct Sheet {
    pub current: Option<u32>,
    pub seen: Vec<bool>,
    pub lists: Vec<List<Bid>>,
    pub ghost same: { vec_len seen ≡ vec_len lists },
    pub ghost within: { ForSome current (λ m. m < vec_len lists) },
}

/// The number of the member of this name.
pub fn member_named(members: &[Member], text: &[u8]) -> Option<usize>
    ensures found { result ≡ member_named members.now text.now }
{
    members.iter().position(|m| is_text(m.name.bytes(), text))
}
