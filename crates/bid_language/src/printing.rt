//! Writing bids, each in its one spelling.
ghost use Rattle.std.specs.Prelude.{◌≡◌, ◌≤◌, ◌<◌, ◌+◌, ◌++◌, ◌∷◌, codes, true, length, OnOk, OnErr};
ghost use Rattle.std.specs.List.{list_all};
ghost use Rattle.duty_calendar.specs.Calendar.{month_days};
ghost use Rattle.field_text.specs.Spelling.{number_text, HasPartly};
ghost use Rattle.roster_model.specs.Valid.{is_test, is_filter, is_wish};
ghost use Rattle.bid_language.specs.Spelling.{weekday_word, name_of, day_word, test_text, atom_text, more_text, filter_text, to_text, wish_text, bid_text};

use crate::writing::{put_count, put_credit, put_month_day, put_time, put_word};
use duty_calendar::{Base, Horizon, List, Memory, Pairing, Station, Weekday};
use field_text::{put_bytes, put_number};
use roster_model::{Atom, Bid, Test, Wish};

/// The three letters of a day of the week.
pub fn weekday_word(weekday: Weekday) -> &'static [u8]
    ensures value { result.now ≡ weekday_word weekday }
{
    match weekday {
        Weekday::Mon => b"MON",
        Weekday::Tue => b"TUE",
        Weekday::Wed => b"WED",
        Weekday::Thu => b"THU",
        Weekday::Fri => b"FRI",
        Weekday::Sat => b"SAT",
        Weekday::Sun => b"SUN",
    }
}

/// Appends the name of a pairing behind a word.
fn put_name(
    out: &mut List<u8>,
    front: &[u8],
    pairings: &[Pairing],
    pairing: u32,
) -> Result<(), Memory>
    requires known { pairing < length pairings.now }
    ensures whole { OnOk result (out.new ≡ out.old ++ (front.now ++ name_of pairings.now pairing)) }
    ensures partly { OnErr result (HasPartly out.old
        (front.now ++ name_of pairings.now pairing) out.new) }
{
    put_word(out, front, pairings[pairing as usize].name.bytes())
}

/// Appends a station behind a word.
fn put_station(out: &mut List<u8>, front: &[u8], station: Station) -> Result<(), Memory>
    ensures whole { OnOk result (out.new ≡ out.old ++ (front.now ++ station)) }
    ensures partly { OnErr result (HasPartly out.old (front.now ++ station) out.new) }
{
    put_word(out, front, &station.bytes())
}

/// Appends a test.
fn put_test(out: &mut List<u8>, pairings: &[Pairing], test: &Test) -> Result<(), Memory>
    requires form { is_test (length pairings.now) test.now ≡ true }
    ensures whole { OnOk result (out.new ≡ out.old ++ test_text pairings.now test.now) }
    ensures partly { OnErr result (HasPartly out.old (test_text pairings.now test.now) out.new) }
{
    match test {
        Test::Layover(station) => put_station(out, b"layover ", *station),
        Test::Departs(station) => put_station(out, b"departs ", *station),
        Test::Arrives(station) => put_station(out, b"arrives ", *station),
        Test::ReportBefore(clock) => put_time(out, b"report before ", *clock),
        Test::ReportAfter(clock) => put_time(out, b"report after ", *clock),
        Test::ReleaseBefore(clock) => put_time(out, b"release before ", *clock),
        Test::ReleaseAfter(clock) => put_time(out, b"release after ", *clock),
        Test::Days(days) => put_count(out, b"days ", *days),
        Test::OnWeekday(weekday) => put_word(out, b"weekday ", weekday_word(*weekday)),
        Test::Is(pairing) => put_name(out, b"pairing ", pairings, *pairing),
    }
}

/// Appends the opposite of a test.
#[tactic(auto, using(field_text::proofs::Prefixes::partly_front))]
fn put_opposite(out: &mut List<u8>, pairings: &[Pairing], test: &Test) -> Result<(), Memory>
    requires form { is_test (length pairings.now) test.now ≡ true }
    ensures whole { OnOk result (out.new ≡ out.old
        ++ (codes "not " ++ test_text pairings.now test.now)) }
    ensures partly { OnErr result (HasPartly out.old
        (codes "not " ++ test_text pairings.now test.now) out.new) }
{
    put_bytes(out, b"not ")?;
    put_test(out, pairings, test)
}

/// Appends an atom.
fn put_atom(out: &mut List<u8>, pairings: &[Pairing], atom: &Atom) -> Result<(), Memory>
    requires form { is_test (length pairings.now) atom.now.test ≡ true }
    ensures whole { OnOk result (out.new ≡ out.old ++ atom_text pairings.now atom.now) }
    ensures partly { OnErr result (HasPartly out.old (atom_text pairings.now atom.now) out.new) }
{
    if atom.negated {
        return put_opposite(out, pairings, &atom.test);
    }
    put_test(out, pairings, &atom.test)
}

/// Appends an atom behind another.
#[tactic(auto, using(field_text::proofs::Prefixes::partly_front))]
fn put_and(out: &mut List<u8>, pairings: &[Pairing], atom: &Atom) -> Result<(), Memory>
    requires form { is_test (length pairings.now) atom.now.test ≡ true }
    ensures whole { OnOk result (out.new ≡ out.old
        ++ (codes " and " ++ atom_text pairings.now atom.now)) }
    ensures partly { OnErr result (HasPartly out.old
        (codes " and " ++ atom_text pairings.now atom.now) out.new) }
{
    put_bytes(out, b" and ")?;
    put_atom(out, pairings, atom)
}

/// Appends atoms behind another.
fn put_more(out: &mut List<u8>, pairings: &[Pairing], atoms: &[Atom]) -> Result<(), Memory>
    requires form { list_all (λ a. is_test (length pairings.now) a.test) atoms.now ≡ true }
    ensures whole { OnOk result (out.new ≡ out.old ++ more_text pairings.now atoms.now) }
    ensures partly { OnErr result (HasPartly out.old (more_text pairings.now atoms.now) out.new) }
{
    for atom in atoms {
        match put_and(out, pairings, atom) {
            Ok(()) => {}
            Err(memory) => return Err(memory),
        }
    }
    Ok(())
}

/// Appends a filter.
#[tactic(auto, using(field_text::proofs::Prefixes::partly_front))]
fn put_filter(out: &mut List<u8>, pairings: &[Pairing], atoms: &[Atom]) -> Result<(), Memory>
    requires form { list_all (λ a. is_test (length pairings.now) a.test) atoms.now ≡ true }
    ensures whole { OnOk result (out.new ≡ out.old ++ filter_text pairings.now atoms.now) }
    ensures partly { OnErr result (HasPartly out.old (filter_text pairings.now atoms.now) out.new) }
{
    let Some((first, others)) = atoms.split_first() else {
        return Ok(());
    };
    put_atom(out, pairings, first)?;
    put_more(out, pairings, others)
}

/// Appends a filter behind a word.
#[tactic(auto, using(field_text::proofs::Prefixes::partly_front))]
fn put_kept(
    out: &mut List<u8>,
    front: &[u8],
    pairings: &[Pairing],
    atoms: &[Atom],
) -> Result<(), Memory>
    requires form { is_filter (length pairings.now) atoms.now ≡ true }
    ensures whole { OnOk result (out.new ≡ out.old
        ++ (front.now ++ filter_text pairings.now atoms.now)) }
    ensures partly { OnErr result (HasPartly out.old
        (front.now ++ filter_text pairings.now atoms.now) out.new) }
{
    put_bytes(out, front)?;
    put_filter(out, pairings, atoms)
}

/// Appends a wish for so many pairings of a filter.
#[tactic(auto, using(field_text::proofs::Prefixes::partly_front))]
fn put_prefer(
    out: &mut List<u8>,
    pairings: &[Pairing],
    least: u32,
    atoms: &[Atom],
) -> Result<(), Memory>
    requires form { is_filter (length pairings.now) atoms.now ≡ true }
    ensures whole { OnOk result (out.new ≡ out.old
        ++ ((codes "prefer " ++ number_text least) ++ 32 ∷ filter_text pairings.now atoms.now)) }
    ensures partly { OnErr result (HasPartly out.old
        ((codes "prefer " ++ number_text least) ++ 32
        ∷ filter_text pairings.now atoms.now) out.new) }
{
    put_count(out, b"prefer ", least)?;
    put_kept(out, b" ", pairings, atoms)
}

/// Appends the end of a stretch of days, where it is not its first day.
fn put_to(out: &mut List<u8>, horizon: &Horizon, first: u32, last: u32) -> Result<(), Memory>
    requires begins { 365 ≤ last }
    requires ends { last < 365 + month_days horizon.now }
    ensures whole { OnOk result (out.new ≡ out.old ++ to_text horizon.now first last) }
    ensures partly { OnErr result (HasPartly out.old (to_text horizon.now first last) out.new) }
{
    if first == last {
        return Ok(());
    }
    put_month_day(out, b" to ", horizon, last)
}

/// Appends a wish for days off.
#[tactic(auto, using(field_text::proofs::Prefixes::partly_front))]
fn put_off(out: &mut List<u8>, horizon: &Horizon, first: u32, last: u32) -> Result<(), Memory>
    requires begins { 365 ≤ first }
    requires order { first ≤ last }
    requires ends { last < 365 + month_days horizon.now }
    ensures whole { OnOk result (out.new ≡ out.old
        ++ ((codes "off " ++ day_word horizon.now first) ++ to_text horizon.now first last)) }
    ensures partly { OnErr result (HasPartly out.old
        ((codes "off " ++ day_word horizon.now first) ++ to_text horizon.now first last) out.new) }
{
    put_month_day(out, b"off ", horizon, first)?;
    put_to(out, horizon, first, last)
}

/// Appends a wish.
fn put_wish(out: &mut List<u8>, base: &Base, wish: &Wish) -> Result<(), Memory>
    requires form { is_wish base.now.rules.horizon (length base.now.pairings) wish.now ≡ true }
    ensures whole { OnOk result (out.new ≡ out.old ++ wish_text base.now wish.now) }
    ensures partly { OnErr result (HasPartly out.old (wish_text base.now wish.now) out.new) }
{
    let pairings = base.pairings.as_slice();
    match wish {
        Wish::Fly(pairing) => put_name(out, b"fly ", pairings, *pairing),
        Wish::Avoid(filter) => put_kept(out, b"avoid ", pairings, filter.as_slice()),
        Wish::Prefer(least, filter) => put_prefer(out, pairings, *least, filter.as_slice()),
        Wish::Off(first, last) => put_off(out, &base.rules.horizon, *first, *last),
        Wish::CreditBelow(minutes) => put_credit(out, b"credit below ", *minutes),
        Wish::CreditAbove(minutes) => put_credit(out, b"credit above ", *minutes),
        Wish::DaysOff(days) => put_count(out, b"daysoff ", *days),
    }
}

/// Appends a wish behind a space.
#[tactic(auto, using(field_text::proofs::Prefixes::partly_front))]
fn put_behind(out: &mut List<u8>, base: &Base, wish: &Wish) -> Result<(), Memory>
    requires form { is_wish base.now.rules.horizon (length base.now.pairings) wish.now ≡ true }
    ensures whole { OnOk result (out.new ≡ out.old ++ (32 ∷ wish_text base.now wish.now)) }
    ensures partly { OnErr result (HasPartly out.old (32 ∷ wish_text base.now wish.now) out.new) }
{
    put_bytes(out, b" ")?;
    put_wish(out, base, wish)
}

/// Appends a bid.
#[tactic(auto, using(field_text::proofs::Prefixes::partly_front), unfolding(crate::specs::Spelling::bid_text))]
pub fn put_text(out: &mut List<u8>, base: &Base, bid: &Bid) -> Result<(), Memory>
    requires form { is_wish base.now.rules.horizon (length base.now.pairings) bid.now.wish ≡ true }
    ensures whole { OnOk result (out.new ≡ out.old ++ bid_text base.now bid.now) }
    ensures partly { OnErr result (HasPartly out.old (bid_text base.now bid.now) out.new) }
{
    put_number(out, bid.weight)?;
    put_behind(out, base, &bid.wish)
}
