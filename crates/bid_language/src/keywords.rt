//! The words of the language.
ghost use Rattle.std.specs.Prelude.{◌≡◌};
ghost use Rattle.bid_language.specs.Keywords.{is_text, kind_of, test_kind_of, side_of, bound_of, weekday_of};

use duty_calendar::Weekday;

/// What a wish begins with.
#[derive(Clone, Copy, Debug)]
pub enum Kind {
    Fly,
    Avoid,
    Prefer,
    Off,
    Credit,
    DaysOff,
}

/// What a test of a filter begins with.
#[derive(Clone, Copy, Debug)]
pub enum TestKind {
    Layover,
    Departs,
    Arrives,
    Report,
    Release,
    Days,
    Weekday,
    Pairing,
}

/// Which side of a time.
#[derive(Clone, Copy, Debug)]
pub enum Side {
    Before,
    After,
}

/// Which side of a credit.
#[derive(Clone, Copy, Debug)]
pub enum Bound {
    Below,
    Above,
}

/// Whether the text is this word.
#[tactic(auto, unfolding(crate::specs::Keywords::is_text))]
pub fn is_text(text: &[u8], word: &[u8]) -> bool
    ensures value { result ≡ is_text text.now word.now }
{
    text == word
}

/// The kind of wish that the word begins.
pub fn kind_of(text: &[u8]) -> Option<Kind>
    ensures value { result ≡ kind_of text.now }
{
    if is_text(text, b"fly") {
        return Some(Kind::Fly);
    }
    if is_text(text, b"avoid") {
        return Some(Kind::Avoid);
    }
    if is_text(text, b"prefer") {
        return Some(Kind::Prefer);
    }
    if is_text(text, b"off") {
        return Some(Kind::Off);
    }
    if is_text(text, b"credit") {
        return Some(Kind::Credit);
    }
    if is_text(text, b"daysoff") {
        return Some(Kind::DaysOff);
    }
    None
}

/// The kind of test that the word begins.
pub fn test_kind_of(text: &[u8]) -> Option<TestKind>
    ensures value { result ≡ test_kind_of text.now }
{
    if is_text(text, b"layover") {
        return Some(TestKind::Layover);
    }
    if is_text(text, b"departs") {
        return Some(TestKind::Departs);
    }
    if is_text(text, b"arrives") {
        return Some(TestKind::Arrives);
    }
    if is_text(text, b"report") {
        return Some(TestKind::Report);
    }
    if is_text(text, b"release") {
        return Some(TestKind::Release);
    }
    if is_text(text, b"days") {
        return Some(TestKind::Days);
    }
    if is_text(text, b"weekday") {
        return Some(TestKind::Weekday);
    }
    if is_text(text, b"pairing") {
        return Some(TestKind::Pairing);
    }
    None
}

/// The side that the word names.
pub fn side_of(text: &[u8]) -> Option<Side>
    ensures value { result ≡ side_of text.now }
{
    if is_text(text, b"before") {
        return Some(Side::Before);
    }
    if is_text(text, b"after") {
        return Some(Side::After);
    }
    None
}

/// The side of a credit that the word names.
pub fn bound_of(text: &[u8]) -> Option<Bound>
    ensures value { result ≡ bound_of text.now }
{
    if is_text(text, b"below") {
        return Some(Bound::Below);
    }
    if is_text(text, b"above") {
        return Some(Bound::Above);
    }
    None
}

/// The day of the week that the word names.
pub fn weekday_of(text: &[u8]) -> Option<Weekday>
    ensures value { result ≡ weekday_of text.now }
{
    if is_text(text, b"MON") {
        return Some(Weekday::Mon);
    }
    if is_text(text, b"TUE") {
        return Some(Weekday::Tue);
    }
    if is_text(text, b"WED") {
        return Some(Weekday::Wed);
    }
    if is_text(text, b"THU") {
        return Some(Weekday::Thu);
    }
    if is_text(text, b"FRI") {
        return Some(Weekday::Fri);
    }
    if is_text(text, b"SAT") {
        return Some(Weekday::Sat);
    }
    if is_text(text, b"SUN") {
        return Some(Weekday::Sun);
    }
    None
}
