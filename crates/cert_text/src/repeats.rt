//! Which of some lines repeats an earlier one. Lines are sorted and neighbours compared: a text can
//! choose its lines so that a hash with no secret is the same for all of them.
ghost use Rattle.std.specs.Prelude.{◌≡◌, IfOk, IsPermutation, IsSorted};
ghost use Rattle.cert_text.specs.LensLines.{texts};
ghost use Rattle.cert_text.specs.Places.{AreFreshTo};
ghost use Rattle.cert_text.specs.Sorting.{digest_from, ArePairs, pair_cmp, is_repeat, lower, IsLeast};

use duty_calendar::Memory;
use std::alloc::Global;

/// A line between a number that like lines share and its place.
type Placed<'a> = (u64, &'a [u8], usize);

/// A number of a line: sorting looks at the bytes of lines only where their numbers are one.
fn digest(line: &[u8]) -> u64
    ensures value { result ≡ digest_from 0 line.now }
{
    let mut number: u64 = 0;
    for byte in line {
        number = (31 * number + u64::from(*byte)) % (1 << 56);
    }
    number
}

/// Lines with their numbers and places.
fn placed<'a>(alloc: Global, lines: &[&'a [u8]]) -> Result<Vec<Placed<'a>>, Memory>
    ensures pairs { IfOk result (λ made. ArePairs lines.now made.items) }
{
    let mut made = Vec::with_capacity(alloc, lines.len())?;
    for place in 0..lines.len() {
        made.push((digest(lines[place]), lines[place], place))?;
    }
    Ok(made)
}

/// Sorts lines, and lines that are alike by their places.
fn sort(pairs: &mut Vec<Placed>)
    ensures moved { IsPermutation pairs.old.items pairs.new.items }
    ensures sorted { IsSorted pair_cmp pairs.new.items }
{
    pairs.sort_unstable();
}

/// Whether two lines are alike, and the first one stands before the other.
fn is_repeat(first: &Placed, other: &Placed) -> bool
    ensures value { result ≡ is_repeat first.now other.now }
{
    first.1 == other.1 && first.2 < other.2
}

/// The less of a place and that of the other line, where this repeats the first one.
fn lower(least: usize, first: &Placed, other: &Placed) -> usize
    ensures value { result ≡ lower least first.now other.now }
{
    if is_repeat(first, other) {
        least.min(other.2)
    } else {
        least
    }
}

/// The least place of a line that its neighbour in front repeats, up to the number of lines.
fn least_repeat(pairs: &[Placed], count: usize) -> usize
    ensures least { IsLeast pairs.now count result }
{
    let mut least = count;
    for i in 1..pairs.len() {
        least = lower(least, &pairs[i - 1], &pairs[i]);
    }
    least
}

/// How many lines stand in front of the first one that repeats an earlier one: all of them where
/// none does.
pub fn count_fresh(alloc: Global, lines: &[&[u8]]) -> Result<usize, Memory>
    ensures fresh { IfOk result (λ count. AreFreshTo (texts lines.now) count) }
{
    let mut pairs = placed(alloc, lines)?;
    sort(&mut pairs);
    Ok(least_repeat(&pairs, lines.len()))
}
