//! Charts, as SVG that is drawn in a field of 1000 by 100. It has no words but titles, so it may be stretched.

use crate::html::Html;
use duty_calendar::Memory;

/// A column of a chart: whose it is, how much there is, of how much, and from which value on the field shows it.
#[derive(Clone, Copy)]
pub struct Bar<'a> {
    pub name: &'a [u8],
    pub part: u32,
    pub whole: u32,
}

/// A share of a whole in hundredths, 100 at most.
fn share(part: u32, whole: u32) -> u32 {
    let hundredths = (u64::from(part) * 100).checked_div(u64::from(whole));
    hundredths.unwrap_or(0).min(100) as u32
}

/// Where the column of a number begins, of so many.
fn edge(number: usize, count: usize) -> u32 {
    let place = (number as u64)
        .saturating_mul(1000)
        .checked_div(count as u64);
    place.unwrap_or(0).min(1000) as u32
}

/// Appends an attribute of a number.
fn put_number(html: &mut Html, name: &'static [u8], value: u32) -> Result<(), Memory> {
    html.markup(name)?;
    html.number(value)?;
    html.markup(b"\"")
}

/// Appends a rectangle without its end.
fn put_rect(
    html: &mut Html,
    class: &'static [u8],
    left: u32,
    top: u32,
    wide: u32,
    high: u32,
) -> Result<(), Memory> {
    html.markup(b"<rect class=\"")?;
    html.markup(class)?;
    put_number(html, b"\" x=\"", left)?;
    put_number(html, b" y=\"", top)?;
    put_number(html, b" width=\"", wide)?;
    put_number(html, b" height=\"", high)?;
    html.markup(b">")
}

/// Appends what a column stands for, and the end of its rectangle.
fn put_title(html: &mut Html, bar: &Bar<'_>) -> Result<(), Memory> {
    html.markup(b"<title>")?;
    html.text(bar.name)?;
    html.markup(b": ")?;
    html.number(bar.part)?;
    html.markup(b" of ")?;
    html.number(bar.whole)?;
    html.markup(b"</title></rect>\n")
}

/// Appends the head of a chart, which is told by these words.
fn put_head(html: &mut Html, told: &'static [u8]) -> Result<(), Memory> {
    html.markup(
        b"<svg class=\"chart\" viewBox=\"0 0 1000 100\" preserveAspectRatio=\"none\" role=\"img\" aria-label=\"",
    )?;
    html.markup(told)?;
    html.markup(b"\">\n")
}

/// Appends the column of a bar: what there is above the foot, and a frame up to the whole.
fn put_bar(html: &mut Html, bar: &Bar<'_>, left: u32, wide: u32) -> Result<(), Memory> {
    let high = share(bar.part, bar.whole);
    put_rect(html, b"whole", left, 0, wide, 100)?;
    html.markup(b"</rect>")?;
    put_rect(html, b"part", left, 100u32.saturating_sub(high), wide, high)?;
    put_title(html, bar)
}

/// The width of a column between two edges.
fn width(left: u32, right: u32) -> u32 {
    let wide = right.saturating_sub(left);
    wide.saturating_sub(wide / 6 + 1).max(1)
}

/// Appends a chart of columns, each filled up to its share.
pub fn put_bars(html: &mut Html, told: &'static [u8], bars: &[Bar<'_>]) -> Result<(), Memory> {
    put_head(html, told)?;
    for (number, bar) in bars.iter().enumerate() {
        let left = edge(number, bars.len());
        let right = edge(number.saturating_add(1), bars.len());
        put_bar(html, bar, left, width(left, right))?;
    }
    html.markup(b"</svg>\n")
}

/// Appends the column of a dot: a frame from the foot to the whole, and a mark at the share.
fn put_dot(html: &mut Html, bar: &Bar<'_>, left: u32, wide: u32) -> Result<(), Memory> {
    let high = share(bar.part, bar.whole);
    put_rect(html, b"whole", left, 0, wide, 100)?;
    html.markup(b"</rect>")?;
    put_rect(html, b"dot", left, 98u32.saturating_sub(high), wide, 4)?;
    put_title(html, bar)
}

/// Appends a chart of columns, each with a mark at its share.
pub fn put_dots(html: &mut Html, told: &'static [u8], bars: &[Bar<'_>]) -> Result<(), Memory> {
    put_head(html, told)?;
    for (number, bar) in bars.iter().enumerate() {
        let left = edge(number, bars.len());
        let right = edge(number.saturating_add(1), bars.len());
        put_dot(html, bar, left, width(left, right))?;
    }
    html.markup(b"</svg>\n")
}
