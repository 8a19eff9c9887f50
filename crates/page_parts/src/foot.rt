//! The foot of a page: which files it was made of, and by which program.

use crate::html::Html;
use duty_calendar::{List, Memory};
use field_text::put_bytes;
use sha2::{Digest, Sha256};
use std::alloc::Global;

/// A file that was read: its name, and the SHA-256 of its bytes.
#[derive(Clone, Copy)]
pub struct FileSum {
    pub name: &'static str,
    pub sum: [u8; 32],
}

/// The sum of a file.
pub fn sum_of(name: &'static str, bytes: &[u8]) -> FileSum {
    FileSum {
        name,
        sum: Sha256::digest(bytes),
    }
}

/// The sixteen digits.
static DIGITS: &[u8; 16] = b"0123456789abcdef";

/// Bytes as digits, two a byte.
pub fn hex_of(alloc: Global, bytes: &[u8]) -> Result<List<u8>, Memory> {
    let mut digits = List::new(alloc);
    for byte in bytes {
        let high = DIGITS[(*byte / 16) as usize];
        put_bytes(&mut digits, &[high, DIGITS[(*byte % 16) as usize]])?;
    }
    Ok(digits)
}

/// Appends the sums of files.
fn put_sums(alloc: Global, html: &mut Html, sums: &[FileSum]) -> Result<(), Memory> {
    for file in sums {
        let digits = hex_of(alloc, &file.sum)?;
        html.markup(b"<tr><th scope=\"row\">")?;
        html.text(file.name.as_bytes())?;
        html.markup(b"</th><td><code>")?;
        html.text(digits.as_slice())?;
        html.markup(b"</code></td></tr>\n")?;
    }
    Ok(())
}

/// Appends what program made the page.
fn put_program(html: &mut Html, built: &[u8]) -> Result<(), Memory> {
    if built.is_empty() {
        return html.markup(b"<p>Made by a program of pbs that was built without a record.</p>\n");
    }
    html.markup(b"<p>Made by the program of pbs that was built from <code>")?;
    html.text(built)?;
    html.markup(b"</code>.</p>\n")
}

/// Appends the foot: the SHA-256 of each file, what the program was built from, and the end of the document.
pub fn put_foot(
    alloc: Global,
    html: &mut Html,
    sums: &[FileSum],
    built: &[u8],
) -> Result<(), Memory> {
    html.markup(
        b"<footer>\n<details><summary>The files of this page, and their SHA-256</summary>\n<table class=\"sums\">\n",
    )?;
    put_sums(alloc, html, sums)?;
    html.markup(b"</table>\n")?;
    put_program(html, built)?;
    html.markup(b"</details>\n</footer>\n</body>\n</html>\n")
}
