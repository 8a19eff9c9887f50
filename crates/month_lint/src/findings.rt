//! What was found, in order of files and lines.

use duty_calendar::Memory;
use file_places::Prose;
use month_files::File;
use std::alloc::Global;

/// How much is found before the search for faults ends.
const MOST: usize = 200;

/// What was found at a line of a file. Line 0 is the whole file.
#[derive(Drop)]
struct Finding {
    file: File,
    line: u64,
    words: Prose,
}

/// What was found so far.
#[derive(Drop)]
pub struct Findings {
    alloc: Global,
    list: Vec<Finding>,
}

/// The place of a file in the order in which they are read.
fn order_of(file: File) -> u64 {
    match file {
        File::Rules => 0,
        File::Pairings => 1,
        File::Duties => 2,
        File::Legs => 3,
        File::Crew => 4,
        File::History => 5,
        File::Fixed => 6,
        _ => 7,
    }
}

/// Where a finding stands among all.
fn key_of(finding: &Finding) -> u64 {
    order_of(finding.file)
        .saturating_mul(1_000_000_000_000)
        .saturating_add(finding.line)
}

/// Appends a finding.
fn put_finding(prose: &mut Prose, finding: &Finding) -> Result<(), Memory> {
    prose.text(finding.file.name().as_bytes())?;
    if finding.line > 0 {
        prose.say(b", line ")?;
        prose.number(finding.line)?;
    }
    prose.say(b": ")?;
    prose.add(&finding.words)?;
    prose.say(b"\n")
}

impl Findings {
    /// Nothing so far.
    pub fn new(alloc: Global) -> Findings {
        Findings {
            alloc,
            list: Vec::new(alloc),
        }
    }

    /// Memory for what is found.
    pub fn alloc(&self) -> Global {
        self.alloc
    }

    /// Whether nothing was found.
    pub fn is_empty(&self) -> bool {
        self.list.is_empty()
    }

    /// Whether so much was found that the search for faults ends.
    pub fn is_full(&self) -> bool {
        self.list.len() >= MOST
    }

    /// A text without words.
    pub fn words(&self) -> Prose {
        Prose::new(self.alloc)
    }

    /// Adds what was found.
    pub fn add(&mut self, file: File, line: u64, words: Prose) -> Result<(), Memory> {
        self.list.push(Finding { file, line, words })?;
        Ok(())
    }

    /// Adds what plain words say.
    pub fn say(&mut self, file: File, line: u64, text: &'static [u8]) -> Result<(), Memory> {
        let mut words = self.words();
        words.say(text)?;
        self.add(file, line, words)
    }

    /// Appends what was found, a line for each, in order of files and lines.
    pub fn put(&mut self, prose: &mut Prose) -> Result<(), Memory> {
        self.list.sort_by_key(|finding| key_of(finding))?;
        for finding in &self.list {
            put_finding(prose, finding)?;
        }
        Ok(())
    }
}
