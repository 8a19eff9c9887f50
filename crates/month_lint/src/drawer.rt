//! The eight texts of a month, from which rows with faults are taken out.

use crate::rows::blank_row;
use duty_calendar::Memory;
use field_text::FileName;
use month_files::Texts;
use std::alloc::Global;

/// A name in a row that has a fault.
#[derive(Drop)]
struct Spoilt {
    name: Vec<u8>,
}

/// The eight texts of a month, with what was taken out of them.
#[derive(Drop)]
pub struct Drawer {
    alloc: Global,
    pub texts: Texts,
    /// Whether the base is not known.
    pub no_base: bool,
    /// Whether the pairings were given up.
    pub no_trips: bool,
    /// Whether the pilots were given up.
    pub no_crew: bool,
    spoilt: Vec<Spoilt>,
}

/// A copy of bytes.
fn copied(alloc: Global, bytes: &[u8]) -> Result<Vec<u8>, Memory> {
    let mut copy = Vec::new(alloc);
    copy.extend_from_slice(bytes)?;
    Ok(copy)
}

impl Drawer {
    /// The texts that were read.
    pub fn new(alloc: Global, texts: Texts) -> Drawer {
        Drawer {
            alloc,
            texts,
            no_base: false,
            no_trips: false,
            no_crew: false,
            spoilt: Vec::new(alloc),
        }
    }

    /// The text of a file.
    pub fn text_of(&self, file: FileName) -> &[u8] {
        match file {
            FileName::Pairings => &self.texts.pairings,
            FileName::Duties => &self.texts.duties,
            FileName::Legs => &self.texts.legs,
            FileName::Crew => &self.texts.crew,
            FileName::History => &self.texts.history,
            FileName::Fixed => &self.texts.fixed,
        }
    }

    /// Takes the row of a number out of a file.
    pub fn take(&mut self, file: FileName, number: u32) -> Result<(), Memory> {
        let alloc = self.alloc;
        match file {
            FileName::Pairings => blank_row(alloc, &mut self.texts.pairings, number),
            FileName::Duties => blank_row(alloc, &mut self.texts.duties, number),
            FileName::Legs => blank_row(alloc, &mut self.texts.legs, number),
            FileName::Crew => blank_row(alloc, &mut self.texts.crew, number),
            FileName::History => blank_row(alloc, &mut self.texts.history, number),
            FileName::Fixed => blank_row(alloc, &mut self.texts.fixed, number),
        }
    }

    /// Gives up the pairings.
    pub fn lose_trips(&mut self) -> Result<(), Memory> {
        self.no_trips = true;
        self.texts.pairings = copied(self.alloc, b"pairing,need,credit\n")?;
        self.texts.duties = copied(self.alloc, b"pairing,no,report,parked,release,layover\n")?;
        self.texts.legs = copied(self.alloc, b"pairing,no,from,to,out,in\n")?;
        Ok(())
    }

    /// Gives up the pilots, but for one whose name none has.
    pub fn lose_crew(&mut self) -> Result<(), Memory> {
        let events = b"member,kind,report,parked,release,legs,credit\n";
        self.no_crew = true;
        self.texts.crew = copied(self.alloc, b"member,low,high\n_,0:00,200:00\n")?;
        self.texts.history = copied(self.alloc, events)?;
        self.texts.fixed = copied(self.alloc, events)?;
        Ok(())
    }

    /// Notes that a name stands in a row that has a fault.
    pub fn spoil(&mut self, name: &[u8]) -> Result<(), Memory> {
        let name = copied(self.alloc, name)?;
        self.spoilt.push(Spoilt { name })?;
        Ok(())
    }

    /// Whether a name stands in a row that has a fault.
    pub fn is_spoilt(&self, name: &[u8]) -> bool {
        self.spoilt.iter().any(|row| row.name.as_slice() == name)
    }
}
