//! What was done.

/// A line of the month of a member.
#[derive(Clone, Copy)]
pub enum View {
    /// The sums of the member.
    Sums,
    /// A day.
    Day,
    /// A bid that is granted.
    Granted,
    /// A bid that is denied.
    Denied,
}

/// What a line says was done.
#[derive(Clone, Copy)]
pub enum Done<'a> {
    Award,
    /// The number of scores.
    Vector(u64),
    Nodes(u64),
    Denials(u64),
    NoRoster,
    Budget(u64),
    Yes,
    YesNone,
    YesOpen(u64),
    /// The numbers of members and of pairings.
    Made(u64, u64),
    Migrated(u64),
    Traded(u64),
    WhatIf,
    Open(u64),
    /// The name of a pairing, how many vacant lines have it, and how many pilots could fly it.
    OpenTrip(&'a [u8], u64, u64),
    Calendar(&'a [u8], u64),
    Page(u64),
    View(View),
}
