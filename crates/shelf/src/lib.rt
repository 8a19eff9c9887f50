//! Where the program's files lie and where its text goes: two traits, with an implementation of
//! each in memory and one over the system.
#![tactic(auto)]

mod fault;
mod folder_shelf;
mod log;
mod memory_shelf;
mod memory_sink;
mod out_sink;
mod replace;
mod sink;
mod streams;
mod tally;
mod traits;

pub use fault::{ShelfFault, SinkFault};
pub use folder_shelf::FolderShelf;
pub use log::Log;
pub use memory_shelf::MemoryShelf;
pub use memory_sink::MemorySink;
pub use out_sink::OutSink;
pub use sink::Sink;
pub use tally::Tally;
pub use traits::Shelf;
