//! What the program sees of the outside: files that it reads from a shelf, and a sink that it writes to.
//!
//! Beside them it hands out the texts that are read and printed, and the places in them.
#![tactic(auto)]

mod failures;
mod file_map;
mod folder;
mod memory_shelf;
mod memory_sink;
mod no_fault;
mod out;
mod print;
mod shelf;
mod sink;

pub use asm_list::{Listed, Name};
pub use asm_source::{
    Place, Source, Sources, Spot, Text, append_integer, append_number, append_str,
};
pub use folder::FolderShelf;
pub use memory_shelf::MemoryShelf;
pub use memory_sink::MemorySink;
pub use no_fault::{NoFaultShelf, NoFaultSink};
pub use out::OutSink;
pub use print::{write_both, write_text};
pub use shelf::{ReadError, Shelf};
pub use sink::{Sink, SinkError};
