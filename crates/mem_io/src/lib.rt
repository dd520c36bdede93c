//! A shelf and a sink in memory, which tell their bytes to contracts and can be made to fail at chosen calls.
#![tactic(auto)]

mod calls;
mod mem_files;
mod mem_shelf;
mod mem_sink;
mod mem_slots;

pub use mem_shelf::MemShelf;
pub use mem_sink::MemSink;
