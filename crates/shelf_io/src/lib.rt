//! Files read and written whole, over shelves and sinks in memory and over the system's.
//!
//! A [`Shelf`] is a set of named files, and a [`Sink`] takes bytes. Both count their faults, and
//! contracts say when a count rises. [`MemShelf`] and [`MemSink`] tell their bytes to contracts
//! and can be made to fail at chosen calls. [`RealShelf`] and [`StdSink`] stand over the system.
#![tactic(auto)]

mod fault;
mod real;
mod std_sink;
mod whole;

pub use fault::{LoadFault, PutFault};
pub use mem_io::{MemShelf, MemSink};
pub use real::RealShelf;
pub use shelf_traits::{IoFault, Shelf, Sink, Way};
pub use std_sink::StdSink;
pub use whole::{MAX_FILE, put_all, read_all, write_all};
