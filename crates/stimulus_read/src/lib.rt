//! What is read back from the files of stimuli: exactly the instants that were written, and a clean end.
#![tactic(auto)]

mod laws;

pub use laws::{
    csv_reads_back, dumps_read_back, rows_read_back, tables_read_back, times_read_back,
    vcd_reads_back,
};
