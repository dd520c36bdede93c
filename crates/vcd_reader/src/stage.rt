//! Where a reader is in a dump.
use crate::phase::Phase;
use vcd_header::Section;

/// Where a reader is: between two sections, inside one, or past the header.
#[derive(Clone, Copy, Debug, PartialEq, Eq)]
pub enum Stage {
    Level,
    Inside(Section),
    Past(Phase),
}
