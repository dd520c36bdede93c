//! What is wrong with the bytes of an image.

/// The first rule that the bytes of an image break.
///
/// A section is 0 for the header and 1 to 7 for those behind it. An entry is told by its number from 0; in the header by the byte at which
/// its word stands; the padding of a section by the number of the section's entries. Member sets are counted by states.
#[derive(Clone, Copy, Debug, PartialEq, Eq)]
pub enum ImageFault {
    /// The bytes do not begin with `WSYN`.
    Magic,
    /// The header's version is not 1.
    Version,
    /// The bytes are fewer than the header, or than its counts tell.
    Short,
    /// The bytes are more than the header's counts tell.
    Extra,
    /// An entry of a section is not above the one before.
    Order { section: u32, at: u32 },
    /// An entry of a section is out of its range.
    Range { section: u32, at: u32 },
}
