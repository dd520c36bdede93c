//! What a reader answers.
ghost use Rattle.std.specs.Prelude.{◌≡◌};
ghost use Rattle.vcd_reader.specs.Answers.{answer_to};

use capture_core::VcdFault;
use thiserror::Error;

/// The first rule that a stream breaks, or want of memory.
#[derive(Clone, Copy, Debug, PartialEq, Eq, Error)]
pub enum FeedFault {
    /// The first rule that the stream breaks.
    #[error("{0}")]
    Refused(VcdFault),
    /// Want of memory. The reader then reads nothing more.
    #[error("want of memory")]
    Memory,
}

/// The answer that tells this fault, or none.
pub fn answer(fault: Option<VcdFault>) -> Result<(), FeedFault>
    ensures { result ≡ answer_to fault }
{
    match fault {
        Some(fault) => Err(FeedFault::Refused(fault)),
        None => Ok(()),
    }
}
