//! The end of work that taps were told of.
ghost use Rattle.std.specs.Prelude.{◌≡◌, [], Err, ◌⊎◌, map};
ghost use Rattle.tap_board.specs.Meanings.{tails_of};
ghost use Rattle.run_ends.specs.Stages.{unclosed};

use run_ends::{Cause, Done};
use std::alloc::Global;
use tap_board::{Board, Tap};

/// How work ended, and the tails that notes is to get past the line.
#[derive(Drop)]
pub struct Ended {
    pub end: Result<Done, Cause>,
    pub tails: Vec<u8>,
}

/// Work that ended so, without tails. It takes no memory.
pub fn without_tails(alloc: Global, end: Result<Done, Cause>) -> Ended
    ensures end { result.end ≡ end }
    ensures tails { result.tails.items ≡ [] }
{
    Ended {
        end,
        tails: Vec::new(alloc),
    }
}

/// The end of work whose taps wanted memory as they were closed: that, but where a write failed before.
fn end_unclosed(end: Result<Done, Cause>) -> Result<Done, Cause>
    ensures { result ≡ unclosed end }
{
    match end {
        Err(Cause::WriteFault) => Err(Cause::WriteFault),
        _ => Err(Cause::Memory),
    }
}

/// Closes the board at the end of work. Where that wants memory, the work ends for that, but where a write failed before. There are tails
/// where the work does not end for want of memory.
pub fn close(alloc: Global, board: Board, end: Result<Done, Cause>) -> Ended
    ensures { ((¬ (end ≡ Err Cause.Memory)) × ((result.end ≡ end)
        × (result.tails.items ≡ tails_of (map (λ tap. (⟦<dyn Tap as Tap>⟧ tap.vtable).meaning tap.value) board.taps.items))))
        ⊎ ((result.tails.items ≡ []) × (result.end ≡ unclosed end)) }
{
    let Ok(tails) = board.close() else {
        return without_tails(alloc, end_unclosed(end));
    };
    match end {
        Err(Cause::Memory) => without_tails(alloc, Err(Cause::Memory)),
        end => Ended { end, tails },
    }
}
