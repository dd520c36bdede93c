//! The board, which keeps taps in order.
ghost use Rattle.std.specs.Prelude.{◌≡◌, ◌<◌, map, ◌++◌, OnOk, OnErr, IfOk, IsTrue, ◌↔◌, length, remove, vec_len};
ghost use Rattle.tap_board.specs.Marks.{mark_of};
ghost use Rattle.tap_board.specs.Meanings.{Meaning, marked, has_stopped, told, IsToldInPart, tail_of, tails_of};
ghost use Rattle.tap_board.specs.declared.tap.Go.TheVariants as go;

use crate::{Go, Tap};
use wheel_types::{Memory, Report};

/// The live taps in order. What a board means is the list of their meanings.
#[derive(Drop)]
pub struct Board {
    taps: Vec<Box<dyn Tap>>,
}

/// One tap takes a report.
fn take(tap: &mut Box<dyn Tap>, report: &Report) -> Result<Go, Memory>
    ensures taken { OnOk result (meaning tap.new ≡ marked (mark_of report.now.verdict) (meaning tap.old)) }
    ensures stop { IfOk result (λ answer. (answer ≡ go.Stop) ↔ IsTrue (has_stopped (meaning tap.new))) }
    ensures err { OnErr result (meaning tap.new ≡ meaning tap.old) }
{
    tap.take(report)
}

/// One tap puts its text behind `out`.
fn finish(tap: &mut Box<dyn Tap>, out: &mut Vec<u8>) -> Result<(), Memory>
    ensures { OnOk result (out.new.items ≡ out.old.items ++ tail_of (meaning tap.old)) }
{
    tap.finish(out)
}

/// Drops the tap at a place. The later ones move up.
fn drop_at(taps: &mut Vec<Box<dyn Tap>>, at: usize)
    requires { at < vec_len taps.old }
    ensures { taps.new.items ≡ remove taps.old.items at }
{
    drop(taps.remove(at));
}

impl Board {
    /// A board of these taps, which are live in this order. It has told them nothing. It takes no memory.
    pub fn new(taps: Vec<Box<dyn Tap>>) -> Board
        ensures { map meaning result.taps.items ≡ map meaning taps.items }
    {
        Board { taps }
    }

    /// Each live tap takes the report, in order, and those that answer `Stop` are dropped.
    ///
    /// # Errors
    ///
    /// `Memory`, where a tap wants it: then the taps before that one have taken the report (and those of them that stopped are dropped),
    /// and that one and those after it are as they were.
    pub fn tell(&mut self, report: &Report) -> Result<(), Memory>
        ensures told { OnOk result
            (map meaning self.new.taps.items ≡ told (mark_of report.now.verdict) (map meaning self.old.taps.items)) }
        ensures err { OnErr result
            (IsToldInPart (mark_of report.now.verdict) (map meaning self.old.taps.items) (map meaning self.new.taps.items)) }
    {
        let mut at = 0;
        while at < self.taps.len() {
            match take(&mut self.taps[at], report)? {
                Go::On => at += 1,
                Go::Stop => drop_at(&mut self.taps, at),
            }
        }
        Ok(())
    }

    /// How many taps are live. It takes no memory.
    pub fn live(&self) -> usize
        ensures { result ≡ length (map meaning self.now.taps.items) }
    {
        self.taps.len()
    }

    /// The texts of the live taps in order. All taps are dropped.
    ///
    /// # Errors
    ///
    /// `Memory`, where there is none for the text; then too all taps are dropped.
    pub fn close(self) -> Result<Vec<u8>, Memory>
        ensures { IfOk result (λ text. text.items ≡ tails_of (map meaning self.taps.items)) }
    {
        let mut text = Vec::new(*self.taps.allocator());
        for mut tap in self.taps {
            finish(&mut tap, &mut text)?;
        }
        Ok(text)
    }
}
