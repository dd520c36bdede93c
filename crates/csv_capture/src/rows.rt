//! What the rows up to here told: the levels after them, and the instants of their closed stamps.
ghost use Rattle.std.specs.Prelude.{◌≡◌, is_some};
ghost use Rattle.capture_core.specs.LevelsOf.{is_open, time_of_last};

use crate::stamp::{give_all, last_instant, next_stamp, push_if};
use capture_core::{Capture, CsvFault, End, Levels, Stamp, Watch};
use std::alloc::{AllocError, Global};
use wheel_types::{Instant, List};

/// What the rows up to here told.
#[derive(Drop)]
pub struct Rows {
    levels: Levels,
    instants: Vec<Instant>,
    ghost open: { is_open levels ≡ is_some (time_of_last levels) },
}

impl Rows {
    ghost use Rattle.std.specs.Prelude.{◌≡◌, [], List as Items, IfOk, OnOk, true};
    ghost use Rattle.capture_core.specs.Captures.{capture_of, at_time};
    ghost use Rattle.csv_capture.specs.Captures.{with_row};
    ghost use Rattle.capture_core.specs.LevelsOf.{is_open};
    ghost use Rattle.csv_capture.specs.RowsOf.{Keeps};
    ghost use Rattle.capture_core.specs.Stamps.{last_time};
    ghost use Rattle.capture_core.specs.declared.capture.Stamp.{Stamp as AStamp};
    ghost use Rattle.capture_core.specs.declared.capture.Watch.{Watch as AWatch};
    ghost use Rattle.capture_core.specs.declared.capture.End.TheVariants.{Clean, Csv};

    /// Before the first row.
    pub fn new(alloc: Global, watch: Watch) -> Rows
        ensures { Keeps watch [] result }
    {
        Rows {
            levels: Levels::new(watch),
            instants: Vec::new(alloc),
        }
    }

    /// The time of the last row.
    pub fn last_time(&self) -> Option<i128>
        ensures { (watch : AWatch) (told : Items AStamp) → Keeps watch told self.now → result ≡ last_time told }
    {
        self.levels.last_time()
    }

    /// Goes on to a stamp of this time, where it is greater than the last.
    fn go_to(&mut self, time: i128) -> Result<(), AllocError>
        ensures keeps { OnOk result ((watch : AWatch) (told : Items AStamp) → Keeps watch told self.old → Keeps watch (at_time time told) self.new) }
        ensures is_open { OnOk result (is_open self.new.levels ≡ true) }
    {
        let Some(last) = self.levels.last_time() else {
            self.levels.open(time);
            return Ok(());
        };
        if last < time {
            let closed = next_stamp(&mut self.levels, time);
            return push_if(&mut self.instants, closed);
        }
        Ok(())
    }

    /// Takes the time and the levels of the next row.
    pub fn take(&mut self, row: Stamp) -> Result<(), AllocError>
        ensures { OnOk result ((watch : AWatch) (told : Items AStamp) → Keeps watch told self.old → Keeps watch (with_row row told) self.new) }
    {
        self.go_to(row.time)?;
        give_all(&mut self.levels, row.given);
        Ok(())
    }

    /// The capture, where the next row has a fault.
    pub fn refused(self, fault: CsvFault) -> Capture
        ensures { (watch : AWatch) (told : Items AStamp) → Keeps watch told self → result ≡ capture_of watch (record { stamps = told; end = Csv fault }) }
    {
        let Rows { instants, .. } = self;
        Capture {
            instants: List::from_vec(instants),
            end: End::Csv(fault),
        }
    }

    /// The capture, where no row is left.
    pub fn finish(self) -> Result<Capture, AllocError>
        ensures { IfOk result (λ c. (watch : AWatch) (told : Items AStamp) → Keeps watch told self → c ≡ capture_of watch (record { stamps = told; end = Clean })) }
    {
        let Rows { levels, instants } = self;
        let mut instants = instants;
        push_if(&mut instants, last_instant(levels))?;
        Ok(Capture {
            instants: List::from_vec(instants),
            end: End::Clean,
        })
    }
}
