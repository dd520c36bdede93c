//! Pieces of work, each with what it is done on.

use image_audit::audit;
use image_format::View;
use position_nfa::Nfa;
use std::alloc::Global;
use subset_build::{build, build_table};
use table_images::compile;
use wheel_pattern::read_wheel;
use wheel_types::Wheel;

/// As many states as a table may have.
const MOST_STATES: u32 = 65_535;

/// A piece of work. Each gives a number, or `None` where its file is refused or memory runs out.
#[derive(Drop)]
pub enum Work {
    /// The layout of an image: its states.
    Verify(Vec<u8>),
    /// The layout and the table of an image: its states.
    Audit(Vec<u8>),
    /// The states of a wheel's table: how many.
    Build(Wheel),
    /// The states of a wheel's table and their rows: how many states.
    Table(Wheel),
    /// The image of a wheel: its bytes.
    Compile(Wheel),
}

/// The wheel of a file, or `None` where it is none.
pub fn wheel_of(alloc: Global, bytes: &[u8]) -> Option<Wheel> {
    read_wheel(alloc, bytes).ok()
}

/// The image of a wheel, or `None` where there is none.
pub fn compiled(alloc: Global, wheel: &Wheel) -> Option<Vec<u8>> {
    compile(alloc, wheel, MOST_STATES).ok()
}

/// How many states an image has that keeps its layout.
fn verified(bytes: &[u8]) -> Option<u32> {
    let view = View::verify(bytes).ok()?;
    Some(view.state_count())
}

/// How many states a sound image has.
fn audited(alloc: Global, bytes: &[u8]) -> Option<u32> {
    let sound = audit(alloc, View::verify(bytes).ok()?).ok()?;
    Some(sound.view().state_count())
}

/// How many states the table of a wheel has.
fn built(alloc: Global, wheel: &Wheel) -> Option<u32> {
    let nfa = Nfa::build(alloc, wheel).ok()?;
    let automaton = build(alloc, &nfa, MOST_STATES).ok()?;
    Some(automaton.count())
}

/// How many states the table of a wheel has, with their rows.
fn tabled(alloc: Global, wheel: &Wheel) -> Option<u32> {
    let nfa = Nfa::build(alloc, wheel).ok()?;
    let table = build_table(alloc, &nfa, MOST_STATES).ok()?;
    Some(table.count())
}

impl Work {
    /// The work of a name on a file, or `None` where there is no such work or the file is of no wheel.
    pub fn of(alloc: Global, name: &str, file: Vec<u8>) -> Option<Work> {
        match name {
            "verify" => Some(Work::Verify(file)),
            "audit" => Some(Work::Audit(file)),
            "build" => Some(Work::Build(wheel_of(alloc, &file)?)),
            "table" => Some(Work::Table(wheel_of(alloc, &file)?)),
            "compile" => Some(Work::Compile(wheel_of(alloc, &file)?)),
            _ => None,
        }
    }

    /// What the work gives once.
    fn once(&self, alloc: Global) -> Option<u64> {
        match self {
            Work::Verify(bytes) => verified(bytes).map(u64::from),
            Work::Audit(bytes) => audited(alloc, bytes).map(u64::from),
            Work::Build(wheel) => built(alloc, wheel).map(u64::from),
            Work::Table(wheel) => tabled(alloc, wheel).map(u64::from),
            Work::Compile(wheel) => compiled(alloc, wheel).map(|image| image.len() as u64),
        }
    }

    /// The sum of what so many rounds of the work give.
    pub fn rounds(&self, alloc: Global, rounds: u32) -> Option<u64> {
        let mut total = 0u64;
        for _ in 0..rounds {
            total = total.wrapping_add(self.once(alloc)?);
        }
        Some(total)
    }
}
