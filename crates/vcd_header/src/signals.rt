//! The watched signals of a dump, found by their names.
ghost use Rattle.std.specs.Prelude.{◌≡◌, Ok, Err, IfOk, MatchResult};
ghost use Rattle.vcd_header.specs.Headers.{Header};
ghost use Rattle.vcd_header.specs.Sightings.{SumsUp, answer_if, answer_of};
ghost use Rattle.vcd_header.specs.Signals as signals;
ghost use Rattle.vcd_header.specs.declared.signals.Missing.{Missing as AMissing};

use crate::header::HeaderState;
use crate::sighting::Sighting;
use capture_core::{Names, VcdFault, Watch};
use std::alloc::{AllocError, Global};
use wheel_types::{Channel, Keep, List};

/// A text for each watched channel: the name that is wanted, or the identifier code that was found.
#[derive(Debug, Drop)]
pub struct Signals {
    pub crank: List<u8>,
    pub cam1: Option<List<u8>>,
    pub cam2: Option<List<u8>>,
}

/// What is wrong with a name.
#[derive(Clone, Copy, Debug, PartialEq, Eq)]
pub enum Missing {
    NoneHasIt,
    TwoCodes,
    TooWide,
}

/// The name of a cam, where the cam is watched.
fn name_if(alloc: Global, keep: Option<Keep>, name: &[u8]) -> Result<Option<List<u8>>, AllocError>
    ensures { IfOk result (λ v. v ≡ signals.name_if keep name.now) }
{
    match keep {
        Some(_) => Ok(Some(List::from_slice(alloc, name)?)),
        None => Ok(None),
    }
}

/// The names of the watched channels.
pub fn wanted_by(alloc: Global, names: &Names, watch: Watch) -> Result<Signals, AllocError>
    ensures { IfOk result (λ v. v ≡ signals.wanted_by names.now watch) }
{
    let crank = List::from_slice(alloc, names.crank.as_bytes())?;
    let cam1 = name_if(alloc, watch.cam1, names.cam1.as_bytes())?;
    let cam2 = name_if(alloc, watch.cam2, names.cam2.as_bytes())?;
    Ok(Signals { crank, cam1, cam2 })
}

/// The one code of the signal of which this was seen.
fn code_of(seen: &Sighting) -> Result<&List<u8>, Missing>
    ensures { MatchResult result (λ code. answer_of seen.now ≡ Ok code.now) (λ m. answer_of seen.now ≡ Err m) }
{
    match &seen.code {
        None => Err(Missing::NoneHasIt),
        Some(_) if seen.is_twofold => Err(Missing::TwoCodes),
        Some(_) if seen.is_wide => Err(Missing::TooWide),
        Some(code) => Ok(code),
    }
}

fn name_fault(channel: Channel, missing: Missing) -> VcdFault
    ensures { result ≡ signals.name_fault channel missing }
{
    match missing {
        Missing::NoneHasIt => VcdFault::NoSuchSignal { channel },
        Missing::TwoCodes => VcdFault::TwoSignals { channel },
        Missing::TooWide => VcdFault::WideSignal { channel },
    }
}

/// The code of the channel's signal, or the channel's fault.
fn found(
    alloc: Global,
    seen: &Sighting,
    channel: Channel,
) -> Result<Result<List<u8>, VcdFault>, AllocError>
    ensures { IfOk result (λ r. MatchResult r (λ code. answer_of seen.now ≡ Ok code)
        (λ f. (m : AMissing) × (answer_of seen.now ≡ Err m) × (f ≡ signals.name_fault channel m))) }
{
    match code_of(seen) {
        Ok(code) => Ok(Ok(List::from_slice(alloc, code.as_slice())?)),
        Err(missing) => Ok(Err(name_fault(channel, missing))),
    }
}

/// The same for a channel that may not be watched.
fn found_if(
    alloc: Global,
    seen: &Sighting,
    channel: Channel,
    name: &Option<List<u8>>,
) -> Result<Result<Option<List<u8>>, VcdFault>, AllocError>
    ensures { IfOk result (λ r. MatchResult r (λ code. answer_if name.now seen.now ≡ Ok code)
        (λ f. (m : AMissing) × (answer_if name.now seen.now ≡ Err m) × (f ≡ signals.name_fault channel m))) }
{
    if name.is_none() {
        return Ok(Ok(None));
    }
    match found(alloc, seen, channel)? {
        Ok(code) => Ok(Ok(Some(code))),
        Err(fault) => Ok(Err(fault)),
    }
}

/// The codes of what was seen, or the first fault of crank and cams.
fn all_found(
    alloc: Global,
    wanted: &Signals,
    header: &HeaderState,
) -> Result<Result<Signals, VcdFault>, AllocError>
    ensures { IfOk result (λ r. r ≡ signals.all_found (answer_of header.now.crank) (answer_if wanted.now.cam1 header.now.cam1) (answer_if wanted.now.cam2 header.now.cam2)) }
{
    let crank = match found(alloc, &header.crank, Channel::Crank)? {
        Ok(code) => code,
        Err(fault) => return Ok(Err(fault)),
    };
    let cam1 = match found_if(alloc, &header.cam1, Channel::Cam1, &wanted.cam1)? {
        Ok(code) => code,
        Err(fault) => return Ok(Err(fault)),
    };
    let cam2 = match found_if(alloc, &header.cam2, Channel::Cam2, &wanted.cam2)? {
        Ok(code) => code,
        Err(fault) => return Ok(Err(fault)),
    };
    Ok(Ok(Signals { crank, cam1, cam2 }))
}

/// The codes of the wanted signals among the variables that the header declares.
pub fn signals_of(
    alloc: Global,
    wanted: &Signals,
    header: &HeaderState,
) -> Result<Result<Signals, VcdFault>, AllocError>
    ensures { IfOk result (λ r. (h : Header) → SumsUp wanted.now header.now h → r ≡ signals.signals_of wanted.now h.vars) }
{
    all_found(alloc, wanted, header)
}
