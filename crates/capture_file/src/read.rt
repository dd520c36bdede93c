//! Reading a capture's bytes.
ghost use Rattle.std.specs.Prelude.{◌≡◌, ◌^◌, ◌++◌, IfOk, OnOk};
ghost use Rattle.wheel_types.specs.Verdicts.{IsRising, AreWithin};
ghost use Rattle.vcd_reader.specs.Dumps.{vcd_capture};
ghost use Rattle.vcd_reader.specs.Readers.{ForStream, StandsForFile, bytes_read, waiting_in};
ghost use Rattle.capture_file.specs.Forms.{file_capture, is_dump};

use capture_core::{Capture, End, Names, Watch};
use csv_capture::read_csv;
use std::alloc::Global;
use vcd_reader::{FeedFault, VcdReader};
use wheel_types::{Instant, List, Memory};

/// Whether the first byte past white space is a dollar sign, as a value change dump begins.
fn is_value_change_dump(bytes: &[u8]) -> bool
    ensures { result ≡ is_dump bytes.now }
{
    for byte in bytes {
        match *byte {
            b' ' | b'\t' | b'\n' | b'\r' => {}
            first => return first == b'$',
        }
    }
    false
}

/// Takes all instants that wait.
fn take_all(alloc: Global, reader: &mut VcdReader) -> Result<Vec<Instant>, Memory>
    ensures { IfOk result (λ all. all.items ≡ waiting_in reader.old) }
{
    let mut all = Vec::new(alloc);
    'instants: while let Some(instant) = reader.take() {
        all.push(instant)?;
    }
    Ok(all)
}

/// Reads all bytes of a value change dump, and says how it ends.
fn read_through(reader: &mut VcdReader, bytes: &[u8]) -> Result<End, Memory>
    requires room { bytes_read reader.old ≡ 0 }
    ensures end { ForStream reader.old (λ names watch handed before. IfOk result (λ end. end ≡ (vcd_capture names watch (before ++ bytes.now)).end)) }
    ensures stands { ForStream reader.old (λ names watch handed before. OnOk result (StandsForFile names watch handed reader.new (before ++ bytes.now))) }
{
    if let Err(FeedFault::Memory) = reader.feed(bytes) {
        return Err(Memory);
    }
    match reader.finish() {
        Ok(()) => Ok(End::Clean),
        Err(FeedFault::Refused(fault)) => Ok(End::Vcd(fault)),
        Err(FeedFault::Memory) => Err(Memory),
    }
}

/// The capture of a value change dump.
fn read_vcd(alloc: Global, bytes: &[u8], names: &Names, watch: Watch) -> Result<Capture, Memory>
    ensures capture { IfOk result (λ c. c ≡ vcd_capture names.now watch bytes.now) }
    ensures rising { IfOk result (λ c. IsRising c.instants) }
    ensures within { IfOk result (λ c. AreWithin (10 ^ 24) c.instants) }
{
    let mut reader = VcdReader::new(alloc, names, watch)?;
    let end = read_through(&mut reader, bytes)?;
    let instants = take_all(alloc, &mut reader)?;
    Ok(Capture {
        instants: List::from_vec(instants),
        end,
    })
}

/// The capture of a file's bytes: a value change dump where the first byte past white space is a dollar sign, else CSV. Every fault of
/// the file is the capture's end.
///
/// # Errors
/// Want of memory.
pub fn read_capture(
    alloc: Global,
    bytes: &[u8],
    names: &Names,
    watch: Watch,
) -> Result<Capture, Memory>
    ensures capture { IfOk result (λ c. c ≡ file_capture names.now watch bytes.now) }
    ensures rising { IfOk result (λ c. IsRising c.instants) }
    ensures within { IfOk result (λ c. AreWithin (10 ^ 24) c.instants) }
{
    if is_value_change_dump(bytes) {
        read_vcd(alloc, bytes, names, watch)
    } else {
        read_csv(alloc, bytes, names, watch)
    }
}
