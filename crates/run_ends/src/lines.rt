//! The line of a cause on notes. It is made without taking memory.
ghost use Rattle.std.specs.Prelude.{◌≡◌, ◌≤◌, ◌+◌, ◌++◌, ◌∷◌, [], Some, None, length, decimal};
ghost use Rattle.arrayvec.specs.ArrayString.{array_string_len};
ghost use Rattle.run_ends.specs.Notes.{line, line_with, line_at, line_with_at, numbers_text, channel_text, column_text, wheel_line, pattern_line, table_line, csv_line, vcd_line, image_line, mismatch_line, audit_line, refusal_line, limit_line, note_of};

use crate::{Cause, Limit, Refusal};
use arrayvec::ArrayString;
use audit_faults::AuditFault;
use capture_core::{Column, CsvFault, VcdFault};
use image_layout::ImageFault;
use itoa::Buffer;
use wheel_pattern::{PatternFault, TableFault};
use wheel_types::{Channel, WheelFault};

/// A line of at most 128 bytes.
pub type Line = ArrayString<128>;

/// A text and a line feed.
fn plain(text: &str) -> Line
    requires { length text.now ≤ 127 }
    ensures { result.bytes ≡ line text.now }
{
    let mut line = ArrayString::new();
    line.push_str(text);
    line.push_str("\n");
    line
}

/// A text, a word and a line feed.
fn with_word(text: &str, word: &str) -> Line
    requires { length text.now + length word.now ≤ 127 }
    ensures { result.bytes ≡ line_with text.now word.now }
{
    let mut line = ArrayString::new();
    line.push_str(text);
    line.push_str(word);
    line.push_str("\n");
    line
}

/// Puts a number at the end of a line.
fn push_number(line: &mut Line, number: u64)
    requires { array_string_len line.old + 20 ≤ 128 }
    ensures bytes { line.new.bytes ≡ line.old.bytes ++ decimal number }
    ensures room { array_string_len line.new ≤ array_string_len line.old + 20 }
{
    let mut buffer = Buffer::new();
    line.push_str(buffer.format(number));
}

/// A text, a number and a line feed.
fn with_number(text: &str, number: u64) -> Line
    requires { length text.now ≤ 107 }
    ensures { result.bytes ≡ line_at text.now number }
{
    let mut line = ArrayString::new();
    line.push_str(text);
    push_number(&mut line, number);
    line.push_str("\n");
    line
}

/// A text, a word, a text, a number and a line feed.
fn with_word_and_number(text: &str, word: &str, more: &str, number: u64) -> Line
    requires { length text.now + length word.now + length more.now ≤ 107 }
    ensures { result.bytes ≡ line_with_at text.now word.now more.now number }
{
    let mut line = ArrayString::new();
    line.push_str(text);
    line.push_str(word);
    line.push_str(more);
    push_number(&mut line, number);
    line.push_str("\n");
    line
}

/// A text, numbers with a blank between two, and a line feed.
fn with_two_numbers(text: &str, first: u64, second: u64) -> Line
    requires { length text.now ≤ 80 }
    ensures { result.bytes ≡ line_with text.now (numbers_text (first ∷ second ∷ [])) }
{
    let mut line = ArrayString::new();
    line.push_str(text);
    push_number(&mut line, first);
    line.push_str(" ");
    push_number(&mut line, second);
    line.push_str("\n");
    line
}

/// Puts three numbers at the end of a line, with a blank between two.
fn push_three(line: &mut Line, first: u64, second: u64, third: u64)
    requires { array_string_len line.old + 62 ≤ 128 }
    ensures bytes { line.new.bytes ≡ line.old.bytes ++ numbers_text (first ∷ second ∷ third ∷ []) }
    ensures room { array_string_len line.new ≤ array_string_len line.old + 62 }
{
    push_number(line, first);
    line.push_str(" ");
    push_number(line, second);
    line.push_str(" ");
    push_number(line, third);
}

/// A text, three numbers with a blank between two, and a line feed.
fn with_three_numbers(text: &str, first: u64, second: u64, third: u64) -> Line
    requires { length text.now ≤ 60 }
    ensures { result.bytes ≡ line_with text.now (numbers_text (first ∷ second ∷ third ∷ [])) }
{
    let mut line = ArrayString::new();
    line.push_str(text);
    push_three(&mut line, first, second, third);
    line.push_str("\n");
    line
}

/// The name of a channel.
fn channel_name(channel: Channel) -> &'static str
    ensures name { result.now ≡ channel_text channel }
    ensures short { length result.now ≤ 5 }
{
    match channel {
        Channel::Crank => "crank",
        Channel::Cam1 => "cam1",
        Channel::Cam2 => "cam2",
    }
}

/// The name of a column.
fn column_name(column: Column) -> &'static str
    ensures name { result.now ≡ column_text column }
    ensures short { length result.now ≤ 5 }
{
    match column {
        Column::Time => "time",
        Column::Crank => "crank",
        Column::Cam1 => "cam1",
        Column::Cam2 => "cam2",
    }
}

/// The line of the rule of a wheel that is broken.
fn wheel_note(fault: WheelFault) -> Line
    ensures { result.bytes ≡ wheel_line fault }
{
    match fault {
        WheelFault::Degrees => plain("wheel: degrees"),
        WheelFault::SlotCount => plain("wheel: slot count"),
        WheelFault::SlotValue { at } => with_number("wheel: slot value ", at),
        WheelFault::Phasing { cam } => with_word("wheel: phasing ", channel_name(cam)),
        WheelFault::Rpm => plain("wheel: rpm"),
        WheelFault::Ratio => plain("wheel: ratio"),
        WheelFault::NoCrankEdge => plain("wheel: no crank edge"),
    }
}

/// The line of a fault of a wheel file.
fn pattern_note(fault: PatternFault) -> Line
    ensures { result.bytes ≡ pattern_line fault }
{
    match fault {
        PatternFault::NotToml => plain("wheel: not toml"),
        PatternFault::UnknownKey => plain("wheel: unknown key"),
        PatternFault::BothForms => plain("wheel: both forms"),
        PatternFault::MissingKey { key } => with_word("wheel: missing key ", key.text()),
        PatternFault::BadValue { key } => with_word("wheel: bad value ", key.text()),
        PatternFault::Wheel(fault) => wheel_note(fault),
        PatternFault::Memory => plain("want of memory"),
    }
}

/// The line of a fault of a C source.
fn table_note(fault: TableFault) -> Line
    ensures { result.bytes ≡ table_line fault }
{
    match fault {
        TableFault::NoArray => plain("table: no array"),
        TableFault::TwoArrays => plain("table: two arrays"),
        TableFault::BadText { at } => with_number("table: bad text ", at),
        TableFault::SlotValue { at } => with_number("table: slot value ", at),
        TableFault::Memory => plain("want of memory"),
    }
}

/// The line of the first fault of a capture in CSV.
fn csv_note(fault: CsvFault) -> Line
    ensures { result.bytes ≡ csv_line fault }
{
    match fault {
        CsvFault::NoColumn { column } => with_word("capture: no column ", column_name(column)),
        CsvFault::TwoColumns { column } => with_word("capture: two columns ", column_name(column)),
        CsvFault::ShortRow { row } => with_number("capture: short row ", row),
        CsvFault::BadTime { row } => with_number("capture: bad time row ", row),
        CsvFault::TimeTooLarge { row } => with_number("capture: time too large row ", row),
        CsvFault::TimeTooFine { row } => with_number("capture: time too fine row ", row),
        CsvFault::TimeFalls { row } => with_number("capture: time falls row ", row),
        CsvFault::BadLevel { row, column } => {
            with_word_and_number("capture: bad level ", column_name(column), " row ", row)
        }
    }
}

/// The line of the first fault of a value change dump.
fn vcd_note(fault: VcdFault) -> Line
    ensures { result.bytes ≡ vcd_line fault }
{
    match fault {
        VcdFault::NoTimescale => plain("capture: no timescale"),
        VcdFault::BadToken { at } => with_number("capture: bad token byte ", at),
        VcdFault::TimeFalls { at } => with_number("capture: time falls byte ", at),
        VcdFault::TimeTooLarge { at } => with_number("capture: time too large byte ", at),
        VcdFault::NoSuchSignal { channel } => {
            with_word("capture: no signal ", channel_name(channel))
        }
        VcdFault::TwoSignals { channel } => {
            with_word("capture: two signals ", channel_name(channel))
        }
        VcdFault::WideSignal { channel } => {
            with_word("capture: wide signal ", channel_name(channel))
        }
        VcdFault::Cut { at } => with_number("capture: cut byte ", at),
    }
}

/// The line of the first rule of the layout that an image breaks.
fn image_note(fault: ImageFault) -> Line
    ensures { result.bytes ≡ image_line fault }
{
    match fault {
        ImageFault::Magic => plain("image: magic"),
        ImageFault::Version => plain("image: version"),
        ImageFault::Short => plain("image: short"),
        ImageFault::Extra => plain("image: extra"),
        ImageFault::Order { section, at } => {
            with_two_numbers("image: order ", u64::from(section), u64::from(at))
        }
        ImageFault::Range { section, at } => {
            with_two_numbers("image: range ", u64::from(section), u64::from(at))
        }
    }
}

/// The line of an entry of a state's row, where no state is the due one.
fn mismatch_without_due(state: u64, letter: u64, found: u64) -> Line
    ensures { result.bytes ≡ mismatch_line state letter found None }
{
    let mut line = ArrayString::new();
    line.push_str("audit: mismatch ");
    push_three(&mut line, state, letter, found);
    line.push_str(" none");
    line.push_str("\n");
    line
}

/// The line of an entry of a state's row, where another state is the due one.
fn mismatch_with_due(state: u64, letter: u64, found: u64, due: u64) -> Line
    ensures { result.bytes ≡ mismatch_line state letter found (Some due) }
{
    let mut line = ArrayString::new();
    line.push_str("audit: mismatch ");
    push_three(&mut line, state, letter, found);
    line.push_str(" ");
    push_number(&mut line, due);
    line.push_str("\n");
    line
}

/// The line of an entry of a state's row that is not the due one.
fn mismatch_note(state: u32, letter: u32, found: u32, due: Option<u32>) -> Line
    ensures { result.bytes ≡ mismatch_line state letter found due }
{
    let (state, letter, found) = (u64::from(state), u64::from(letter), u64::from(found));
    match due {
        None => mismatch_without_due(state, letter, found),
        Some(due) => mismatch_with_due(state, letter, found, u64::from(due)),
    }
}

/// The line of the first difference between an image and the table of its own wheel.
fn audit_note(fault: AuditFault) -> Line
    ensures { result.bytes ≡ audit_line fault }
{
    match fault {
        AuditFault::TooManyPlaces => plain("audit: places"),
        AuditFault::Places { at, .. } => with_number("audit: place ", u64::from(at)),
        AuditFault::TimeCut { at, .. } => with_number("audit: time cut ", u64::from(at)),
        AuditFault::RatioCut { at, .. } => with_number("audit: ratio cut ", u64::from(at)),
        AuditFault::Start { word, .. } => with_number("audit: start ", u64::from(word)),
        AuditFault::Twice { first, state } => {
            with_two_numbers("audit: twice ", u64::from(first), u64::from(state))
        }
        AuditFault::Kind { state, .. } => with_number("audit: kind ", u64::from(state)),
        AuditFault::Mismatch {
            state,
            letter,
            found,
            due,
        } => { mismatch_note(state, letter, found, due) }
        AuditFault::Unreached { state } => with_number("audit: unreached ", u64::from(state)),
        AuditFault::Memory => plain("want of memory"),
    }
}

/// The line of a refused input.
fn refusal_note(refusal: Refusal) -> Line
    ensures { result.bytes ≡ refusal_line refusal }
{
    match refusal {
        Refusal::Wheel(no_wheel) => pattern_note(no_wheel.fault),
        Refusal::Table(no_table) => table_note(no_table.fault),
        Refusal::Csv(fault) => csv_note(fault),
        Refusal::Vcd(fault) => vcd_note(fault),
        Refusal::Report { at } => with_number("report: bad line ", at),
        Refusal::Certificate { at } => with_number("certificate: bad line ", at),
        Refusal::Image(fault) => image_note(fault),
        Refusal::Audit(not_sound) => audit_note(not_sound.fault),
        Refusal::Stuck { gap, low, high } => {
            with_three_numbers("stuck ", u64::from(gap), low, high)
        }
    }
}

/// The line of a limit that was passed.
fn limit_note(limit: Limit) -> Line
    ensures { result.bytes ≡ limit_line limit }
{
    match limit {
        Limit::Places => plain("limit: places"),
        Limit::States { limit } => with_number("limit: states ", limit as u64),
        Limit::File => plain("limit: file"),
        Limit::Edges => plain("limit: edges"),
    }
}

/// The line of a cause, with its line feed. Bytes and entries are counted from 0, rows from 1.
pub fn note(cause: Cause) -> Line
    ensures { result.bytes ≡ note_of cause }
{
    match cause {
        Cause::Usage => plain("usage"),
        Cause::Refused(refusal) => refusal_note(refusal),
        Cause::Limit(limit) => limit_note(limit),
        Cause::ReadFault => plain("read fault"),
        Cause::WriteFault => plain("write fault"),
        Cause::Memory => plain("want of memory"),
    }
}
