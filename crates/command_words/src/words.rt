//! The words of a command.
ghost use Rattle.std.specs.Prelude.{◌≡◌, ◌≢◌, IsTrue, IfSome, map, string_bytes};
ghost use Rattle.std.specs.Option.{option_map};
ghost use Rattle.command_words.specs.Words.{command_of, replay_by, import_by, size_by, compile_by, check_by, audit_by, trace_by};
ghost use Rattle.command_words.specs.Words.{apart, differ, order_of, AreApart, AsksGaps};

use crate::numbers::Form;
use crate::options::Options;
use crate::spoken::{hear, is_operand};
use crate::stimuli::{read_self_test, read_stim};

/// A command with its operands and options.
#[derive(Clone, Copy, Debug)]
pub enum Command<'a> {
    /// Replays the capture of one file over the model of another; `cert`, where it is given, is the file that gets the report's
    /// certificate. The names differ.
    Replay {
        model: &'a str,
        capture: &'a str,
        cert: Option<&'a str>,
        options: Options<'a>,
    },
    /// Checks the certificate of one file for the report of another, over a wheel and a capture. The names differ.
    Check {
        wheel: &'a str,
        capture: &'a str,
        report: &'a str,
        cert: &'a str,
        options: Options<'a>,
    },
    /// Prints the slots of the table that the file of a C source has under a name.
    Import {
        source: &'a str,
        name: &'a str,
    },
    /// Tells the sizes of the table of a wheel's file.
    Size {
        wheel: &'a str,
    },
    /// Compiles the wheel of one file into an image, which another file gets. The names differ.
    Compile {
        wheel: &'a str,
        image: &'a str,
    },
    /// Audits the image of one file.
    Audit {
        image: &'a str,
    },
    /// Traces the capture of one file through the image of another. The names differ.
    Trace {
        image: &'a str,
        capture: &'a str,
        options: Options<'a>,
    },
    /// Makes a stimulus of so many gaps, from one to a million, for the wheel of one file: a capture of this form, which another file
    /// gets. The names differ.
    Stim {
        wheel: &'a str,
        form: Form,
        seed: u64,
        gaps: u32,
        file: &'a str,
    },
    /// Tests the wheel of one file on a stimulus of so many gaps, from one to a million.
    SelfTest {
        wheel: &'a str,
        seed: u64,
        gaps: u32,
    },
}

/// Whether the file names of a replay differ.
fn are_apart(model: &str, capture: &str, cert: Option<&str>) -> bool
    ensures value { result ≡ apart model.now capture.now (option_map (λ s. s.now) cert.entry) }
    ensures differ { IsTrue result → IfSome cert.entry (λ cert. (model.now ≢ cert.now) × (capture.now ≢ cert.now)) }
{
    match cert {
        None => model != capture,
        Some(cert) => model != capture && model != cert && capture != cert,
    }
}

/// The replay that its words give.
fn read_replay(words: &[String]) -> Option<Command<'_>>
    ensures order { option_map order_of result ≡ replay_by (map string_bytes words.now) }
    ensures gaps { IfSome result (λ command. AsksGaps (order_of command)) }
    ensures apart { IfSome result (λ command. AreApart (order_of command)) }
{
    let spoken = match hear(words) {
        Some(spoken) => spoken,
        None => return None,
    };
    if spoken.third.is_some() || spoken.wants.is_some() {
        return None;
    }
    match (spoken.first, spoken.second) {
        (Some(model), Some(capture)) => {
            if !are_apart(model, capture, spoken.cert) {
                return None;
            }
            Some(Command::Replay {
                model,
                capture,
                cert: spoken.cert,
                options: spoken.options,
            })
        }
        _ => None,
    }
}

/// Whether four words all differ.
fn all_differ(a: &str, b: &str, c: &str, d: &str) -> bool
    ensures { result ≡ differ a.now b.now c.now d.now }
{
    let first = a != b && a != c && a != d;
    let rest = b != c && b != d && c != d;
    first && rest
}

/// The check that its words give.
fn read_check(words: &[String]) -> Option<Command<'_>>
    ensures order { option_map order_of result ≡ check_by (map string_bytes words.now) }
    ensures gaps { IfSome result (λ command. AsksGaps (order_of command)) }
{
    let spoken = match hear(words) {
        Some(spoken) => spoken,
        None => return None,
    };
    if spoken.cert.is_some() || spoken.wants.is_some() {
        return None;
    }
    match (spoken.first, spoken.second, spoken.third, spoken.fourth) {
        (Some(wheel), Some(capture), Some(report), Some(cert)) => {
            if !all_differ(wheel, capture, report, cert) {
                return None;
            }
            Some(Command::Check {
                wheel,
                capture,
                report,
                cert,
                options: spoken.options,
            })
        }
        _ => None,
    }
}

/// The import that its words give.
fn read_import(words: &[String]) -> Option<Command<'_>>
    ensures order { option_map order_of result ≡ import_by (map string_bytes words.now) }
    ensures gaps { IfSome result (λ command. AsksGaps (order_of command)) }
{
    let [source, name] = words else {
        return None;
    };
    let (source, name) = (source.as_str(), name.as_str());
    if is_operand(source) && is_operand(name) {
        Some(Command::Import { source, name })
    } else {
        None
    }
}

/// The size that its words ask for.
fn read_size(words: &[String]) -> Option<Command<'_>>
    ensures order { option_map order_of result ≡ size_by (map string_bytes words.now) }
    ensures gaps { IfSome result (λ command. AsksGaps (order_of command)) }
{
    let [wheel] = words else {
        return None;
    };
    let wheel = wheel.as_str();
    if is_operand(wheel) {
        Some(Command::Size { wheel })
    } else {
        None
    }
}

/// The compile that its words give.
fn read_compile(words: &[String]) -> Option<Command<'_>>
    ensures order { option_map order_of result ≡ compile_by (map string_bytes words.now) }
    ensures gaps { IfSome result (λ command. AsksGaps (order_of command)) }
{
    let [wheel, image] = words else {
        return None;
    };
    let (wheel, image) = (wheel.as_str(), image.as_str());
    if is_operand(wheel) && is_operand(image) && wheel != image {
        Some(Command::Compile { wheel, image })
    } else {
        None
    }
}

/// The audit that its words ask for.
fn read_audit(words: &[String]) -> Option<Command<'_>>
    ensures order { option_map order_of result ≡ audit_by (map string_bytes words.now) }
    ensures gaps { IfSome result (λ command. AsksGaps (order_of command)) }
{
    let [image] = words else {
        return None;
    };
    let image = image.as_str();
    if is_operand(image) {
        Some(Command::Audit { image })
    } else {
        None
    }
}

/// The trace that its words give.
fn read_trace(words: &[String]) -> Option<Command<'_>>
    ensures order { option_map order_of result ≡ trace_by (map string_bytes words.now) }
    ensures gaps { IfSome result (λ command. AsksGaps (order_of command)) }
{
    let spoken = match hear(words) {
        Some(spoken) => spoken,
        None => return None,
    };
    if spoken.third.is_some() || spoken.cert.is_some() || spoken.wants.is_some() {
        return None;
    }
    match (spoken.first, spoken.second) {
        (Some(image), Some(capture)) => {
            if image == capture {
                return None;
            }
            Some(Command::Trace {
                image,
                capture,
                options: spoken.options,
            })
        }
        _ => None,
    }
}

/// The command that the words after the program's name give, or nothing where they are none.
///
/// An operand is not empty and does not begin with two dashes. An option may stand anywhere past the command, at most once, and the next
/// word is its value, whatever that is.
pub fn read_command(words: &[String]) -> Option<Command<'_>>
    ensures order { option_map order_of result ≡ command_of (map string_bytes words.now) }
    ensures apart { IfSome result (λ command. AreApart (order_of command)) }
    ensures gaps { IfSome result (λ command. AsksGaps (order_of command)) }
{
    let Some((command, operands)) = words.split_first() else {
        return None;
    };
    let command = command.as_str();
    if command == "replay" {
        read_replay(operands)
    } else if command == "import" {
        read_import(operands)
    } else if command == "size" {
        read_size(operands)
    } else if command == "check" {
        read_check(operands)
    } else if command == "compile" {
        read_compile(operands)
    } else if command == "audit" {
        read_audit(operands)
    } else if command == "trace" {
        read_trace(operands)
    } else if command == "stim" {
        read_stim(operands)
    } else if command == "self" {
        read_self_test(operands)
    } else {
        None
    }
}
