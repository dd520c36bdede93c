//! Words, with the command that they are.

use command_words::{Command, Form, Options, read_command};
use std::alloc::{AllocError, Global};

/// The words of a row; none where it is empty.
fn words_of(alloc: Global, row: &str) -> Result<Vec<String>, AllocError> {
    let mut words = Vec::new(alloc);
    if row.is_empty() {
        return Ok(words);
    }
    for word in row.split(' ') {
        words.push(String::from_str(alloc, word)?)?;
    }
    Ok(words)
}

/// A name, or a dash where there is none, and two marks where it is empty.
fn shown(name: Option<&str>) -> &str {
    match name {
        None => "-",
        Some(name) if name.is_empty() => "''",
        Some(name) => name,
    }
}

/// The four names that options give.
fn told_of_options(alloc: Global, options: &Options) -> Result<String, AllocError> {
    let (time, crank) = (shown(options.time), shown(options.crank));
    let (cam1, cam2) = (shown(options.cam1), shown(options.cam2));
    format!(in alloc; "{time} {crank} {cam1} {cam2}")
}

/// The word of a form.
fn word_of(form: Form) -> &'static str {
    match form {
        Form::Vcd => "vcd",
        Form::Csv => "csv",
    }
}

/// The operands and options of a replay or a trace.
fn told_of_capture(
    alloc: Global,
    over: &str,
    capture: &str,
    cert: Option<&str>,
    options: &Options,
) -> Result<String, AllocError> {
    let options = told_of_options(alloc, options)?;
    match cert {
        None => format!(in alloc; "{over} {capture}, {options}"),
        Some(cert) => {
            let cert = shown(Some(cert));
            format!(in alloc; "{over} {capture} into {cert}, {options}")
        }
    }
}

/// A command's operands and options.
fn told_of_command(alloc: Global, command: &Command) -> Result<String, AllocError> {
    match *command {
        Command::Import { source, name } => format!(in alloc; "{source} {name}"),
        Command::Size { wheel } => format!(in alloc; "{wheel}"),
        Command::Compile { wheel, image } => format!(in alloc; "{wheel} into {image}"),
        Command::Audit { image } => format!(in alloc; "{image}"),
        Command::SelfTest { wheel, seed, gaps } => format!(in alloc; "{wheel} {seed} {gaps}"),
        Command::Stim {
            wheel,
            form,
            seed,
            gaps,
            file,
        } => {
            let form = word_of(form);
            format!(in alloc; "{wheel} as {form} {seed} {gaps} into {file}")
        }
        Command::Trace {
            image,
            capture,
            options,
        } => told_of_capture(alloc, image, capture, None, &options),
        Command::Replay {
            model,
            capture,
            cert,
            options,
        } => told_of_capture(alloc, model, capture, cert, &options),
        Command::Check {
            wheel,
            capture,
            report,
            cert,
            options,
        } => {
            let options = told_of_options(alloc, &options)?;
            format!(in alloc; "{wheel} {capture} {report} {cert}, {options}")
        }
    }
}

/// The command that words are.
pub fn told_of_words(alloc: Global, words: &str) -> Result<Option<String>, AllocError> {
    let words = words_of(alloc, words)?;
    let told = match read_command(&words) {
        None => String::from_str(alloc, "none")?,
        Some(command) => told_of_command(alloc, &command)?,
    };
    Ok(Some(told))
}
