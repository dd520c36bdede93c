//! Tables of rows, each of what a run is given and of what is to be told of it, for programs that the gate runs.
//!
//! A table stands in a program's file `stdin`. A row is `FIELD | FIELD => TOLD`. A line `NAME := TEXT` gives a text a name, and a
//! later field that is the name alone stands for the text. `␤` stands for a line feed, `␉` for a tab, and `␀` and `␁` for the bytes 0
//! and 1. Other lines say something.
#![tactic(auto)]

use std::alloc::{AllocError, Global};
use std::io::{self, BufRead, BufReader};

/// What tells of rows.
pub trait Tells {
    /// What is told of the run that a row's fields ask for, or `None` where they ask for none.
    fn told(&self, alloc: Global, fields: &[String]) -> Result<Option<String>, AllocError>;
}

/// Texts with names, and what is counted of the rows.
#[derive(Drop)]
struct Table {
    alloc: Global,
    named: Vec<(String, String)>,
    rows: u64,
}

impl Table {
    /// The text that a field stands for.
    fn text_of(&self, field: &str) -> Result<String, AllocError> {
        for (name, text) in self.named.iter() {
            if name.as_str() == field {
                return text.clone();
            }
        }
        plain(self.alloc, field)
    }

    fn fields_of(&self, run: &str) -> Result<Vec<String>, AllocError> {
        let mut fields = Vec::new(self.alloc);
        for field in run.split(" | ") {
            fields.push(self.text_of(field)?)?;
        }
        Ok(fields)
    }

    /// What a row says beside what it should, if that is another thing.
    fn differs<T: Tells>(
        &mut self,
        tells: &T,
        run: &str,
        wanted: &str,
    ) -> Result<Option<String>, AllocError> {
        self.rows = self.rows.wrapping_add(1);
        let fields = self.fields_of(run)?;
        let Some(told) = tells.told(self.alloc, &fields)? else {
            return Ok(Some(format!(in self.alloc; "no row: {run}")?));
        };
        let told = told.replace(self.alloc, '\n', "␤")?;
        if told.as_str() == wanted {
            return Ok(None);
        }
        Ok(Some(format!(in self.alloc; "{run} => {told}\n  and not {wanted}")?))
    }

    /// Takes a line, and gives what is to be printed of it.
    fn take<T: Tells>(&mut self, tells: &T, line: &str) -> Result<Option<String>, AllocError> {
        if let Some((run, wanted)) = line.split_once(" => ") {
            return self.differs(tells, run, wanted);
        }
        if let Some((name, text)) = line.split_once(" := ") {
            let name = String::from_str(self.alloc, name)?;
            let text = plain(self.alloc, text)?;
            self.named.push((name, text))?;
        }
        Ok(None)
    }
}

/// The character that another one stands for.
fn character(shown: char) -> char {
    match shown {
        '␀' => '\0',
        '␁' => '\x01',
        '␉' => '\t',
        '␤' => '\n',
        other => other,
    }
}

/// A text as a run takes it.
fn plain(alloc: Global, text: &str) -> Result<String, AllocError> {
    let mut plain = String::new(alloc);
    for shown in text.chars() {
        plain.push(character(shown))?;
    }
    Ok(plain)
}

/// Prints the rows of standard input of which something else is told, and the number of all rows.
pub fn check<T: Tells>(rt: &HostRuntime, tells: &T) -> io::Result<()> {
    let alloc = rt.alloc();
    let mut table = Table {
        alloc,
        named: Vec::new(alloc),
        rows: 0,
    };
    for line in BufReader::new(alloc, rt.reader())?.lines(alloc) {
        let line = line?;
        if let Some(text) = table.take(tells, &line)? {
            println!(rt; "{text}")?;
        }
    }
    println!(rt; "{} rows", table.rows)
}
