//! What is told of a check.
ghost use Rattle.std.specs.Prelude.{◌≡◌, IfOk, string_bytes};
ghost use Rattle.check_command.specs.Check.{answer_text, ended_with};

use certificate_checker::Answer;
use run_ends::{Cause, Done};
use std::alloc::{AllocError, Global};

/// The line of an answer, with its line feed.
pub fn answer_line(alloc: Global, answer: Answer) -> Result<String, AllocError>
    ensures { IfOk result (λ line. string_bytes line ≡ answer_text answer) }
{
    match answer {
        Answer::Yes => String::from_str(alloc, "yes\n"),
        Answer::No { instant, rule } => format!(in alloc; "no {instant} {rule}\n"),
    }
}

/// How a check ends that is answered so.
pub fn ended_by(answer: Answer) -> Result<Done, Cause>
    ensures { result ≡ ended_with answer }
{
    match answer {
        Answer::Yes => Ok(Done::Whole),
        Answer::No { .. } => Ok(Done::No),
    }
}
