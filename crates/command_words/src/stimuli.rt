//! The words of commands that make a stimulus.
ghost use Rattle.std.specs.Prelude.{◌≡◌, IfSome, map, string_bytes};
ghost use Rattle.std.specs.Option.{option_map};
ghost use Rattle.command_words.specs.Words.{stim_by, self_by, order_of, AsksGaps};

use crate::numbers::{form_in, gaps_in, seed_in};
use crate::spoken::is_operand;
use crate::words::Command;

/// The stimulus that its words ask for.
pub fn read_stim(words: &[String]) -> Option<Command<'_>>
    ensures order { option_map order_of result ≡ stim_by (map string_bytes words.now) }
    ensures gaps { IfSome result (λ command. AsksGaps (order_of command)) }
{
    let [wheel, form, seed, gaps, file] = words else {
        return None;
    };
    let form = form_in(form.as_str())?;
    let seed = seed_in(seed.as_str())?;
    let gaps = gaps_in(gaps.as_str())?;
    let (wheel, file) = (wheel.as_str(), file.as_str());
    if is_operand(wheel) && is_operand(file) && wheel != file {
        Some(Command::Stim {
            wheel,
            form,
            seed,
            gaps,
            file,
        })
    } else {
        None
    }
}

/// The self-test that its words ask for.
pub fn read_self_test(words: &[String]) -> Option<Command<'_>>
    ensures order { option_map order_of result ≡ self_by (map string_bytes words.now) }
    ensures gaps { IfSome result (λ command. AsksGaps (order_of command)) }
{
    let [wheel, seed, gaps] = words else {
        return None;
    };
    let seed = seed_in(seed.as_str())?;
    let gaps = gaps_in(gaps.as_str())?;
    let wheel = wheel.as_str();
    if is_operand(wheel) {
        Some(Command::SelfTest { wheel, seed, gaps })
    } else {
        None
    }
}
