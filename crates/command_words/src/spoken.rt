//! The operands and options of words, past the command.
ghost use Rattle.std.specs.Prelude.{◌≡◌, map, string_bytes};
ghost use Rattle.std.specs.Option.{option_map};
ghost use Rattle.command_words.specs.Same.{is_option as begins_with_dashes, is_operand as names_something};
ghost use Rattle.command_words.specs.Spoken.{spoken_of, silence, with_word, with_operand as with_one_more, with_value as with_its_value, after_word, after_words};

use crate::options::{Options, Wanted, asked_by};

/// What the words give so far: the operands in order, the options, the file of a certificate, and what still wants its value.
#[derive(Clone, Copy, Debug)]
pub struct Spoken<'a> {
    pub first: Option<&'a str>,
    pub second: Option<&'a str>,
    pub third: Option<&'a str>,
    pub fourth: Option<&'a str>,
    pub options: Options<'a>,
    pub cert: Option<&'a str>,
    pub wants: Option<Wanted>,
}

/// Whether a word begins with two dashes.
fn is_option(word: &str) -> bool
    ensures { result ≡ begins_with_dashes word.now }
{
    match word.as_bytes() {
        [] => false,
        [_] => false,
        [first, second, ..] => *first == b'-' && *second == b'-',
    }
}

/// Whether a word is an operand: it is not empty, and no option.
pub(crate) fn is_operand(word: &str) -> bool
    ensures { result ≡ names_something word.now }
{
    match word.as_bytes() {
        [] => false,
        [_] => true,
        [first, second, ..] => !(*first == b'-' && *second == b'-'),
    }
}

impl<'a> Spoken<'a> {
    /// One more operand, of which there are at most four.
    fn with_operand(self, word: &'a str) -> Option<Spoken<'a>>
        ensures { option_map spoken_of result ≡ with_one_more (spoken_of self.entry) word.now }
    {
        let mut spoken = self;
        if self.first.is_none() {
            spoken.first = Some(word);
        } else if self.second.is_none() {
            spoken.second = Some(word);
        } else if self.third.is_none() {
            spoken.third = Some(word);
        } else if self.fourth.is_none() {
            spoken.fourth = Some(word);
        } else {
            return None;
        }
        Some(spoken)
    }

    /// One more word, which no option wants.
    fn with_word(self, word: &'a str) -> Option<Spoken<'a>>
        ensures { option_map spoken_of result ≡ with_word (spoken_of self.entry) word.now }
    {
        if is_option(word) {
            match asked_by(word) {
                Some(wants) => Some(Spoken {
                    wants: Some(wants),
                    ..self
                }),
                None => None,
            }
        } else if is_operand(word) {
            self.with_operand(word)
        } else {
            None
        }
    }

    /// The value of an option that wants it, or nothing where the option was given before.
    fn with_value(self, wants: Wanted, word: &'a str) -> Option<Spoken<'a>>
        ensures { option_map spoken_of result ≡ with_its_value (spoken_of self.entry) wants word.now }
    {
        match wants {
            Wanted::Name { name } => match self.options.with(name, word) {
                Some(options) => Some(Spoken {
                    options,
                    wants: None,
                    ..self
                }),
                None => None,
            },
            Wanted::Cert => {
                if self.cert.is_some() {
                    return None;
                }
                Some(Spoken {
                    cert: Some(word),
                    wants: None,
                    ..self
                })
            }
        }
    }

    /// One more word.
    fn after(self, word: &'a str) -> Option<Spoken<'a>>
        ensures { option_map spoken_of result ≡ after_word (spoken_of self.entry) self.entry.wants word.now }
    {
        match self.wants {
            None => self.with_word(word),
            Some(wants) => self.with_value(wants, word),
        }
    }
}

/// What words give, or nothing where one of them cannot stand where it does.
pub fn hear(words: &[String]) -> Option<Spoken<'_>>
    ensures { option_map spoken_of result ≡ after_words silence (map string_bytes words.now) }
{
    let mut spoken = Spoken {
        first: None,
        second: None,
        third: None,
        fourth: None,
        options: Options::none(),
        cert: None,
        wants: None,
    };
    for word in words {
        spoken = match spoken.after(word.as_str()) {
            Some(next) => next,
            None => return None,
        };
    }
    Some(spoken)
}
