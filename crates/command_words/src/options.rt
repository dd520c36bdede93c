//! The options that name a capture's columns.
ghost use Rattle.std.specs.Prelude.{◌≡◌};
ghost use Rattle.std.specs.Option.{option_map};
ghost use Rattle.command_words.specs.Options.{options_of, no_options, option_named, wanted_by, with_option, once};

/// An option's name.
#[derive(Clone, Copy, Debug, PartialEq, Eq)]
pub enum OptionName {
    /// `--time`, the column of the times.
    Time,
    /// `--crank`, the crank's signal.
    Crank,
    /// `--cam1`, the first cam's signal.
    Cam1,
    /// `--cam2`, the second cam's signal.
    Cam2,
}

/// What an option that stands in the words wants of the next word.
#[derive(Clone, Copy, Debug, PartialEq, Eq)]
pub enum Wanted {
    /// A name of the capture's columns.
    Name { name: OptionName },
    /// `--cert`, the file that is to get the certificate.
    Cert,
}

/// The names of a capture's columns that options give.
#[derive(Clone, Copy, Debug)]
pub struct Options<'a> {
    pub time: Option<&'a str>,
    pub crank: Option<&'a str>,
    pub cam1: Option<&'a str>,
    pub cam2: Option<&'a str>,
}

/// The option that a word names.
pub fn option_name(word: &str) -> Option<OptionName>
    ensures { result ≡ option_named word.now }
{
    if word == "--time" {
        Some(OptionName::Time)
    } else if word == "--crank" {
        Some(OptionName::Crank)
    } else if word == "--cam1" {
        Some(OptionName::Cam1)
    } else if word == "--cam2" {
        Some(OptionName::Cam2)
    } else {
        None
    }
}

/// What the option that a word names wants.
pub fn asked_by(word: &str) -> Option<Wanted>
    ensures { result ≡ wanted_by word.now }
{
    if word == "--cert" {
        return Some(Wanted::Cert);
    }
    match option_name(word) {
        Some(name) => Some(Wanted::Name { name }),
        None => None,
    }
}

impl<'a> Options<'a> {
    /// No option.
    pub fn none() -> Options<'a>
        ensures { options_of result ≡ no_options }
    {
        Options {
            time: None,
            crank: None,
            cam1: None,
            cam2: None,
        }
    }

    /// The options with one more, or nothing where it was given before.
    pub fn with(self, name: OptionName, value: &'a str) -> Option<Options<'a>>
        ensures { option_map options_of result ≡ with_option (options_of self.entry) name value.now }
    {
        let before = match name {
            OptionName::Time => self.time,
            OptionName::Crank => self.crank,
            OptionName::Cam1 => self.cam1,
            OptionName::Cam2 => self.cam2,
        };
        if before.is_some() {
            return None;
        }
        let mut options = self;
        match name {
            OptionName::Time => options.time = Some(value),
            OptionName::Crank => options.crank = Some(value),
            OptionName::Cam1 => options.cam1 = Some(value),
            OptionName::Cam2 => options.cam2 = Some(value),
        }
        Some(options)
    }
}
