//! The machine that reads a dump token after token.
ghost use Rattle.std.specs.Prelude.{◌≡◌};
ghost use Rattle.vcd_reader.specs.declared.stage.Stage.TheVariants.{Level, Inside, Past};
ghost use Rattle.vcd_reader.specs.declared.phase.Phase.TheVariants.{Refused};
ghost use Rattle.capture_core.specs.declared.capture.VcdFault.TheVariants.{BadToken};
ghost use Rattle.vcd_reader.specs.Standing.{IsFresh};

use crate::changes::Changes;
use crate::phase::Phase;
use crate::stage::Stage;
use crate::waiting::Waiting;
use capture_core::{VcdFault, Watch};
use std::alloc::{AllocError, Global};
use vcd_header::{
    HeaderState, Section, Signals, is_end, keep_word, section_begun, signals_of, with_section,
    word_fits,
};
use wheel_types::List;

/// Reads a dump token after token.
#[derive(Drop)]
pub struct Machine {
    pub wanted: Signals,
    pub header: HeaderState,
    pub words: List<List<u8>>,
    pub changes: Changes,
    pub stage: Stage,
}

fn bad(at: u64) -> Stage
    ensures { result ≡ Past (Refused (BadToken at)) }
{
    Stage::Past(Phase::Refused(VcdFault::BadToken { at }))
}

impl Machine {
    ghost use Rattle.std.specs.Prelude.{◌≡◌, ◌++◌, [], List, OnOk, OnErr};
    ghost use Rattle.vcd_reader.specs.Dumps as dump;
    ghost use Rattle.vcd_header.specs.Headers as headers;
    ghost use Rattle.vcd_header.specs.Sightings.{SumsUp};
    ghost use Rattle.vcd_reader.specs.Readings as reading;
    ghost use Rattle.vcd_reader.specs.Reads.{ForReading, Reads};
    ghost use Rattle.capture_core.specs.declared.capture.Watch.{Watch as AWatch};
    ghost use Rattle.wheel_types.specs.declared.instant.Instant.{Instant as AnInstant};

    pub fn new(alloc: Global, wanted: Signals, watch: Watch) -> Machine
        ensures reads { Reads watch [] [] result (reading.between headers.empty_header) }
        ensures wanted { result.wanted ≡ wanted }
    {
        Machine {
            wanted,
            header: HeaderState::new(alloc),
            words: List::from_vec(Vec::new(alloc)),
            changes: Changes::new(alloc, watch),
            stage: Stage::Level,
        }
    }

    /// A token between two sections.
    fn level_token(&mut self, text: &[u8], at: u64)
        requires { self.old.stage ≡ Level }
        ensures reads { (waiting : List AnInstant) → ForReading self.old waiting (λ watch handed r. Reads watch handed waiting self.new (dump.after_text self.old.wanted r text.now at)) }
        ensures wanted { self.new.wanted ≡ self.old.wanted }
    {
        self.words.items.clear();
        self.stage = match section_begun(&self.header, text) {
            Some(section) => Stage::Inside(section),
            None => bad(at),
        };
    }

    /// The header ends.
    fn end_header(&mut self, alloc: Global) -> Result<(), AllocError>
        ensures ok { OnOk result ((watch : AWatch) (handed waiting : List AnInstant) → handed ++ waiting ≡ [] → IsFresh watch self.old.changes
            → (h : headers.Header) → SumsUp self.old.wanted self.old.header h → Reads watch handed waiting self.new (reading.header_ended self.old.wanted h.vars h.scale)) }
        ensures wanted { self.new.wanted ≡ self.old.wanted }
    {
        let Some(scale) = self.header.scale else {
            self.stage = Stage::Past(Phase::Refused(VcdFault::NoTimescale));
            return Ok(());
        };
        match signals_of(alloc, &self.wanted, &self.header)? {
            Ok(signals) => {
                self.changes.begin(scale, signals);
                self.stage = Stage::Past(Phase::Between);
            }
            Err(fault) => self.stage = Stage::Past(Phase::Refused(fault)),
        }
        Ok(())
    }

    /// A token inside a section.
    fn section_token(
        &mut self,
        alloc: Global,
        section: Section,
        text: &[u8],
        at: u64,
    ) -> Result<(), AllocError>
        requires { self.old.stage ≡ Inside section }
        ensures ok { OnOk result ((waiting : List AnInstant) → ForReading self.old waiting (λ watch handed r. Reads watch handed waiting self.new (dump.after_text self.old.wanted r text.now at))) }
        ensures wanted { self.new.wanted ≡ self.old.wanted }
    {
        if is_end(text) {
            if section == Section::EndDefinitions {
                return self.end_header(alloc);
            }
            let fits = with_section(
                alloc,
                &self.wanted,
                &mut self.header,
                section,
                self.words.as_slice(),
            )?;
            self.stage = if fits { Stage::Level } else { bad(at) };
        } else if word_fits(section, self.words.items.len(), text) {
            keep_word(alloc, &mut self.words, section, text)?;
        } else {
            self.stage = bad(at);
        }
        Ok(())
    }

    /// The next token.
    pub fn token(
        &mut self,
        alloc: Global,
        waiting: &mut Waiting,
        text: &[u8],
        at: u64,
    ) -> Result<(), AllocError>
        ensures ok { OnOk result (ForReading self.old waiting.old (λ watch handed r. Reads watch handed waiting.new self.new (dump.after_text self.old.wanted r text.now at))) }
        ensures err { OnErr result (waiting.new ≡ waiting.old) }
        ensures wanted { self.new.wanted ≡ self.old.wanted }
    {
        match self.stage {
            Stage::Level => self.level_token(text, at),
            Stage::Inside(section) => self.section_token(alloc, section, text, at)?,
            Stage::Past(phase) => self.stage = Stage::Past(
                self.changes.token(waiting, phase, text, at)?,
            ),
        }
        Ok(())
    }
}
