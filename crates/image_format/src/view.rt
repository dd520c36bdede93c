//! A view of an image's bytes.
ghost use Rattle.std.specs.Prelude.{◌≡◌, ◌↔◌, ◌<◌, IfOk, IsOk, slice_index};
ghost use Rattle.image_layout.specs.Layout.{place_total, state_total, time_total, ratio_total, set_words, row_width};
ghost use Rattle.image_layout.specs.Fields.{crank_total, wheel_parts_of, place_at, time_cut_at, ratio_top_at, ratio_bottom_at, phase_at, member_at, row_of, entry_at};
ghost use Rattle.image_layout.specs.HeaderRules.{header_fault};
ghost use Rattle.image_layout.specs.Rules.{sections_fault, first_fault, IsImage};
ghost use Rattle.image_layout.specs.Keeps.{AreLaid};
ghost use Rattle.image_layout.specs.Tables.{KeepsLayout};
ghost use Rattle.wheel_types.specs.Edges.{edge_count, edge_slots};
ghost use Rattle.image_layout.specs.Fields.{kind_at};
ghost use Rattle.image_format.specs.Tells.{Tells};

use crate::cuts::{check_ratio_cuts, check_time_cuts};
use crate::header::{check_cams, check_counts, check_engine, check_front};
use crate::kinds::check_kinds;
use crate::length::check_length;
use crate::members::check_members;
use crate::places::check_places;
use crate::rows::check_rows;
use crate::slots::check_slots;
use image_layout::edges::{edge_slot, edges};
use image_layout::fields::{entry, kind_word, member, place, ratio_cut, row, time_cut};
use image_layout::measure::sections_of;
use image_layout::wheel::parts;
use image_layout::{ImageFault, Kind, Sections};
use std::alloc::Global;
use wheel_types::{Channel, Memory, Place, Wheel};

/// The bytes of an image that breaks no rule. Their layout stands at `Sections`.
///
/// Every number that the accessors give is in the range that the layout tells, so that no walk of the table leaves the bytes.
#[derive(Drop)]
pub struct View<'a> {
    bytes: &'a [u8],
    sections: Sections,
    cranks: u32,
    pub ghost keeps: { IsImage bytes.now },
    pub ghost laid: { AreLaid sections bytes.now },
    pub ghost counted: { cranks ≡ crank_total bytes.now },
}

/// The rules of the header, in order. Answers where the sections stand.
#[tactic(auto, using(image_layout::proofs::Firsts::firsts, image_layout::proofs::Counts::head_kept, image_layout::proofs::Counts::counts_kept, image_layout::proofs::Counts::length_kept), unfolding(image_layout::specs::HeaderRules::header_fault))]
fn check_header(bytes: &[u8]) -> Result<Sections, ImageFault>
    ensures told { Tells result (header_fault bytes.now) }
    ensures laid { IfOk result (λ s. AreLaid s bytes.now) }
{
    check_front(bytes)?;
    check_counts(bytes)?;
    check_cams(bytes)?;
    check_engine(bytes)?;
    let sections = sections_of(bytes);
    check_length(bytes, &sections)?;
    Ok(sections)
}

/// The rules of the sections 1 to 7, in order. Answers the number of the crank's kept edges.
#[tactic(auto, using(image_layout::proofs::Firsts::firsts), unfolding(image_layout::specs::Rules::sections_fault))]
fn check_sections(bytes: &[u8], sections: &Sections) -> Result<u32, ImageFault>
    requires { AreLaid sections.now bytes.now }
    ensures told { Tells result (sections_fault bytes.now) }
    ensures cranks { IfOk result (λ j. j ≡ crank_total bytes.now) }
{
    let cranks = check_slots(bytes, sections)?;
    check_places(bytes, sections, cranks)?;
    check_time_cuts(bytes, sections)?;
    check_ratio_cuts(bytes, sections)?;
    check_kinds(bytes, sections, cranks)?;
    check_members(bytes, sections)?;
    check_rows(bytes, sections)?;
    Ok(cranks)
}

impl<'a> View<'a> {
    /// Borrows the bytes where they keep the table of the layout. It takes no memory.
    ///
    /// # Errors
    /// The first rule that the bytes break: the header's front, its words by ascending place, the length, and then the sections, in each
    /// the entries in order, range before order, and last the padding.
    #[tactic(auto, using(crate::proofs::Tables::layout_where))]
    pub fn verify(bytes: &'a [u8]) -> Result<View<'a>, ImageFault>
        ensures layout { IsOk result ↔ KeepsLayout bytes.now }
        ensures told { Tells result (first_fault bytes.now) }
        ensures bytes { IfOk result (λ v. v.bytes.now ≡ bytes.now) }
    {
        let checked = View::check(bytes);
        checked
    }

    /// Tests the rules in order.
    #[tactic(auto, using(image_layout::proofs::Firsts::firsts), unfolding(image_layout::specs::Rules::first_fault))]
    fn check(bytes: &'a [u8]) -> Result<View<'a>, ImageFault>
        ensures told { Tells result (first_fault bytes.now) }
        ensures bytes { IfOk result (λ v. v.bytes.now ≡ bytes.now) }
    {
        let sections = check_header(bytes)?;
        let cranks = check_sections(bytes, &sections)?;
        Ok(View {
            bytes,
            sections,
            cranks,
        })
    }

    /// How many places the image has, from 1 to 16,384.
    pub fn place_count(&self) -> u32
        ensures { result ≡ place_total self.now.bytes.now }
    {
        self.sections.places
    }

    /// How many states the image has, from 2 to 65,535. State 0 is the dead one, state 1 the start.
    pub fn state_count(&self) -> u32
        ensures { result ≡ state_total self.now.bytes.now }
    {
        self.sections.states
    }

    /// How many time cuts the image has, at most 8,192.
    pub fn time_cuts(&self) -> u32
        ensures { result ≡ time_total self.now.bytes.now }
    {
        self.sections.times
    }

    /// How many ratio cuts the image has, at most 8,192.
    pub fn ratio_cuts(&self) -> u32
        ensures { result ≡ ratio_total self.now.bytes.now }
    {
        self.sections.ratios
    }

    /// How many edges of the crank the wheel keeps, at least 1.
    pub fn crank_count(&self) -> u32
        ensures { result ≡ crank_total self.now.bytes.now }
    {
        self.cranks
    }

    /// How many edges of a channel the wheel keeps.
    pub fn cam_count(&self, cam: Channel) -> u32
        ensures { result ≡ edge_count (wheel_parts_of self.now.bytes.now) cam }
    {
        edges(self.bytes, &self.sections, cam)
    }

    /// How many words of 64 bits a set of places has.
    pub fn words(&self) -> u32
        ensures { result ≡ set_words self.now.bytes.now }
    {
        self.sections.words
    }

    /// How many entries each row has: the time classes, the ratio classes and the 26 shapes.
    pub fn row_width(&self) -> u32
        ensures { result ≡ row_width self.now.bytes.now }
    {
        self.sections.width
    }

    /// Place `i`.
    pub fn place(&self, i: u32) -> Place
        requires { i < place_total self.now.bytes.now }
        ensures { result ≡ place_at self.now.bytes.now i }
    {
        place(self.bytes, &self.sections, i)
    }

    /// Time cut `i`, in femtoseconds. The cuts rise.
    #[inline]
    pub fn time_cut(&self, i: u32) -> u64
        requires { i < time_total self.now.bytes.now }
        ensures { result ≡ time_cut_at self.now.bytes.now i }
    {
        time_cut(self.bytes, &self.sections, i)
    }

    /// Ratio cut `i`, its top and its bottom. The cuts rise as fractions.
    #[inline]
    pub fn ratio_cut(&self, i: u32) -> (u32, u32)
        requires { i < ratio_total self.now.bytes.now }
        ensures top { result.0 ≡ ratio_top_at self.now.bytes.now i }
        ensures bottom { result.1 ≡ ratio_bottom_at self.now.bytes.now i }
    {
        ratio_cut(self.bytes, &self.sections, i)
    }

    /// The slot at whose start crank edge `j` stands.
    pub fn crank_slot(&self, j: u32) -> u32
        requires { j < crank_total self.now.bytes.now }
        ensures { result ≡ slice_index (edge_slots (wheel_parts_of self.now.bytes.now) Channel.Crank) j }
    {
        edge_slot(self.bytes, &self.sections, Channel::Crank, j)
    }

    /// The phase of state `q`, from 0 to 5.
    #[inline]
    pub fn phase(&self, q: u32) -> u32
        requires { q < state_total self.now.bytes.now }
        ensures { result ≡ phase_at self.now.bytes.now q }
    {
        kind_word(self.bytes, &self.sections, q, 0)
    }

    /// What state `q` says of the position.
    #[inline]
    pub fn kind(&self, q: u32) -> Kind
        requires { q < state_total self.now.bytes.now }
        ensures { result ≡ kind_at self.now.bytes.now q }
    {
        let e = kind_word(self.bytes, &self.sections, q, 2);
        match kind_word(self.bytes, &self.sections, q, 1) {
            0 => Kind::Dead,
            1 => Kind::At { j: e },
            _ => Kind::Open {
                e,
                f: kind_word(self.bytes, &self.sections, q, 3),
            },
        }
    }

    /// A word of the set of state `q`. Bit i of word k is place 64 * k + i.
    #[inline]
    pub fn member(&self, q: u32, word: u32) -> u64
        requires state { q < state_total self.now.bytes.now }
        requires word { word < set_words self.now.bytes.now }
        ensures { result ≡ member_at self.now.bytes.now q word }
    {
        member(self.bytes, &self.sections, q, word)
    }

    /// The state that a column leads to from state `q`, 0 where it leads nowhere.
    #[inline]
    pub fn entry(&self, q: u32, column: u32) -> u32
        requires state { q < state_total self.now.bytes.now }
        requires column { column < row_width self.now.bytes.now }
        ensures entry { result ≡ entry_at self.now.bytes.now q column }
        ensures within { result < state_total self.now.bytes.now }
    {
        entry(self.bytes, &self.sections, q, column)
    }

    /// The bytes of the row of state `q`, two an entry, lowest first: a part of the borrowed bytes.
    pub fn row(&self, q: u32) -> &'a [u8]
        requires { q < state_total self.now.bytes.now }
        ensures { result.now ≡ row_of self.now.bytes.now q }
    {
        row(self.bytes, &self.sections, q)
    }

    /// The wheel that the image holds.
    ///
    /// # Errors
    /// Want of memory.
    pub fn wheel(&self, alloc: Global) -> Result<Wheel, Memory>
        ensures { IfOk result (λ w. w.parts ≡ wheel_parts_of self.now.bytes.now) }
    {
        match Wheel::build(parts(alloc, self.bytes, &self.sections)?) {
            Ok(wheel) => Ok(wheel),
            Err(_) => unreachable!(),
        }
    }

    /// A second view of the same bytes.
    pub fn again(&self) -> View<'a>
        ensures { result.bytes.now ≡ self.now.bytes.now }
    {
        View {
            bytes: self.bytes,
            sections: self.sections,
            cranks: self.cranks,
        }
    }
}
