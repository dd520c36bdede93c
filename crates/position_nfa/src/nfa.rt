//! A wheel's set automaton.
ghost use Rattle.std.specs.Prelude.{◌≡◌, ◌+◌, ◌*◌, ◌<◌, ◌≤◌, ℕ, IfOk, IfErr, OnOk, length};
ghost use Rattle.cam_ranges.specs.Places.{HasTooMany};
ghost use Rattle.place_words.specs.Words.{IsSet, words_for};
ghost use Rattle.position_nfa.specs.Alphabets.{IsAlphabetOf, count, place, time_classes, ratio_classes};
ghost use Rattle.position_nfa.specs.Sets.{all_places, time_kept, ratio_kept, shape_ends};
ghost use Rattle.position_nfa.specs.Tables.{AreTables};

use crate::all_walks::all_walks;
use crate::ends::{write_below, write_ends};
use crate::masks::{ratio_masks, time_masks, words_of};
use crate::walks::Walks;
use cam_ranges::{PlaceFault, all_places as find_places};
use edge_angles::find_edges;
use gap_thresholds::Cuts;
use legal_steps::Motions;
use std::alloc::Global;
use wheel_types::{List, Place, Shape, Wheel};

/// A wheel's set automaton: its places by their numbers, the cuts of its limits, and what the letters make of sets of places.
///
/// A set has a bit for each place, 64 in a word. The masks have a row of the words of a set for each class, one after the other:
/// the places that the class keeps. Of each shape, 1 to 26, stand the places from which a walk makes its moves, and where it ends.
#[derive(Drop)]
pub struct Nfa {
    places: List<Place>,
    cuts: Cuts,
    time_masks: List<u64>,
    ratio_masks: List<u64>,
    walks: List<Walks>,
    pub ghost tables: { AreTables (record { places = places; cuts = cuts }) time_masks ratio_masks walks },
}

impl Nfa {
    ghost use Rattle.position_nfa.specs.Views.{alphabet};

    /// The automaton of a wheel.
    ///
    /// # Errors
    /// `TooMany` where the wheel has more than 16,384 places; want of memory.
    pub fn build(alloc: Global, wheel: &Wheel) -> Result<Nfa, PlaceFault>
        ensures alphabet { IfOk result (λ nfa. IsAlphabetOf wheel.now.parts (alphabet nfa)) }
        ensures not_more { OnOk result (HasTooMany wheel.now.parts → ⊥) }
        ensures many { IfErr result (λ fault. fault ≡ PlaceFault.TooMany → HasTooMany wheel.now.parts) }
    {
        let edges = find_edges(alloc, wheel)?;
        let places = find_places(alloc, wheel, &edges)?;
        let cuts = Cuts::build(alloc, wheel, &edges)?;
        let motions = Motions::of(alloc, wheel, &edges)?;
        let time_masks = time_masks(alloc, &motions, &cuts, places.as_slice())?;
        let ratio_masks = ratio_masks(alloc, &motions, &cuts, places.as_slice())?;
        let walks = all_walks(alloc, &motions, places.as_slice())?;
        Ok(Nfa {
            places: List::from_vec(places),
            cuts,
            time_masks: List::from_vec(time_masks),
            ratio_masks: List::from_vec(ratio_masks),
            walks: List::from_vec(walks),
        })
    }

    /// How many places there are, 1 at least and 16,384 at most. It takes no memory.
    pub fn place_count(&self) -> u32
        ensures count { result ≡ count (alphabet self.now) }
        ensures some { 1 ≤ result }
    {
        self.places.as_slice().len() as u32
    }

    /// How many words a set has. It takes no memory.
    pub fn words(&self) -> usize
        ensures words { result ≡ words_for (count (alphabet self.now)) }
        ensures some { 1 ≤ result }
    {
        words_of(self.places.as_slice().len())
    }

    /// The cuts of the wheel's limits. It takes no memory.
    pub fn cuts(&self) -> &Cuts
        ensures { result.now ≡ (alphabet self.now).cuts }
    {
        &self.cuts
    }

    /// The place of this number; they ascend. It asks a number below the count. It takes no memory.
    pub fn place(&self, i: u32) -> Place
        requires { i < count (alphabet self.now) }
        ensures { result ≡ place (alphabet self.now) i }
    {
        self.places.as_slice()[i as usize]
    }

    /// Writes the set of all places. It asks the words of a set. It takes no memory.
    pub fn start(&self, out: &mut [u64])
        requires { length out.old ≡ words_for (count (alphabet self.now)) }
        ensures { out.new ≡ all_places (alphabet self.now) }
    {
        write_below(self.places.as_slice().len(), out);
    }

    /// Writes the set of the end places of the walks that make a shape's moves, in some order, from the places of a set. It asks a
    /// set without bits past the count, and the words of one. It takes no memory.
    pub fn shape_step(&self, set: &[u64], shape: Shape, out: &mut [u64])
        requires set { IsSet (count (alphabet self.now)) set.now }
        requires out { length out.old ≡ words_for (count (alphabet self.now)) }
        ensures { out.new ≡ shape_ends (alphabet self.now) shape set.now }
    {
        let walks = &self.walks.as_slice()[shape.number() as usize - 1];
        write_ends(walks, set, out);
    }

    /// Keeps the places whose next gap may take the times of a class. It asks a set without bits past the count, and a class of
    /// the cuts. It takes no memory.
    pub fn time_filter(&self, class: u32, set: &mut [u64])
        requires set { IsSet (count (alphabet self.now)) set.old }
        requires class { class < time_classes (alphabet self.now) }
        ensures { set.new ≡ time_kept (alphabet self.now) class set.old }
    {
        let words = self.words();
        let at = class as usize * words;
        place_words::keep(set, &self.time_masks.as_slice()[at..at + words]);
    }

    /// Keeps the places whose last and next gaps may take times of a class of ratios. It asks a set without bits past the count,
    /// and a class of the cuts. It takes no memory.
    pub fn ratio_filter(&self, class: u32, set: &mut [u64])
        requires set { IsSet (count (alphabet self.now)) set.old }
        requires class { class < ratio_classes (alphabet self.now) }
        ensures { set.new ≡ ratio_kept (alphabet self.now) class set.old }
    {
        let words = self.words();
        let at = class as usize * words;
        place_words::keep(set, &self.ratio_masks.as_slice()[at..at + words]);
    }
}
