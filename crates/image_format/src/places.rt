//! The rules of the places.
ghost use Rattle.std.specs.Prelude.{◌≡◌, ◌<◌};
ghost use Rattle.image_layout.specs.Layout.{place_total};
ghost use Rattle.image_layout.specs.Fields.{crank_total};
ghost use Rattle.image_layout.specs.Faults.{first_from};
ghost use Rattle.image_layout.specs.ListRules.{places_fault, place_fault, is_place, is_below};
ghost use Rattle.image_layout.specs.Keeps.{AreLaid};
ghost use Rattle.image_format.specs.Tells.{Tells};

use crate::header::range;
use crate::padding::is_padding;
use image_layout::fields::place;
use image_layout::{ImageFault, Sections};
use wheel_types::Place;

fn is_place(place: Place, cranks: u32) -> bool
    ensures { result ≡ is_place cranks place }
{
    place.j < cranks && place.n1.unsigned_abs() < 1_048_576 && place.n2.unsigned_abs() < 1_048_576
}

fn is_below(a: Place, b: Place) -> bool
    ensures { result ≡ is_below a b }
{
    a.j < b.j || a.j == b.j && (a.n1 < b.n1 || a.n1 == b.n1 && a.n2 < b.n2)
}

#[tactic(auto, using(image_layout::proofs::Firsts::firsts))]
fn check_place(bytes: &[u8], sections: &Sections, cranks: u32, i: u32) -> Result<(), ImageFault>
    requires laid { AreLaid sections.now bytes.now }
    requires cranks { cranks ≡ crank_total bytes.now }
    requires there { i < place_total bytes.now }
    ensures { Tells result (place_fault bytes.now i) }
{
    let here = place(bytes, sections, i);
    if !is_place(here, cranks) {
        return Err(ImageFault::Range { section: 2, at: i });
    }
    if i > 0 {
        let before = place(bytes, sections, i - 1);
        if !is_below(before, here) {
            return Err(ImageFault::Order { section: 2, at: i });
        }
    }
    Ok(())
}

fn check_each_place(bytes: &[u8], sections: &Sections, cranks: u32) -> Result<(), ImageFault>
    requires laid { AreLaid sections.now bytes.now }
    requires cranks { cranks ≡ crank_total bytes.now }
    ensures { Tells result (first_from 0 (place_total bytes.now) (place_fault bytes.now)) }
{
    for i in 0..sections.places {
        check_place(bytes, sections, cranks, i)?;
    }
    Ok(())
}

/// The places stand in order, and zeros follow them.
#[tactic(auto, using(image_layout::proofs::Firsts::firsts), unfolding(image_layout::specs::ListRules::places_fault))]
pub fn check_places(bytes: &[u8], sections: &Sections, cranks: u32) -> Result<(), ImageFault>
    requires laid { AreLaid sections.now bytes.now }
    requires cranks { cranks ≡ crank_total bytes.now }
    ensures { Tells result (places_fault bytes.now) }
{
    check_each_place(bytes, sections, cranks)?;
    let end = sections.places_at + 12 * sections.places as usize;
    range(
        2,
        sections.places,
        is_padding(bytes, end, sections.times_at),
    )
}
