//! The rules of the header.
ghost use Rattle.std.specs.Prelude.{◌≡◌, ◌≤◌, ◌+◌, ◌*◌, ◌==◌, ◌&&◌, ◌||◌, length, nat_lt, nat_le};
ghost use Rattle.image_layout.specs.Faults.{in_range};
ghost use Rattle.image_layout.specs.HeaderRules.{front_fault, cams_fault, engine_fault, counts_fault, are_states, are_keeps};
ghost use Rattle.image_format.specs.Tells.{Tells};

use image_layout::ImageFault;
use image_layout::words::word_at;

/// The bytes `WSYN`, the lowest first.
const MAGIC: u32 = 0x4e59_5357;

/// Magic, the header's length and the version.
#[tactic(auto, using(image_layout::proofs::Firsts::firsts), unfolding(image_layout::specs::HeaderRules::front_fault))]
pub fn check_front(bytes: &[u8]) -> Result<(), ImageFault>
    ensures { Tells result (front_fault bytes.now) }
{
    if bytes.len() < 4 || word_at(bytes, 0) != MAGIC {
        return Err(ImageFault::Magic);
    }
    if bytes.len() < 72 {
        return Err(ImageFault::Short);
    }
    if word_at(bytes, 4) != 1 {
        return Err(ImageFault::Version);
    }
    Ok(())
}

/// A rule of an entry's range.
#[inline]
pub fn range(section: u32, at: u32, holds: bool) -> Result<(), ImageFault>
    ensures { Tells result (in_range section at holds) }
{
    if holds {
        Ok(())
    } else {
        Err(ImageFault::Range { section, at })
    }
}

fn keeps(kept: u32) -> bool
    ensures { result ≡ are_keeps kept }
{
    kept % 4 > 0 && kept / 4 % 4 > 0 && kept / 16 % 4 > 0 && kept < 64
}

fn is_phasing(early: u32, late: u32, degrees: u32) -> bool
    ensures { result ≡ nat_lt (early + late) (1000 * degrees) }
{
    u64::from(early) + u64::from(late) < 1000 * u64::from(degrees)
}

fn is_within(least: u32, value: u32, most: u32) -> bool
    ensures { result ≡ (nat_le least value && nat_le value most) }
{
    least <= value && value <= most
}

fn is_cycle(degrees: u32) -> bool
    ensures { result ≡ ((degrees == 360) || (degrees == 720)) }
{
    degrees == 360 || degrees == 720
}

fn is_ratio(rn: u32, rd: u32) -> bool
    ensures { result ≡ (nat_le rn 65535 && nat_le rd rn) }
{
    rn <= 65535 && rd <= rn
}

/// The wheel's words on the cycle and the cams.
#[tactic(auto, using(image_layout::proofs::Firsts::firsts), unfolding(image_layout::specs::HeaderRules::cams_fault))]
pub fn check_cams(bytes: &[u8]) -> Result<(), ImageFault>
    requires { 72 ≤ length bytes.now }
    ensures { Tells result (cams_fault bytes.now) }
{
    let degrees = word_at(bytes, 32);
    range(0, 32, is_cycle(degrees))?;
    range(0, 36, keeps(word_at(bytes, 36)))?;
    range(
        0,
        44,
        is_phasing(word_at(bytes, 40), word_at(bytes, 44), degrees),
    )?;
    range(
        0,
        52,
        is_phasing(word_at(bytes, 48), word_at(bytes, 52), degrees),
    )?;
    Ok(())
}

/// The wheel's words on the engine.
#[tactic(auto, using(image_layout::proofs::Firsts::firsts), unfolding(image_layout::specs::HeaderRules::engine_fault))]
pub fn check_engine(bytes: &[u8]) -> Result<(), ImageFault>
    requires { 72 ≤ length bytes.now }
    ensures { Tells result (engine_fault bytes.now) }
{
    let rpm_high = word_at(bytes, 60);
    range(0, 56, is_within(1, word_at(bytes, 56), rpm_high))?;
    range(0, 60, rpm_high <= 30000)?;
    range(0, 64, is_ratio(word_at(bytes, 64), word_at(bytes, 68)))?;
    range(0, 68, word_at(bytes, 68) >= 1)?;
    Ok(())
}

fn are_states(places: u32, times: u32, ratios: u32, states: u32) -> bool
    requires places { places ≤ 16384 }
    requires times { times ≤ 8192 }
    requires ratios { ratios ≤ 8192 }
    ensures { result ≡ are_states places times ratios states }
{
    let words = u64::from(places).div_ceil(64);
    let width = u64::from(times) + 1 + (2 * u64::from(ratios) + 1) + 26;
    let states = u64::from(states);
    2 <= states && states <= 65535 && states * words <= 8_388_608 && states * width <= 8_388_608
}

/// The counts of slots, places, cuts and states.
#[tactic(auto, using(image_layout::proofs::Firsts::firsts), unfolding(image_layout::specs::HeaderRules::counts_fault))]
pub fn check_counts(bytes: &[u8]) -> Result<(), ImageFault>
    requires { 72 ≤ length bytes.now }
    ensures { Tells result (counts_fault bytes.now) }
{
    range(0, 12, is_within(2, word_at(bytes, 12), 4096))?;
    let places = word_at(bytes, 16);
    range(0, 16, is_within(1, places, 16384))?;
    let times = word_at(bytes, 20);
    range(0, 20, times <= 8192)?;
    let ratios = word_at(bytes, 24);
    range(0, 24, ratios <= 8192)?;
    range(0, 28, are_states(places, times, ratios, word_at(bytes, 28)))
}
