//! Drawn numbers.

use std::alloc::{AllocError, Global};
use std::fmt::Write;
use stimulus::{draw, generator};

/// The two numbers of a text with a mark between them.
pub fn pair_of(text: &str, mark: char) -> Option<(u64, u64)> {
    let (first, second) = text.split_once(mark)?;
    let first = first.parse::<u64>().ok()?;
    let second = second.parse::<u64>().ok()?;
    Some((first, second))
}

/// The numbers that are drawn from ranges by the generator of a seed and a stream.
pub fn told_of_draws(
    alloc: Global,
    from: &str,
    ranges: &str,
) -> Result<Option<String>, AllocError> {
    let Some((seed, stream)) = pair_of(from, ' ') else {
        return Ok(None);
    };
    let mut words = generator(seed, stream);
    let mut told = String::new(alloc);
    for range in ranges.split(' ') {
        let Some((low, high)) = pair_of(range, '-') else {
            return Ok(None);
        };
        if low > high || high > i64::MAX as u64 {
            return Ok(None);
        }
        if !told.is_empty() {
            told.push(' ')?;
        }
        write!(told, "{}", draw(&mut words, low, high))?;
    }
    Ok(Some(told))
}
