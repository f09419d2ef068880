//! How long a first part is asked to be.

use kmc_database::MOST_PREFIX;
use kmc_options::number;

/// The symbols of a first part that a text tells: 1 to [`MOST_PREFIX`].
pub fn first_part_asked(text: &str) -> Option<usize> {
    let symbols = number(text)?;
    if symbols < 1 || symbols > MOST_PREFIX as u64 {
        return None;
    }
    Some(symbols as usize)
}
