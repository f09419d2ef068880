//! The numbers that a run is told, and their ranges.
ghost use Rattle.std.specs.Prelude.{◌≡◌, ◌↔◌, IsTrue, IfSome, option_map};

use crate::digits::number;
use kmc_base::MAX_K;
use kmc_count::GREATEST_COUNT;
use kmc_partcore::MAX_WRITERS;
use kmc_record::{LEAST_P, MOST_BINS};
use kmc_split::MAX_M;

/// A range of numbers, both ends included, with the number that stands where none is given.
#[derive(Clone, Copy)]
pub struct Bounds {
    pub least: u64,
    pub most: u64,
    pub default: u64,
}

/// A number that a run is told. The meanings are those of KMC's documentation.
#[derive(Clone, Copy, Debug, PartialEq, Eq)]
pub enum Setting {
    /// The symbols of a counted word.
    K,
    /// The symbols of a signature; a word of fewer is its own.
    P,
    /// The bins between the two stages.
    N,
    /// Words that occur fewer times are not listed.
    Ci,
    /// Words that occur more times are not listed.
    Cx,
    /// A listed count above this is shown as this.
    Cs,
    /// The threads that cut reads.
    Sp,
    /// The threads that count bins.
    Sr,
}

const LEAST_SYMBOLS: u64 = LEAST_P as u64;

const MOST_SYMBOLS: u64 = MAX_M as u64;

// each splitter is a writer of the queue, and as many threads may count
const MOST_THREADS: u64 = MAX_WRITERS as u64;

impl Bounds {
    /// From the least number to the greatest.
    fn new(least: u64, most: u64, default: u64) -> Bounds
        ensures { result ≡ record { least = least; most = most; default = default } }
    {
        Bounds {
            least,
            most,
            default,
        }
    }
}

impl Setting {
    ghost use Rattle.kmc_options.specs.Settings.{bounds_of, chosen, IsFor};

    /// The numbers that the setting may have, and its default.
    pub fn bounds(self) -> Bounds
        ensures { result ≡ bounds_of self }
    {
        match self {
            Setting::K => Bounds::new(1, MAX_K as u64, 25),
            Setting::P => Bounds::new(LEAST_SYMBOLS, MOST_SYMBOLS, 9),
            Setting::N => Bounds::new(1, MOST_BINS as u64, 512),
            Setting::Ci => Bounds::new(0, GREATEST_COUNT, 2),
            Setting::Cx => Bounds::new(0, GREATEST_COUNT, 1_000_000_000),
            Setting::Cs => Bounds::new(1, GREATEST_COUNT, 255),
            Setting::Sp | Setting::Sr => Bounds::new(1, MOST_THREADS, 2),
        }
    }

    /// Whether the setting may have this number.
    pub fn takes(self, number: u64) -> bool
        ensures { IsTrue result ↔ IsFor self number }
    {
        let bounds = self.bounds();
        bounds.least <= number && number <= bounds.most
    }

    /// The number that the text gives the setting: one or more ASCII digits that write a number in the setting's range, and its
    /// default where there is no text. Otherwise `None`.
    pub fn chosen(self, text: Option<&str>) -> Option<u64>
        ensures value { result ≡ chosen (bounds_of self) (option_map (λ t. t.now) text.entry) }
        ensures in_range { IfSome result (IsFor self) }
    {
        let Some(text) = text else {
            return Some(self.bounds().default);
        };
        let number = number(text)?;
        if self.takes(number) {
            Some(number)
        } else {
            None
        }
    }
}
