//! Whether equal records are looked for in a bin.
ghost use Rattle.std.specs.Prelude.{◌≤◌};
ghost use Rattle.kmc_record.specs.declared.record_keys.TheConstants.{MOST_KEY_SYMBOLS};

use kmc_record::MOST_KEY_SYMBOLS;

/// So many bins are counted word by word before equal records are looked for again.
const PLAIN_BINS: u32 = 15;

/// A bin of fewer records tells nothing of the next ones.
const LEAST_RECORDS: usize = 1024;

/// What the bins before tell of the next one: where few of their records were equal, sorting its records saves nothing. Whatever
/// it says, the count is the same.
#[derive(Clone, Copy)]
pub(crate) struct Repeats {
    plain: u32,
}

impl Repeats {
    /// No bin was met before: equal records are looked for.
    pub(crate) fn new() -> Repeats {
        Repeats { plain: 0 }
    }

    /// The most symbols of a record that becomes a number in the next bin, or 0 where its words are counted one by one.
    pub(crate) fn short_records(&mut self) -> usize
        ensures { result ≤ MOST_KEY_SYMBOLS }
    {
        if self.plain == 0 {
            return MOST_KEY_SYMBOLS;
        }
        self.plain -= 1;
        0
    }

    /// Learns from the sorted numbers of a bin's records whether the next bins are worth the look: where there are enough, and more
    /// than 5 of 8 differ from the one before them, they are not.
    pub(crate) fn learn(&mut self, numbers: &[u128]) {
        let mut rows: usize = 0;
        let mut last = 0;
        for number in numbers {
            if *number != last {
                rows = rows.saturating_add(1);
                last = *number;
            }
        }
        if numbers.len() >= LEAST_RECORDS && rows > numbers.len() / 8 * 5 {
            self.plain = PLAIN_BINS;
        }
    }
}
