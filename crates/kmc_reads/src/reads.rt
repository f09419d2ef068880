//! Reads that lie in one buffer.
ghost use Rattle.std.specs.Prelude.{true, false, ◌≡◌, ◌<◌, ◌≤◌, length, get_or, [], ◌∷◌};
ghost use Rattle.kmc_reads.specs.Rows.{rows_from, AreEnds};

use std::alloc::Global;
use std::marker::Model;

/// Reads, one behind the other in one buffer, with the places where they end. Contracts see the
/// list of the reads.
#[derive(Drop)]
pub struct Reads {
    bytes: Vec<u8>,
    ends: Vec<usize>,
}

impl Model for Reads {
    ghost use Rattle.std.specs.Prelude.{ℕ, List, length};
    ghost use Rattle.kmc_reads.specs.Rows.{rows_from, AreEnds};

    ghost Value = { List (List ℕ) };

    ghost view = { λ a. rows_from 0 a.ends.items a.bytes.items };

    ghost invariant = { λ a. AreEnds 0 a.ends.items (length a.bytes.items) };
}

impl Reads {
    /// No reads.
    pub fn new(alloc: Global) -> Reads
        ensures { result ≡ [] }
    {
        Reads {
            bytes: Vec::new(alloc),
            ends: Vec::new(alloc),
        }
    }

    /// The reads of these bytes that end at these places.
    pub(crate) fn of_rows(bytes: Vec<u8>, ends: Vec<usize>) -> Reads
        requires { AreEnds 0 ends.items (length bytes.items) }
        ensures { result ≡ rows_from 0 ends.items bytes.items }
    {
        Reads { bytes, ends }
    }

    /// The memory of reads that are done with, for others: both are empty.
    pub(crate) fn into_rooms(self) -> (Vec<u8>, Vec<usize>)
        ensures { (result.0.items ≡ []) × (result.1.items ≡ []) }
    {
        let Reads {
            mut bytes,
            mut ends,
        } = self;
        bytes.clear();
        ends.clear();
        (bytes, ends)
    }

    /// How many they are.
    pub fn len(&self) -> usize
        ensures { result ≡ length self.now }
    {
        self.ends.len()
    }

    /// Whether there is none.
    pub fn is_empty(&self) -> bool
        ensures none { result ≡ true → self.now ≡ [] }
        ensures some { result ≡ false → 0 < length self.now }
    {
        self.ends.is_empty()
    }

    /// Read i.
    pub fn get(&self, i: usize) -> &[u8]
        requires { i < length self.now }
        ensures { result.now ≡ get_or self.now i [] }
    {
        let start = start_of(&self.ends, i);
        let end = self.ends[i];
        &self.bytes[start..end]
    }
}

/// Where row i begins, of rows that end at these places.
fn start_of(ends: &[usize], i: usize) -> usize
    requires { i ≤ length ends.now }
    ensures { result ≡ get_or (0 ∷ ends.now) i 0 }
{
    if i == 0 {
        return 0;
    }
    ends[i - 1]
}
