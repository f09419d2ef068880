//! Lists that take the pairs of a dump: in plain form here, in packed form in kmc_device.
ghost use Rattle.std.specs.Prelude.{◌≡◌, ℕ, ◌-◌, ◌^◌, ◌<◌, ◌≤◌, ◌++◌, ◌∷◌, [], List, OnOk};
ghost use Rattle.kmc_base.specs.Packed.{unpack};

use kmc_base::{KeyRule, Kmer, PackedKmer};
use std::alloc::AllocError;

/// A list of words and what is shown of their counts, which a count appends to.
pub trait PairList<W: PackedKmer> {
    ghost pairs: { Self → List (List ℕ × ℕ) };

    ghost takes: { ℕ → Self → Type 0 };

    ghost greatest: { ℕ };

    /// Appends a packed word of the rule's k codes, with a number that the list has room for.
    fn push_pair(&mut self, word: W, rule: KeyRule, shown: u64) -> Result<(), AllocError>
        requires takes { takes rule.k self.old }
        requires fits { W.number word < 4 ^ rule.k }
        requires wide { shown ≤ greatest }
        ensures takes { OnOk result (takes rule.k self.new) }
        ensures pairs { OnOk result (pairs self.new
            ≡ pairs self.old ++ (unpack rule.k (W.number word), shown) ∷ []) };
}

impl<W: PackedKmer + Drop> PairList<W> for Vec<(Kmer, u64)> {
    ghost pairs = { λ v. v.items };

    ghost takes = { λ k v. Unit {0} };

    ghost greatest = { 2 ^ 64 - 1 };

    fn push_pair(&mut self, word: W, rule: KeyRule, shown: u64) -> Result<(), AllocError> {
        self.push((Kmer::of_packed(word.to_u128(), rule.k), shown))?;
        Ok(())
    }
}
