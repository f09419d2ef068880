//! The rows of a database as a form of pairs.
ghost use Rattle.std.specs.Prelude.{◌≡◌};
ghost use Rattle.kmc_database.specs.Layout.{IsLayout};
ghost use Rattle.kmc_database.specs.Rows.{row_long, row_of};
ghost use Rattle.kmc_packer.specs.Lemmas.RowLengths.{row_within};

use kmc_base::high_bytes_first;
use kmc_database::{Layout, put_part};
use kmc_dump::PairForm;

/// The rows of a database with this layout: the symbols of a word behind its first part, four a byte, and its count, the lowest byte
/// first.
#[derive(Clone, Copy)]
pub struct Rows {
    pub layout: Layout,
    pub ghost is: { IsLayout layout },
}

impl PairForm for Rows {
    ghost takes = { λ rows k. k ≡ rows.layout.k };

    ghost bytes = { λ rows. row_of rows.layout };

    ghost most = { λ rows _ _. row_long rows.layout };

    fn room(&self, _k: usize, _digits: usize) -> usize {
        (self.layout.k - self.layout.prefix) / 4 + self.layout.counter
    }

    #[inline(always)]
    fn put(&self, text: &mut [u8], at: usize, packed: u128, _k: usize, count: u64) -> usize {
        let size = (self.layout.k - self.layout.prefix) / 4;
        let word = high_bytes_first(packed);
        let number = count.to_le_bytes();
        let behind = put_part(text, at, &word[16 - size..]);
        put_part(text, behind, &number[..self.layout.counter])
    }

    ghost enough = { λ rows k digits p takes long short. row_within rows.layout k p rows.is takes long };
}
