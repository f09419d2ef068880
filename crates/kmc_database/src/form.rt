//! What is asked for of a database, and the form that it has.
ghost use Rattle.std.specs.Prelude.{◌≡◌, MatchOption};

use crate::layout::{Layout, layout_for};
use kmc_base::Strands;

/// The form of a database: how words and counts lie in it, and what its header tells of how they were counted. These words occur `least`
/// to `greatest` times.
#[derive(Clone, Copy)]
pub struct Form {
    pub layout: Layout,
    pub least: u32,
    pub greatest: u64,
    pub strands: Strands,
}

/// What is asked for of a database: the symbols of a word, if they are known before the dump is read; those of the first part, if not as
/// usual; the bytes of a count, 1 to 4; and what the header tells.
#[derive(Clone, Copy)]
pub struct PackOptions {
    pub k: Option<usize>,
    pub prefix: Option<usize>,
    pub counter: usize,
    pub least: u32,
    pub greatest: u64,
    pub strands: Strands,
}

impl PackOptions {
    ghost use Rattle.kmc_database.specs.Form.{form_of, IsMisfit, IsOptions};

    /// The length of words that is asked for, where it has no layout.
    pub(crate) fn misfit(&self) -> Option<usize>
        ensures { MatchOption result (IsOptions self.now) (IsMisfit self.now) }
    {
        let k = self.k?;
        match layout_for(k, self.prefix, self.counter) {
            Some(_) => None,
            None => Some(k),
        }
    }

    /// The form of a database with this layout.
    pub(crate) fn form(&self, layout: Layout) -> Form
        ensures { result ≡ form_of self.now layout }
    {
        Form {
            layout,
            least: self.least,
            greatest: self.greatest,
            strands: self.strands,
        }
    }
}
