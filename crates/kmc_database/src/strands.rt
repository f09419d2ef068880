//! Databases that are not joined, since only one of them counts a word and its reverse complement together.
ghost use Rattle.std.specs.Prelude.{◌≡◌, Some, true, false, OnOk, OnErr};
ghost use Rattle.kmc_database.specs.DumpSource.{are_alike};
ghost use Rattle.kmc_database.specs.Messages.{strands_message_of};
ghost use Rattle.kmc_database.specs.RefusalNumbers.{number_of_strands_error};

use kmc_base::Strands;
use kmc_options::Ending;
use std::fmt;

/// Why two sources are not joined, whatever they list.
#[derive(Clone, Copy, Debug, PartialEq, Eq)]
pub enum StrandsError {
    /// Only one of the two counts a word and its reverse complement together.
    Unlike,
}

impl StrandsError {
    /// The number of the refusal, as docs/REFUSALS.md lists it.
    pub fn number(&self) -> u8
        ensures { result ≡ number_of_strands_error self.now }
    {
        match self {
            StrandsError::Unlike => 1,
        }
    }
}

/// Judges two sources by the strands that they tell. One that tells none, as a text, fits any other.
pub fn judge_strands(first: Option<Strands>, second: Option<Strands>) -> Result<(), StrandsError>
    ensures alike { OnOk result (are_alike first second ≡ true) }
    ensures unlike { OnErr result (are_alike first second ≡ false) }
{
    let Some(one) = first else {
        return Ok(());
    };
    let Some(other) = second else {
        return Ok(());
    };
    if one == other {
        Ok(())
    } else {
        Err(StrandsError::Unlike)
    }
}

/// The line that tells the user why two databases of these names are not joined.
#[derive(Clone, Copy)]
pub struct StrandsMessage<'a> {
    pub first: &'a str,
    pub second: &'a str,
    pub error: StrandsError,
}

impl Ending for StrandsMessage<'_> {
    ghost misused = { λ _. false };

    ghost unwritten = { λ _. false };

    fn is_misuse(&self) -> bool {
        match self.error {
            StrandsError::Unlike => false,
        }
    }

    fn is_unwritten(&self) -> bool {
        false
    }
}

impl fmt::Display for StrandsMessage<'_> {
    ghost output = { λ m. Some (strands_message_of m.first.now m.second.now m.error) };

    fn fmt<W: fmt::Write>(&self, f: &mut fmt::Formatter<W>) -> fmt::Result {
        let first = self.first;
        let second = self.second;
        match self.error {
            StrandsError::Unlike => write!(
                f,
                "kmc_db: {first}, {second}: only one of the two was counted with -b"
            ),
        }
    }
}
